// Printing the page of two files, for the programs.
#![tactic(auto)]

ghost use Rattle.std.specs.Prelude.{◌≡◌, Err, Ok};
ghost use Rattle.tagged.specs.AnswerPromised.{AnswerPromised};
ghost use Rattle.charge.specs.Price.{price_of};
ghost use Rattle.slip_text.specs.Slip.{slip_written, slip_buffer};
ghost use Rattle.page_text.specs.Page.{page_size, page_written, page_output};
ghost use Rattle.slip_text.specs.SlipEnding.{slip_ending};
ghost use Rattle.print_page.specs.PageOrLine.{page_or_line};
ghost use Rattle.print_slip.specs.Counted.{counted};

use page_text::{PAGE, PageWritten};
use slip_text::SlipWritten;
use std::convert::AsSlice;
use std::rt::Files;

// The page of a rate book and a request by what counts of them, at the start of a lent output.
// A function beside files_slip, since each promises a text of its own.
fn files_page(book: &[u8], request: &[u8], out: &mut [u8]) -> PageWritten
    ensures value { result ≡ page_written (price_of (counted book.now) (counted request.now)) out.old }
    ensures out_after { out.new ≡ page_output (price_of (counted book.now) (counted request.now)) out.old }
{
    page_text::page(print_slip::counted(book), print_slip::counted(request), out)
}

// The page, or the line `REFUSED n file place` as a slip has it, at the start of a lent buffer.
#[tactic(auto, using(crate::proofs::Lines::line_promise, slip_text::proofs::Theorems::SlipEnding::promised_slip), unfolding(page_text::specs::Page::page_written, page_text::specs::Page::page_output))]
fn page_or_refusal(book: &[u8], request: &[u8], text: &mut [u8]) -> SlipWritten
    ensures answer { let pricing = price_of (counted book.now) (counted request.now) in
        AnswerPromised slip_ending (page_or_line (page_written pricing text.old) (Ok page_size) (λ r. slip_written (Err r) text.old)) result }
    ensures text_after { let pricing = price_of (counted book.now) (counted request.now) in
        text.new ≡ page_or_line (page_written pricing text.old) (page_output pricing text.old) (λ r. slip_buffer (Err r) text.old) }
{
    match files_page(book, request, text) {
        Ok(()) => Ok(PAGE),
        Err(refusal) => slip_text::slip_text(Err(refusal), text),
    }
}

// Prints the page of a rate book and a request, each by its file's name, or the line of the refusal.
pub fn print_page(
    rt: &(impl Files + Print),
    book: impl AsSlice<u8> + Drop,
    request: impl AsSlice<u8> + Drop,
) {
    print_slip::print_text(rt, book, request, &mut [0u8; PAGE], page_or_refusal);
}
