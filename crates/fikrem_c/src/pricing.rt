// The reconciliation, the slip and the page of a request by a rate book.

ghost use Rattle.std.specs.Prelude.{◌≡◌};
ghost use Rattle.charge.specs.Price.{price_of};
ghost use Rattle.page_text.specs.Page.{page_output, page_written};
ghost use Rattle.quoting_unit.specs.Interface.{answer_result, lent_figures, lent_output};
ghost use Rattle.quoting_unit.specs.Unit.{price, slip_text, unit_call};

use quoting_unit::figures::{FIGURES, write_figures};
use quoting_unit::outcomes::{ANSWER, slip_outcome, write_answer};
use quoting_unit::results::{TOO_SHORT, result_of, result_of_answer};

/// The reconciliation, into the figures. Short figures are 14 before anything else.
#[tactic(auto, using(charge::proofs::Theorems::PriceEnding::promised_price))]
#[unsafe(no_mangle)]
pub extern "C" fn fikrem_price(book: &[u8], request: &[u8], figures: &mut [i64]) -> u64
    ensures { let end = unit_call (price book.now request.now) (lent_figures figures.old) in
        (result ≡ end.result) × (figures.new ≡ end.lent.figures) }
{
    if figures.len() < FIGURES {
        return TOO_SHORT;
    }
    match charge::price(book, request) {
        Ok(bill) => {
            write_figures(bill.reconciliation, figures);
            0
        }
        Err(refusal) => result_of(refusal, 0),
    }
}

/// The slip, into the text; its length in bytes in the answer's last place. A request that is not priced has a slip too: the line
/// `REFUSED n file place`. A short answer or text is 14.
#[unsafe(no_mangle)]
pub extern "C" fn fikrem_slip_text(
    book: &[u8],
    request: &[u8],
    text: &mut [u8],
    answer: &mut [u64],
) -> u64
    ensures { let end = unit_call (slip_text book.now request.now) (lent_output text.old answer.old) in
        (result ≡ end.result) × (text.new ≡ end.lent.output) × (answer.new ≡ end.lent.answer) }
{
    if answer.len() < ANSWER {
        return TOO_SHORT;
    }
    let pricing = charge::price(book, request);
    let written = slip_text::slip_text(pricing, text);
    write_answer(slip_outcome(written), answer)
}

/// The page, at the start of the lent output. A short output is 14, after the refusals of pricing.
#[tactic(auto, using(page_text::proofs::Theorems::PageEnding::promised_page))]
#[unsafe(no_mangle)]
pub extern "C" fn fikrem_page(book: &[u8], request: &[u8], out: &mut [u8]) -> u64
    ensures value { result ≡ answer_result (page_written (price_of book.now request.now) out.old) }
    ensures out_after { out.new ≡ page_output (price_of book.now request.now) out.old }
{
    result_of_answer(page_text::page(book, request, out))
}
