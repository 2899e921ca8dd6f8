// Printing the slip of two files, for the programs.
#![tactic(auto)]

ghost use Rattle.std.specs.Prelude.{◌≡◌};
ghost use Rattle.tagged.specs.AnswerPromised.{AnswerPromised};
ghost use Rattle.charge.specs.Price.{price_of};
ghost use Rattle.slip_text.specs.Slip.{slip_written, slip_buffer};
ghost use Rattle.slip_text.specs.SlipEnding.{slip_ending};
ghost use Rattle.print_slip.specs.Counted.{counted};

use arrayvec::ArrayVec;
use slip_text::{ROOM, SlipWritten};
use std::convert::AsSlice;
use std::io;
use std::io::Write;
use std::rt::Files;

// How many bytes of a file count.
const COUNTED_SIZE: usize = 4_096;

// How many bytes are read of a file: more than count, so that `counted` and not the reading leaves
// the rest out.
pub const READ_SIZE: usize = 8_192;

// What counts of a file.
#[tactic(auto, using(std::proofs::lemmas::List::take_min))]
pub fn counted<'a>(file: &'a [u8]) -> &'a [u8]
    ensures { (result.now ≡ counted file.now) × (result.ref_ptr ≡ file.entry.ref_ptr) }
{
    &file[..COUNTED_SIZE.min(file.len())]
}

// The slip of a rate book and a request by what counts of them, at the start of a lent buffer.
fn files_slip(book: &[u8], request: &[u8], text: &mut [u8]) -> SlipWritten
    ensures answer { AnswerPromised slip_ending (slip_written (price_of (counted book.now) (counted request.now)) text.old) result }
    ensures text_after { text.new ≡ slip_buffer (price_of (counted book.now) (counted request.now)) text.old }
{
    slip_text::slip_text(charge::price(counted(book), counted(request)), text)
}

// Prints what `write` leaves at the start of the text of a rate book and a request, each by its file's
// name. A file that can't be read counts as empty. The text is lent, as the unit's calls take it, and
// what standard output doesn't take is lost, so that printing can't fail.
pub fn print_text<F>(
    rt: &(impl Files + Print),
    book: impl AsSlice<u8> + Drop,
    request: impl AsSlice<u8> + Drop,
    text: &mut [u8],
    write: F,
)
where
    F: FnOnce(&[u8], &[u8], &mut [u8]) -> SlipWritten,
    requires { F.IsAlwaysCallable write }
{
    let book: ArrayVec<u8, READ_SIZE> = files::read_start(rt, book);
    let request: ArrayVec<u8, READ_SIZE> = files::read_start(rt, request);
    let written = write(book.as_slice(), request.as_slice(), text);
    if let Some(text) = written.ok().and_then(|size| text.get(..size)) {
        let _ = io::writer(rt).write_all(text);
    }
}

// Prints the slip of a rate book and a request, each by its file's name.
pub fn print_slip(
    rt: &(impl Files + Print),
    book: impl AsSlice<u8> + Drop,
    request: impl AsSlice<u8> + Drop,
) {
    print_text(rt, book, request, &mut [0u8; ROOM], files_slip);
}
