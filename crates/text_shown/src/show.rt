// Showing a file: the text of a book or request that stands, or its refusal.
ghost use Rattle.std.specs.Prelude.{◌≡◌};
ghost use Rattle.text_shown.specs.Lines.{file_text};
ghost use Rattle.text_shown.specs.Show.{text_written, text_output, is_rated, is_connected, comes_after, kind_reached, answer_as, kind_shown, show_written, show_output};

use crate::lines::put_file_text;
use rate_book::book::read_book;
use request::values::read_request;
use tagged::file::{FileAnswer, Refusal, fields_part};
use tagged::refusals::{OUTPUT_TOO_SHORT, VALUE_NOT_LISTED};
use text_names::table::Kind;

/// No text of a file is longer.
pub const LONGEST_TEXT: usize = 9216;

/// How long the text is, or the refusal.
pub type TextWritten = Result<usize, Refusal>;

/// The text of these fields at the start of a lent output.
#[tactic(auto, using(crate::proofs::Longest::file_text_short, crate::proofs::Longest::written_first))]
pub fn write_text(kind: Kind, fields: &[u8], out: &mut [u8]) -> TextWritten
    ensures value { result ≡ text_written (file_text kind fields.now) out.old }
    ensures out_after { out.new ≡ text_output (file_text kind fields.now) out.old }
{
    if out.len() < LONGEST_TEXT {
        return Err(Refusal::of_call(OUTPUT_TOO_SHORT));
    }
    Ok(put_file_text(out, 0, kind, fields))
}

fn is_rated(file: &[u8]) -> bool
    ensures { result ≡ is_rated file.now }
{
    file.starts_with(&[1, 0, 4, b'R', b'A', b'T', b'E'])
}

fn is_connected(file: &[u8]) -> bool
    ensures { result ≡ is_connected file.now }
{
    file.starts_with(&[1, 0, 4, b'C', b'O', b'N', b'N'])
}

// A request's refusal comes after a book's: of its values, or at a later place.
fn comes_after(of_request: Refusal, of_book: Refusal) -> bool
    ensures { result ≡ comes_after of_request of_book }
{
    if of_request.number == VALUE_NOT_LISTED {
        of_book.number != VALUE_NOT_LISTED || of_book.place < of_request.place
    } else {
        of_book.number != VALUE_NOT_LISTED && of_book.place < of_request.place
    }
}

fn kind_reached(book: FileAnswer, request: FileAnswer) -> Kind
    ensures { result ≡ kind_reached book request }
{
    match (book, request) {
        (Ok(()), _) => Kind::Book,
        (Err(_), Ok(())) => Kind::Request,
        (Err(of_book), Err(of_request)) => {
            if comes_after(of_request, of_book) {
                Kind::Request
            } else {
                Kind::Book
            }
        }
    }
}

// `inline(never)`: each reader's values would stay on the stack.
#[inline(never)]
fn answer_as(kind: Kind, file: &[u8]) -> FileAnswer
    ensures { result ≡ answer_as kind file.now }
{
    match kind {
        Kind::Book => {
            read_book(1, file)?;
            Ok(())
        }
        Kind::Request => {
            read_request(2, file)?;
            Ok(())
        }
    }
}

/// The kind that a file is shown as: by its letters; of others the one whose fields it follows further.
#[tactic(auto, unfolding(crate::specs::Show::kind_shown))]
pub fn kind_shown(file: &[u8]) -> Kind
    ensures { result ≡ kind_shown file.now }
{
    if is_rated(file) {
        return Kind::Book;
    }
    if is_connected(file) {
        return Kind::Request;
    }
    kind_reached(answer_as(Kind::Book, file), answer_as(Kind::Request, file))
}

/// Of a book or request that stands the text that packs to the same bytes, at the start of a lent output, and its length; of any other its refusal, and 14
/// where the output is shorter than any text may be. A refusal leaves the output as it was.
#[tactic(auto, unfolding(crate::specs::Show::show_written, crate::specs::Show::show_output))]
pub fn show(file: &[u8], out: &mut [u8]) -> TextWritten
    ensures value { result ≡ show_written file.now out.old }
    ensures out_after { out.new ≡ show_output file.now out.old }
{
    let kind = kind_shown(file);
    answer_as(kind, file)?;
    write_text(kind, fields_part(file), out)
}
