// A whole file's first steps, in document 01's order: its last five bytes, its check, its fields.
ghost use Rattle.std.specs.Prelude.{◌≡◌, ◌≤◌, length};
ghost use Rattle.tagged.specs.File.{tail_stands, check_stands, closing_answer, file_answer, fields_part, refusal};

use crate::refusals::{CHECK_DIFFERS, FILE_DOES_NOT_WALK};
use field_walk::walk::Row;
use numbers::big_endian::BigEndian;

// How a call is refused: document 01's number, the file and the place.
// Number and file are bytes and no kinds: they cross to C, and the slip prints any.
#[derive(Clone, Copy, Debug, PartialEq, Eq)]
pub struct Refusal {
    pub number: u8,
    pub file: u8,
    pub place: usize,
}

impl Refusal {
    // At a place of a file.
    pub fn of_file(number: u8, file: u8, place: usize) -> Refusal
        ensures { result ≡ refusal number file place }
    {
        Refusal {
            number,
            file,
            place,
        }
    }

    // Of a call that no file refuses: file and place are 0.
    pub fn of_call(number: u8) -> Refusal
        ensures { result ≡ refusal number 0 0 }
    {
        Refusal::of_file(number, 0, 0)
    }
}

// A file stands, or is refused.
pub type FileAnswer = Result<(), Refusal>;

// The last five bytes are FF, the length 2 and two bytes of check.
fn tail_stands(file: &[u8]) -> bool
    ensures { result ≡ tail_stands file.now }
{
    let size = file.len();
    if size < 5 {
        return false;
    }
    file[size - 5..size - 2] == [255, 0, 2]
}

// The last two bytes are the check of all bytes before them.
fn check_stands(file: &[u8]) -> bool
    requires { 2 ≤ length file.now }
    ensures { result ≡ check_stands file.now }
{
    let checked = file.len() - 2;
    u32::from(u16::read(file, checked)) == numbers::check::check(&file[..checked])
}

// The fields of a file: all but its last five bytes.
// No bytes and no Option: a file that is shorter than its last five bytes has no fields.
pub fn fields_part<'a>(file: &'a [u8]) -> &'a [u8]
    ensures { (result.now ≡ fields_part file.now) × (result.ref_ptr ≡ file.entry.ref_ptr) }
{
    if file.len() < 5 {
        return &file[..0];
    }
    let end = file.len() - 5;
    &file[..end]
}

// Whether a file ends as it should and has its right check, whatever its kind; `number` is the file's in a refusal.
// The number comes beside the bytes: a pair would be made for this one call and taken apart in it.
pub fn closing_stands(number: u8, file: &[u8]) -> FileAnswer
    ensures { result ≡ closing_answer number file.now }
{
    if !tail_stands(file) {
        return Err(Refusal::of_file(FILE_DOES_NOT_WALK, number, 0));
    }
    let checked = file.len() - 2;
    if !check_stands(file) {
        return Err(Refusal::of_file(CHECK_DIFFERS, number, checked));
    }
    Ok(())
}

// Whether a file of the kind with these rows stands.
pub fn file_stands(rows: &[Row], number: u8, file: &[u8]) -> FileAnswer
    ensures { result ≡ file_answer rows.now number file.now }
{
    closing_stands(number, file)?;
    field_walk::walk::walk(rows, fields_part(file)).map_err(|at| Refusal::of_file(
        FILE_DOES_NOT_WALK,
        number,
        at,
    ))
}
