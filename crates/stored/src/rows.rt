// The fields of a stored ledger.
ghost use Rattle.std.specs.Prelude.{◌≡◌};
ghost use Rattle.tagged.specs.File.{file_answer};
ghost use Rattle.stored.specs.StoredRows.{stored_rows};

use crate::form::Form;
use field_walk::walk::Row;
use ledger::limits::{MOST_ENTRIES, MOST_SCHEMES};
use tagged::file::FileAnswer;

// Tag; lowest, highest and step of length; least and most times; the form, 0 for both.
pub const PION_ROWS: [Row; 4] = [
    [1, 4, 4, 1, 1, 1, 0],
    [2, 22, 22, 1, 1, 1, 0],
    [3, 24, 24, 1, 0, MOST_SCHEMES as u16, 0],
    [4, 30, 30, 1, 0, MOST_ENTRIES as u16, 0],
];

pub const PIO2_ROWS: [Row; 4] = [
    [1, 4, 4, 1, 1, 1, 0],
    [2, 54, 54, 1, 1, 1, 0],
    [3, 28, 28, 1, 0, MOST_SCHEMES as u16, 0],
    [4, 34, 34, 1, 0, MOST_ENTRIES as u16, 0],
];

// Whether a file stands as a ledger stored in a form: its last five bytes, its check and its fields. `number` is the
// file's in a refusal. A function for each kind of file, so that no caller needs to know its rows.
pub fn stored_stands(form: Form, number: u8, file: &[u8]) -> FileAnswer
    ensures { result ≡ file_answer (stored_rows form) number file.now }
{
    match form {
        Form::Pion => tagged::file::file_stands(&PION_ROWS, number, file),
        Form::Pio2 => tagged::file::file_stands(&PIO2_ROWS, number, file),
    }
}
