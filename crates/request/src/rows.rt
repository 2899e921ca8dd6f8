// The fields of a request.
ghost use Rattle.std.specs.Prelude.{◌≡◌};
ghost use Rattle.tagged.specs.File.{file_answer};
ghost use Rattle.request.specs.RequestRows.{request_rows};

use field_values::limits::MOST_FACTORS;
use field_walk::walk::{FIRST_FORM, Row, SECOND_FORM};
use tagged::file::FileAnswer;

// Tag; lowest, highest and step of length; least and most times; the form, 0 for both: 0D stands in
// place of 04.
pub const REQUEST_ROWS: [Row; 13] = [
    [1, 4, 4, 1, 1, 1, 0],
    [2, 4, 4, 1, 1, 1, 0],
    [3, 1, 1, 1, 1, 1, 0],
    [4, 1, 1, 1, 1, 1, FIRST_FORM],
    [5, 24, 24, 1, 1, 1, 0],
    [6, 45, 45, 1, 1, 1, 0],
    [7, 20, 20, 1, 1, 1, 0],
    [8, 8, 8, 1, 1, 1, 0],
    [9, 2, 2 * MOST_FACTORS as u16, 2, 1, 1, 0],
    [10, 2, 2 * MOST_FACTORS as u16, 2, 1, 1, 0],
    [11, 2, 2 * MOST_FACTORS as u16, 2, 1, 1, 0],
    [12, 9, 9, 1, 1, 1, 0],
    [13, 2, 2, 1, 1, 1, SECOND_FORM],
];

// Whether a file stands as a request: its last five bytes, its check and its fields. `number` is the
// file's in a refusal.
// A function for each kind of file, so that no caller needs to know its rows.
pub fn request_stands(number: u8, file: &[u8]) -> FileAnswer
    ensures { result ≡ file_answer request_rows number file.now }
{
    tagged::file::file_stands(&REQUEST_ROWS, number, file)
}
