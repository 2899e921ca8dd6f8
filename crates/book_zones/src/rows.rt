// The fields of a rate book.
ghost use Rattle.std.specs.Prelude.{◌≡◌};
ghost use Rattle.tagged.specs.File.{file_answer};
ghost use Rattle.book_zones.specs.BookRows.{book_rows};

use field_values::limits::{MOST_FACTORS, MOST_ZONES};
use field_walk::walk::{FIRST_FORM, Row, SECOND_FORM};
use tagged::file::FileAnswer;

// Tag; lowest, highest and step of length; least and most times; the form, 0 for both: 09 stands in
// place of every 08.
pub const BOOK_ROWS: [Row; 9] = [
    [1, 4, 4, 1, 1, 1, 0],
    [2, 2, 2, 1, 1, 1, 0],
    [3, 40, 40, 1, 1, 1, 0],
    [4, 2, 2 * MOST_FACTORS as u16, 2, 1, 1, 0],
    [5, 2, 2 * MOST_FACTORS as u16, 2, 1, 1, 0],
    [6, 14, 14, 1, 1, 1, 0],
    [7, 3, 3, 1, 1, 1, 0],
    [8, 21, 21, 1, 1, MOST_ZONES as u16, FIRST_FORM],
    [9, 22, 22, 1, 1, MOST_ZONES as u16, SECOND_FORM],
];

// Whether a file stands as a rate book: its last five bytes, its check and its fields. `number` is the
// file's in a refusal.
// A function for each kind of file, so that no caller needs to know its rows.
pub fn book_stands(number: u8, file: &[u8]) -> FileAnswer
    ensures { result ≡ file_answer book_rows number file.now }
{
    tagged::file::file_stands(&BOOK_ROWS, number, file)
}
