// The fields of each kind of file, and the values of each field.
ghost use Rattle.std.specs.Prelude.{◌≡◌, ◌≤◌, ◌<◌, ◌+◌, ◌⊎◌, get_or, length};
ghost use Rattle.text_names.specs.Table.{field, zone_field, row, book_fields, request_fields, fields, no_field, field_at, book_rows, request_rows, no_row, row_at};

use field_values::limits::{
    HIGHEST_AMOUNT, HIGHEST_CAPACITY, HIGHEST_CLASS, HIGHEST_DEMAND, HIGHEST_DISCOUNT_RATE,
    HIGHEST_FACTOR, HIGHEST_MARK, HIGHEST_MINIMUM, HIGHEST_MODE, HIGHEST_OF_TWO_BYTES,
    HIGHEST_RATE, HIGHEST_REVENUE, HIGHEST_SHARE, HIGHEST_THRESHOLD, LOWEST_CAPACITY, LOWEST_TERM,
};
use unit_text::measure::{Measure, Words};

/// A kind of file.
#[derive(Clone, Copy)]
pub enum Kind {
    Book,
    Request,
}

/// What the values of a field are repeated over.
#[derive(Clone, Copy)]
pub enum Over {
    Nothing,
    Pairs,
    Tiers,
    /// One to eight years, as the field's length says.
    Years,
    /// One to eight zones, each a field of its own.
    Zones,
}

/// A field: its tag, and that in files with two-byte zone numbers; its first row and how many it has; the bytes of its values, once each, where zone
/// numbers have one byte.
#[derive(Clone, Copy)]
pub struct Field {
    pub tag: u8,
    pub wide_tag: u8,
    pub over: Over,
    pub first: usize,
    pub rows: usize,
    pub size: usize,
}

/// What is allowed.
#[derive(Clone, Copy)]
pub enum Limits {
    /// From the one to the other, both included.
    Within(u32, u32),
    /// From 0 to the value of another row.
    UpTo(usize),
    /// From 0 to this, above the same value of the zone before.
    Rising(u32),
    /// From 0 to this where the value of a row is this word, otherwise 0.
    Only(u32, usize, u32),
    /// All of it together is at most all of another row's value together, which isn't 0.
    Sums(usize),
}

/// A value of a field: its place in it and its bytes, where zone numbers have one byte; its unit and limits. Rows that are described alike stand together:
/// the first of them has their number, the others have 0.
#[derive(Clone, Copy)]
pub struct Row {
    pub place: usize,
    pub width: usize,
    pub measure: Measure,
    pub limits: Limits,
    pub alike: usize,
}

// The highest number of four bytes.
const HIGHEST_OF_FOUR_BYTES: u32 = 0xFFFF_FFFF;

const AMOUNT: Limits = Limits::Within(0, HIGHEST_AMOUNT);

const RATE: Limits = Limits::Within(0, HIGHEST_RATE);

const FACTOR: Limits = Limits::Within(0, HIGHEST_FACTOR);

fn plain_field(tag: u8, over: Over, first: usize, rows: usize, size: usize) -> Field
    ensures { result ≡ field tag over first rows size }
{
    Field {
        tag,
        wide_tag: tag,
        over,
        first,
        rows,
        size,
    }
}

fn zone_field(tag: u8, wide_tag: u8, over: Over, first: usize, rows: usize, size: usize) -> Field
    ensures { result ≡ zone_field tag wide_tag over first rows size }
{
    Field {
        tag,
        wide_tag,
        over,
        first,
        rows,
        size,
    }
}

fn table_row(place: usize, width: usize, measure: Measure, limits: Limits, alike: usize) -> Row
    ensures { result ≡ row place width measure limits alike }
{
    Row {
        place,
        width,
        measure,
        limits,
        alike,
    }
}

/// How many fields a kind of file has, beside 01.
#[tactic(auto, unfolding(crate::specs::Table::book_fields, crate::specs::Table::request_fields))]
pub fn field_count(kind: Kind) -> usize
    ensures value { result ≡ length (fields kind) }
    ensures within { result ≤ 11 }
{
    match kind {
        Kind::Book => 7,
        Kind::Request => 11,
    }
}

/// A field, in the order of a text; past the last one without rows.
pub fn field_at(kind: Kind, number: usize) -> Field
    ensures value { result ≡ field_at kind number }
    ensures within { (result.size ≤ 64) × (result.first + result.rows ≤ 22) }
{
    match kind {
        Kind::Book => book_field(number),
        Kind::Request => request_field(number),
    }
}

/// A row, in the order of a text; past the last one without bytes.
pub fn row_at(kind: Kind, number: usize) -> Row
    ensures value { result ≡ row_at kind number }
    ensures within { (result.alike < 64) × (result.place ≤ 64) }
    ensures width { (result.width ≡ 0) ⊎ ((result.width ≡ 1) ⊎ ((result.width ≡ 2) ⊎ (result.width ≡ 4))) }
{
    match kind {
        Kind::Book => book_row(number),
        Kind::Request => request_row(number),
    }
}

#[tactic(auto, unfolding(crate::specs::Table::book_fields))]
fn book_field(number: usize) -> Field
    ensures { result ≡ get_or book_fields number no_field }
{
    match number {
        0 => plain_field(2, Over::Nothing, 0, 1, 2),
        1 => plain_field(3, Over::Pairs, 1, 2, 8),
        2 => plain_field(4, Over::Years, 3, 1, 2),
        3 => plain_field(5, Over::Years, 4, 1, 2),
        4 => plain_field(6, Over::Nothing, 5, 4, 14),
        5 => plain_field(7, Over::Nothing, 9, 2, 3),
        6 => zone_field(8, 9, Over::Zones, 11, 6, 21),
        _ => plain_field(0, Over::Nothing, 0, 0, 0),
    }
}

#[tactic(auto, unfolding(crate::specs::Table::request_fields))]
fn request_field(number: usize) -> Field
    ensures { result ≡ get_or request_fields number no_field }
{
    match number {
        0 => plain_field(2, Over::Nothing, 0, 1, 4),
        1 => plain_field(3, Over::Nothing, 1, 1, 1),
        2 => zone_field(4, 13, Over::Nothing, 2, 1, 1),
        3 => plain_field(5, Over::Nothing, 3, 6, 24),
        4 => plain_field(6, Over::Tiers, 9, 3, 9),
        5 => plain_field(7, Over::Tiers, 12, 1, 4),
        6 => plain_field(8, Over::Nothing, 13, 2, 8),
        7 => plain_field(9, Over::Years, 15, 1, 2),
        8 => plain_field(10, Over::Years, 16, 1, 2),
        9 => plain_field(11, Over::Years, 17, 1, 2),
        10 => plain_field(12, Over::Nothing, 18, 4, 9),
        _ => plain_field(0, Over::Nothing, 0, 0, 0),
    }
}

#[tactic(auto, unfolding(crate::specs::Table::book_rows))]
fn book_row(number: usize) -> Row
    ensures { result ≡ get_or book_rows number no_row }
{
    match number {
        0 => table_row(
            0,
            2,
            Measure::Percent,
            Limits::Within(0, HIGHEST_DISCOUNT_RATE),
            1,
        ),
        1 => table_row(0, 4, Measure::ThousandDollars, Limits::Sums(2), 1),
        2 => table_row(
            4,
            4,
            Measure::ThousandDollars,
            Limits::Within(0, HIGHEST_OF_FOUR_BYTES),
            1,
        ),
        3 => table_row(0, 2, Measure::Factor, FACTOR, 1),
        4 => table_row(0, 2, Measure::Factor, FACTOR, 1),
        5 => table_row(
            0,
            4,
            Measure::Dollars,
            Limits::Within(0, HIGHEST_THRESHOLD),
            1,
        ),
        6 => table_row(4, 4, Measure::Dollars, Limits::UpTo(7), 1),
        7 => table_row(
            8,
            4,
            Measure::Dollars,
            Limits::Within(0, HIGHEST_MINIMUM),
            1,
        ),
        8 => table_row(
            12,
            2,
            Measure::Number,
            Limits::Within(LOWEST_TERM as u32, HIGHEST_OF_TWO_BYTES),
            1,
        ),
        9 => table_row(0, 1, Measure::Choice(Words::YesNo), Limits::Within(0, 1), 1),
        10 => table_row(1, 2, Measure::Percent, Limits::Within(0, HIGHEST_SHARE), 1),
        11 => table_row(
            0,
            1,
            Measure::Number,
            Limits::Rising(HIGHEST_OF_TWO_BYTES),
            1,
        ),
        12 => table_row(1, 4, Measure::DollarsPerKva, RATE, 5),
        13 => table_row(5, 4, Measure::DollarsPerKva, RATE, 0),
        14 => table_row(9, 4, Measure::DollarsPerKva, RATE, 0),
        15 => table_row(13, 4, Measure::DollarsPerKva, RATE, 0),
        16 => table_row(17, 4, Measure::DollarsPerKva, RATE, 0),
        _ => table_row(0, 0, Measure::Number, Limits::Within(0, 0), 0),
    }
}

#[tactic(auto, unfolding(crate::specs::Table::request_rows))]
fn request_row(number: usize) -> Row
    ensures { result ≡ get_or request_rows number no_row }
{
    match number {
        0 => table_row(
            0,
            4,
            Measure::Number,
            Limits::Within(0, HIGHEST_OF_FOUR_BYTES),
            1,
        ),
        1 => table_row(
            0,
            1,
            Measure::Choice(Words::Classes),
            Limits::Within(0, HIGHEST_CLASS),
            1,
        ),
        2 => table_row(
            0,
            1,
            Measure::Number,
            Limits::Within(0, HIGHEST_OF_TWO_BYTES),
            1,
        ),
        3 => table_row(0, 4, Measure::Dollars, AMOUNT, 5),
        4 => table_row(4, 4, Measure::Dollars, AMOUNT, 0),
        5 => table_row(8, 4, Measure::Dollars, AMOUNT, 0),
        6 => table_row(12, 4, Measure::Dollars, AMOUNT, 0),
        7 => table_row(16, 4, Measure::Dollars, AMOUNT, 0),
        8 => table_row(
            20,
            4,
            Measure::Dollars,
            Limits::Only(HIGHEST_AMOUNT, 1, 2),
            1,
        ),
        9 => table_row(
            0,
            1,
            Measure::Choice(Words::Modes),
            Limits::Within(0, HIGHEST_MODE),
            1,
        ),
        10 => table_row(1, 4, Measure::Kva, Limits::Within(0, HIGHEST_DEMAND), 1),
        11 => table_row(5, 4, Measure::DollarsPerKva, RATE, 1),
        12 => table_row(0, 4, Measure::Kva, Limits::Within(0, HIGHEST_DEMAND), 1),
        13 => table_row(
            0,
            4,
            Measure::Dollars,
            Limits::Within(0, HIGHEST_REVENUE),
            2,
        ),
        14 => table_row(
            4,
            4,
            Measure::Dollars,
            Limits::Within(0, HIGHEST_REVENUE),
            0,
        ),
        15 => table_row(0, 2, Measure::Factor, FACTOR, 1),
        16 => table_row(0, 2, Measure::Factor, FACTOR, 1),
        17 => table_row(0, 2, Measure::Factor, FACTOR, 1),
        18 => table_row(
            0,
            2,
            Measure::Month,
            Limits::Within(0, HIGHEST_OF_TWO_BYTES),
            1,
        ),
        19 => table_row(
            2,
            4,
            Measure::Kva,
            Limits::Within(LOWEST_CAPACITY, HIGHEST_CAPACITY),
            1,
        ),
        20 => table_row(
            6,
            2,
            Measure::Number,
            Limits::Within(0, HIGHEST_OF_TWO_BYTES),
            1,
        ),
        21 => table_row(
            8,
            1,
            Measure::Choice(Words::Marks),
            Limits::Within(0, HIGHEST_MARK),
            1,
        ),
        _ => table_row(0, 0, Measure::Number, Limits::Within(0, 0), 0),
    }
}
