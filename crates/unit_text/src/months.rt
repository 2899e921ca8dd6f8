// Months as texts have them: as they are shown, and as spreadsheets make dates of them.
ghost use Rattle.std.specs.Prelude.{◌≡◌, ◌+◌, ◌≤◌, ◌<◌, length, get_or, []};
ghost use Rattle.std.specs.Int.{is_in_range};
ghost use Rattle.std.specs.Str.{str_eq_ignore_ascii_case};
ghost use Rattle.unit_text.specs.Figure.{digits_value};
ghost use Rattle.unit_text.specs.Month.{month_of, is_year_month, year_month, is_date, month_names, name_number, named_size, is_mark, is_named, named_month, day_first, one_or_two_digits, four_digits, of_parts, slashed_month, month_read, before_slash, behind_slash};

use crate::figure::{Reading, Unread, all_digits, digits_value, length_before};

const MONTHS: usize = 12;

// What at most four digits come to.
#[tactic(auto, using(crate::proofs::Values::value_small))]
fn small_value(text: &[u8]) -> u32
    requires { length text.now ≤ 4 }
    ensures value { result ≡ digits_value text.now }
    ensures within { result < 10000 }
{
    digits_value(text) as u32
}

fn month_of(year: u32, month: u32) -> Reading
    requires { year < 10000 }
    ensures { result ≡ month_of year month }
{
    if 1 <= month && month <= 12 {
        Ok(year * 12 + (month - 1))
    } else {
        Err(Unread::NotRead)
    }
}

#[tactic(auto, unfolding(crate::specs::Month::is_year_month), using(std::proofs::lemmas::Bool::Decides::nat_tests))]
fn is_year_month(text: &[u8]) -> bool
    ensures { result ≡ is_year_month text.now }
{
    text.len() == 7 && all_digits(&text[..4]) && text[4] == b'-' && all_digits(&text[5..])
}

fn year_month(text: &[u8]) -> Reading
    requires { length text.now ≡ 7 }
    ensures { result ≡ year_month text.now }
{
    month_of(small_value(&text[..4]), small_value(&text[5..]))
}

fn is_day(day: u32) -> bool
    ensures { result ≡ is_in_range 1 31 day }
{
    1 <= day && day <= 31
}

#[tactic(auto, unfolding(crate::specs::Month::is_date), using(std::proofs::lemmas::Bool::Decides::nat_tests))]
fn is_date(text: &[u8]) -> bool
    ensures { result ≡ is_date text.now }
{
    text.len() == 10
        && is_year_month(&text[..7])
        && text[7] == b'-'
        && all_digits(&text[8..])
        && is_day(small_value(&text[8..]))
}

// The three letters of a month, from 0 on.
#[tactic(auto, unfolding(crate::specs::Month::month_names))]
fn month_name(month: usize) -> &'static [u8]
    ensures { result.now ≡ get_or month_names month [] }
{
    match month {
        0 => b"jan",
        1 => b"feb",
        2 => b"mar",
        3 => b"apr",
        4 => b"may",
        5 => b"jun",
        6 => b"jul",
        7 => b"aug",
        8 => b"sep",
        9 => b"oct",
        10 => b"nov",
        11 => b"dec",
        _ => b"",
    }
}

fn is_month(month: usize, letters: &[u8]) -> bool
    ensures { result ≡ str_eq_ignore_ascii_case (get_or month_names month []) letters.now }
{
    month_name(month).eq_ignore_ascii_case(letters)
}

#[tactic(auto, using(crate::proofs::Scanning::word_on, crate::proofs::Scanning::word_end, crate::proofs::Scanning::twelve))]
fn name_number(letters: &[u8]) -> usize
    ensures value { result ≡ name_number letters.now }
    ensures within { result ≤ 12 }
{
    for month in 0..MONTHS {
        if is_month(month, letters) {
            return month;
        }
    }
    MONTHS
}

fn named_size(size: usize) -> bool
    ensures { result ≡ named_size size }
{
    size == 6 || size == 8
}

fn is_mark(byte: u8) -> bool
    ensures { result ≡ is_mark byte }
{
    byte == b'-' || byte == b' '
}

#[tactic(auto, unfolding(crate::specs::Month::is_named), using(crate::proofs::Values::named_size_is, std::proofs::lemmas::Bool::Decides::nat_tests))]
fn is_named(text: &[u8]) -> bool
    ensures { result ≡ is_named text.now }
{
    named_size(text.len())
        && is_mark(text[3])
        && all_digits(&text[4..])
        && name_number(&text[..3]) < MONTHS
}

fn named_month(text: &[u8]) -> Reading
    requires { (6 ≤ length text.now) × (length text.now ≤ 8) }
    ensures { result ≡ named_month text.now }
{
    let digits = small_value(&text[4..]);
    let year = if text.len() == 6 {
        2000 + digits
    } else {
        digits
    };
    let month = name_number(&text[..3]) as u32;
    Ok(year * 12 + month)
}

// "day first; one that could be read in two ways is refused with both". A month that a spreadsheet made a date has day 1.
fn day_first(day: u32, month: u32, year: u32) -> Reading
    requires { year < 10000 }
    ensures { result ≡ day_first day month year }
{
    if !is_day(day) || month < 1 || 12 < month {
        return Err(Unread::NotRead);
    }
    let first = year * 12 + (month - 1);
    if day == 1 || 12 < day || day == month {
        return Ok(first);
    }
    Err(Unread::EitherOf(first, year * 12 + (day - 1)))
}

fn one_or_two_digits(text: &[u8]) -> bool
    ensures { result ≡ one_or_two_digits text.now }
{
    1 <= text.len() && text.len() <= 2 && all_digits(text)
}

fn four_digits(text: &[u8]) -> bool
    ensures { result ≡ four_digits text.now }
{
    text.len() == 4 && all_digits(text)
}

fn of_parts(day: &[u8], month: &[u8], year: &[u8]) -> Reading
    ensures { result ≡ of_parts day.now month.now year.now }
{
    if one_or_two_digits(day) && one_or_two_digits(month) && four_digits(year) {
        day_first(small_value(day), small_value(month), small_value(year))
    } else {
        Err(Unread::NotRead)
    }
}

fn before_slash(text: &[u8]) -> &[u8]
    ensures { result.now ≡ before_slash text.now }
{
    &text[..length_before(text, b'/')]
}

fn behind_slash(text: &[u8]) -> &[u8]
    ensures { result.now ≡ behind_slash text.now }
{
    let before = length_before(text, b'/');
    if before == text.len() {
        &text[before..]
    } else {
        &text[before + 1..]
    }
}

#[tactic(auto, unfolding(crate::specs::Month::slashed_month))]
fn slashed_month(text: &[u8]) -> Reading
    ensures { result ≡ slashed_month text.now }
{
    let rest = behind_slash(text);
    of_parts(before_slash(text), before_slash(rest), behind_slash(rest))
}

/// The month that a text is.
#[tactic(auto, using(crate::proofs::Values::year_month_length, crate::proofs::Values::date_length, crate::proofs::Values::named_length))]
pub fn month_read(text: &[u8]) -> Reading
    ensures { result ≡ month_read text.now }
{
    if is_year_month(text) {
        return year_month(text);
    }
    if is_date(text) {
        return year_month(&text[..7]);
    }
    if is_named(text) {
        return named_month(text);
    }
    slashed_month(text)
}
