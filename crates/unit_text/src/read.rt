// A text as a number of a unit, with the signs and the habits of spreadsheets.
ghost use Rattle.std.specs.Prelude.{◌≡◌, ◌≤◌, ◌<◌, length, get_or, [], true};
ghost use Rattle.std.specs.Str.{str_eq_ignore_ascii_case};
ghost use Rattle.unit_text.specs.Measure.{spellings, word_number};
ghost use Rattle.unit_text.specs.Read.{trimmed, first_is, last_is, without_first, without_last, negative, unsigned, signed, is_dash, money_read, ends_in_kva, kva_read, not_a_fraction, percent_read, factor_read, choice_read, read};

use crate::figure::{Reading, Unread, figure_of};
use crate::measure::{Measure, Words};
use crate::months::month_read;

/// Without the white space about it.
pub fn trimmed(text: &[u8]) -> &[u8]
    ensures value { result.now ≡ trimmed text.now }
    ensures within { length result.now ≤ length text.now }
{
    text.trim_ascii()
}

fn first_is(text: &[u8], byte: u8) -> bool
    requires { 0 < byte }
    ensures { result ≡ first_is byte text.now }
{
    !text.is_empty() && text[0] == byte
}

fn last_is(text: &[u8], byte: u8) -> bool
    requires { 0 < byte }
    ensures { result ≡ last_is byte text.now }
{
    !text.is_empty() && text[text.len() - 1] == byte
}

fn without_first(text: &[u8]) -> &[u8]
    ensures { result.now ≡ without_first text.now }
{
    if text.is_empty() {
        trimmed(text)
    } else {
        trimmed(&text[1..])
    }
}

fn without_last(text: &[u8]) -> &[u8]
    ensures { result.now ≡ without_last text.now }
{
    if text.is_empty() {
        trimmed(text)
    } else {
        trimmed(&text[..text.len() - 1])
    }
}

// No value is below 0: of the figures behind a minus or in brackets 0 alone is read.
fn negative(reading: Reading) -> Reading
    ensures { result ≡ negative reading }
{
    match reading {
        Ok(0) => Ok(0),
        Ok(_) => Err(Unread::BelowZero),
        Err(unread) => Err(unread),
    }
}

// A figure, of money with a dollar sign before it or none.
fn unsigned(money: bool, decimals: usize, text: &[u8]) -> Reading
    requires { decimals ≤ 4 }
    ensures { result ≡ unsigned money decimals text.now }
{
    if money && first_is(text, b'$') {
        return figure_of(decimals, without_first(text));
    }
    figure_of(decimals, text)
}

fn signed(money: bool, decimals: usize, text: &[u8]) -> Reading
    requires { decimals ≤ 4 }
    ensures { result ≡ signed money decimals text.now }
{
    if first_is(text, b'-') {
        return negative(unsigned(money, decimals, without_first(text)));
    }
    if first_is(text, b'(') && last_is(text, b')') {
        return negative(unsigned(money, decimals, without_last(&text[1..])));
    }
    unsigned(money, decimals, text)
}

fn is_dash(text: &[u8]) -> bool
    ensures { result ≡ is_dash text.now }
{
    text.len() == 1 && first_is(text, b'-')
}

fn money_read(text: &[u8]) -> Reading
    ensures { result ≡ money_read text.now }
{
    if first_is(text, b'$') && is_dash(without_first(text)) {
        return Ok(0);
    }
    signed(true, 2, text)
}

fn ends_in_kva(text: &[u8]) -> bool
    ensures value { result ≡ ends_in_kva text.now }
    ensures long { result ≡ true → 3 ≤ length text.now }
{
    3 <= text.len() && text[text.len() - 3..].eq_ignore_ascii_case(b"kva")
}

fn kva_read(text: &[u8]) -> Reading
    ensures { result ≡ kva_read text.now }
{
    if ends_in_kva(text) {
        return signed(false, 2, trimmed(&text[..text.len() - 3]));
    }
    signed(false, 2, text)
}

// A percentage below 1 that isn't 0 could be a fraction of 1.
fn not_a_fraction(reading: Reading) -> Reading
    ensures { result ≡ not_a_fraction reading }
{
    match reading {
        Ok(n) => {
            if 0 < n && n < 100 {
                Err(Unread::EitherOf(n, n * 100))
            } else {
                Ok(n)
            }
        }
        Err(unread) => Err(unread),
    }
}

fn percent_read(text: &[u8]) -> Reading
    ensures { result ≡ percent_read text.now }
{
    if last_is(text, b'%') {
        return signed(false, 2, without_last(text));
    }
    not_a_fraction(signed(false, 2, text))
}

fn factor_read(text: &[u8]) -> Reading
    ensures { result ≡ factor_read text.now }
{
    if last_is(text, b'%') {
        return signed(false, 2, without_last(text));
    }
    signed(false, 4, text)
}

fn is_spelling(words: Words, place: usize, text: &[u8]) -> bool
    ensures { result ≡ str_eq_ignore_ascii_case (get_or (spellings words) place []) text.now }
{
    words.spelling(place).eq_ignore_ascii_case(text)
}

#[tactic(auto, using(crate::proofs::Scanning::word_on, crate::proofs::Scanning::word_end))]
fn spelling_number(words: Words, text: &[u8]) -> usize
    ensures value { result ≡ word_number (spellings words) text.now }
    ensures within { result ≤ length (spellings words) }
{
    let count = words.spelling_count();
    for place in 0..count {
        if is_spelling(words, place, text) {
            return place;
        }
    }
    count
}

#[tactic(auto, using(crate::proofs::Trimming::few_spellings))]
fn choice_read(words: Words, text: &[u8]) -> Reading
    ensures { result ≡ choice_read words text.now }
{
    let place = spelling_number(words, text);
    if place < words.spelling_count() {
        return Ok((place % words.count()) as u32);
    }
    Err(Unread::NotRead)
}

/// The number of a unit that a text says, or why it says none.
pub fn read(measure: Measure, text: &[u8]) -> Reading
    ensures { result ≡ read measure text.now }
{
    match measure {
        Measure::Number | Measure::ThousandDollars => signed(false, 0, text),
        Measure::Dollars | Measure::DollarsPerKva => money_read(text),
        Measure::Kva => kva_read(text),
        Measure::Percent => percent_read(text),
        Measure::Factor => factor_read(text),
        Measure::Month => month_read(text),
        Measure::Choice(words) => choice_read(words, text),
    }
}
