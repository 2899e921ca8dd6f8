// Figures without a unit's signs: digits, with a comma or a blank between thousands, and a point before the decimals.
ghost use Rattle.std.specs.Prelude.{◌≡◌, ◌≤◌, ◌^◌, length, min};
ghost use Rattle.std.specs.List.{position_or_len};
ghost use Rattle.std.specs.Str.{all_ascii_digits};
ghost use Rattle.unit_text.specs.Figure.{is, places, digits_value, is_grouped, is_whole, is_figure, past_all, bounded, figure_of};

use std::cmp::min;

/// Why a text is no value of a unit.
#[derive(Clone, Copy)]
pub enum Unread {
    NotRead,
    /// It has more decimals than the unit.
    Decimals,
    /// It is past 32 bits.
    PastAll,
    BelowZero,
    /// It could be either of two numbers.
    EitherOf(u32, u32),
}

/// A number of the unit's last decimal.
pub type Reading = Result<u32, Unread>;

// One past the highest number of 32 bits.
const PAST_ALL: u64 = 4_294_967_296;

/// How many bytes stand before the first such byte; all of them where there is none.
#[tactic(auto, using(crate::proofs::Scanning::before_on, crate::proofs::Scanning::before_end, std::proofs::lemmas::Bool::Decides::nat_tests))]
pub fn length_before(text: &[u8], byte: u8) -> usize
    ensures value { result ≡ position_or_len (is byte) text.now }
    ensures within { result ≤ length text.now }
{
    for (place, other) in text.iter().enumerate() {
        if *other == byte {
            return place;
        }
    }
    text.len()
}

#[tactic(auto, using(crate::proofs::Scanning::digits_on, crate::proofs::Scanning::digits_end, std::proofs::lemmas::Bool::Decides::nat_tests))]
pub fn all_digits(text: &[u8]) -> bool
    ensures { result ≡ all_ascii_digits text.now }
{
    for byte in text {
        if !byte.is_ascii_digit() {
            return false;
        }
    }
    true
}

/// What the digits come to, whatever stands between them; one past the highest number of 32 bits where it is past that.
#[tactic(auto, using(crate::proofs::Scanning::value_on, crate::proofs::Scanning::value_end, std::proofs::lemmas::Bool::Decides::nat_tests))]
pub fn digits_value(text: &[u8]) -> u64
    ensures { result ≡ min (digits_value text.now) past_all }
{
    let mut n: u64 = 0;
    for byte in text {
        if byte.is_ascii_digit() {
            n = min(n * 10 + u64::from(*byte - b'0'), PAST_ALL);
        }
    }
    n
}

// A separator before each three last digits, and no other.
#[tactic(auto, using(crate::proofs::Scanning::groups_on, crate::proofs::Scanning::groups_end, std::proofs::lemmas::Bool::Decides::nat_tests))]
fn is_grouped(text: &[u8], separator: u8) -> bool
    ensures { result ≡ is_grouped separator text.now }
{
    for (place, byte) in text.iter().enumerate() {
        let fits = if (text.len() - place) % 4 == 0 {
            *byte == separator
        } else {
            byte.is_ascii_digit()
        };
        if !fits {
            return false;
        }
    }
    true
}

// A whole number begins with a digit.
fn is_whole(text: &[u8]) -> bool
    ensures { result ≡ is_whole text.now }
{
    match text.first() {
        Some(first) => {
            first.is_ascii_digit()
                && (all_digits(text) || is_grouped(text, b',') || is_grouped(text, b' '))
        }
        None => false,
    }
}

// Whether a text has a figure's form, and how many decimals it has.
fn is_figure(text: &[u8]) -> bool
    ensures { result ≡ is_figure text.now }
{
    let before = length_before(text, b'.');
    if before == text.len() {
        return is_whole(text);
    }
    let decimals = &text[before + 1..];
    is_whole(&text[..before]) && !decimals.is_empty() && all_digits(decimals)
}

fn places(text: &[u8]) -> usize
    ensures { result ≡ places text.now }
{
    let before = length_before(text, b'.');
    if before == text.len() {
        0
    } else {
        text.len() - before - 1
    }
}

// A number that is at most one past all is that number, or past all.
fn bounded(n: u64) -> Reading
    ensures { result ≡ bounded n }
{
    if n < PAST_ALL {
        Ok(n as u32)
    } else {
        Err(Unread::PastAll)
    }
}

/// 10 to the power of the decimals that are left out.
pub fn scale(places: usize) -> u64
    requires { places ≤ 4 }
    ensures value { result ≡ 10 ^ places }
    ensures within { (1 ≤ result) × (result ≤ 10000) }
{
    match places {
        0 => 1,
        1 => 10,
        2 => 100,
        3 => 1000,
        _ => 10_000,
    }
}

/// The figure that a text is, as a number of the last of so many decimals.
#[tactic(auto, using(crate::proofs::Scanning::bounded_capped, std::proofs::lemmas::Bool::Decides::nat_tests))]
pub fn figure_of(decimals: usize, text: &[u8]) -> Reading
    requires { decimals ≤ 4 }
    ensures { result ≡ figure_of decimals text.now }
{
    if !is_figure(text) {
        return Err(Unread::NotRead);
    }
    let places = places(text);
    if decimals < places {
        return Err(Unread::Decimals);
    }
    bounded(digits_value(text) * scale(decimals - places))
}
