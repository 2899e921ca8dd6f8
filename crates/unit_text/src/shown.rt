// A number as a text has it.
ghost use Rattle.std.specs.Prelude.{◌≡◌, ◌+◌, ◌<◌, ◌≤◌, length};
ghost use Rattle.numbers.specs.Written.{written};
ghost use Rattle.unit_text.specs.Shown.{pointed, percent_text, month_text, shown, said_pointed, said, unit_decimals, unit_name};

use crate::measure::Measure;
use text_output::{put, put_byte, put_decimal, put_grouped, put_last_digits};

// A number of the last of two decimals, or of four.
#[tactic(auto, using(text_output::proofs::Theorems::Written::written_behind, text_output::proofs::Theorems::Digits::last_digits_length, crate::proofs::Showing::pointed_length))]
fn put_pointed(out: &mut [u8], at: usize, decimals: usize, n: u32) -> usize
    requires { (decimals ≤ 4) × (at + length (pointed decimals n) ≤ length out.old) }
    ensures place { result ≡ at + length (pointed decimals n) }
    ensures out_after { out.new ≡ written out.old at (pointed decimals n) }
{
    let n = u64::from(n);
    let point = put_decimal(out, at, n / crate::figure::scale(decimals));
    let decimals_from = put_byte(out, point, b'.');
    put_last_digits(out, decimals_from, decimals, n)
}

// A percentage above 0 and below 1 has its sign: without it, it could be a fraction of 1.
#[tactic(auto, using(text_output::proofs::Theorems::Written::written_behind, crate::proofs::Showing::percent_length, std::proofs::lemmas::Bool::Decides::nat_tests))]
fn put_percent(out: &mut [u8], at: usize, n: u32) -> usize
    requires { at + length (percent_text n) ≤ length out.old }
    ensures place { result ≡ at + length (percent_text n) }
    ensures out_after { out.new ≡ written out.old at (percent_text n) }
{
    if 0 < n && n < 100 {
        let sign = put_pointed(out, at, 2, n);
        return put_byte(out, sign, b'%');
    }
    put_pointed(out, at, 2, n)
}

// Its year and its number in it.
#[tactic(auto, using(text_output::proofs::Theorems::Written::written_behind, text_output::proofs::Theorems::Digits::last_digits_length, crate::proofs::Showing::month_length))]
fn put_month(out: &mut [u8], at: usize, n: u32) -> usize
    requires { at + length (month_text n) ≤ length out.old }
    ensures place { result ≡ at + length (month_text n) }
    ensures out_after { out.new ≡ written out.old at (month_text n) }
{
    let n = u64::from(n);
    let mark = put_last_digits(out, at, 4, n / 12);
    let month = put_byte(out, mark, b'-');
    put_last_digits(out, month, 2, n % 12 + 1)
}

/// A number of a unit, as `read` reads it; of a choice that there isn't, nothing.
pub fn put_shown(out: &mut [u8], at: usize, measure: Measure, n: u32) -> usize
    requires { at + length (shown measure n) ≤ length out.old }
    ensures place { result ≡ at + length (shown measure n) }
    ensures out_after { out.new ≡ written out.old at (shown measure n) }
{
    match measure {
        Measure::Number | Measure::ThousandDollars => put_decimal(out, at, u64::from(n)),
        Measure::Dollars | Measure::DollarsPerKva | Measure::Kva => put_pointed(out, at, 2, n),
        Measure::Percent => put_percent(out, at, n),
        Measure::Factor => put_pointed(out, at, 4, n),
        Measure::Month => put_month(out, at, n),
        Measure::Choice(words) => put(out, at, words.word(n as usize)),
    }
}

#[tactic(auto, using(text_output::proofs::Theorems::Written::written_behind, text_output::proofs::Theorems::Digits::last_digits_length, crate::proofs::Showing::said_length))]
fn put_said_pointed(out: &mut [u8], at: usize, decimals: usize, n: u32) -> usize
    requires { (decimals ≤ 4) × (at + length (said_pointed decimals n) ≤ length out.old) }
    ensures place { result ≡ at + length (said_pointed decimals n) }
    ensures out_after { out.new ≡ written out.old at (said_pointed decimals n) }
{
    let n = u64::from(n);
    let point = put_grouped(out, at, n / crate::figure::scale(decimals));
    let decimals_from = put_byte(out, point, b'.');
    put_last_digits(out, decimals_from, decimals, n)
}

/// A number of a unit as a sentence has it: where there are decimals, with a comma between thousands.
pub fn put_said(out: &mut [u8], at: usize, measure: Measure, n: u32) -> usize
    requires { at + length (said measure n) ≤ length out.old }
    ensures place { result ≡ at + length (said measure n) }
    ensures out_after { out.new ≡ written out.old at (said measure n) }
{
    match measure {
        Measure::Number | Measure::ThousandDollars => put_decimal(out, at, u64::from(n)),
        Measure::Dollars | Measure::DollarsPerKva | Measure::Kva | Measure::Percent => {
            put_said_pointed(out, at, 2, n)
        }
        Measure::Factor => put_said_pointed(out, at, 4, n),
        Measure::Month => put_month(out, at, n),
        Measure::Choice(words) => put(out, at, words.word(n as usize)),
    }
}

/// How many decimals a unit has.
pub fn unit_decimals(measure: Measure) -> usize
    ensures { result ≡ unit_decimals measure }
{
    match measure {
        Measure::Dollars | Measure::DollarsPerKva | Measure::Kva | Measure::Percent => 2,
        Measure::Factor => 4,
        Measure::Number | Measure::ThousandDollars | Measure::Month | Measure::Choice(_) => 0,
    }
}

/// Its name behind a number; no bytes where it has none.
pub fn unit_name(measure: Measure) -> &'static [u8]
    ensures { result.now ≡ unit_name measure }
{
    match measure {
        Measure::Dollars => b"dollars",
        Measure::DollarsPerKva => b"dollars per kVA",
        Measure::ThousandDollars => b"thousand dollars",
        Measure::Kva => b"kVA",
        Measure::Percent => b"percent",
        Measure::Number | Measure::Factor | Measure::Month | Measure::Choice(_) => b"",
    }
}
