// What a value is called, its unit, lowest and highest, its words and what it is repeated over, for whoever makes a form.
ghost use Rattle.std.specs.Prelude.{◌≡◌, ◌+◌, ◌≤◌, length};
ghost use Rattle.numbers.specs.Written.{written};
ghost use Rattle.text_names.specs.Table.{fields};
ghost use Rattle.text_shown.specs.Described.{lowest_of, highest_of, words_text, over_text, over_in, heads_text, ends_text, tails_text, described_text, row_text, row_written, row_output};

use crate::show::TextWritten;
use field_values::limits::HIGHEST_MINIMUM;
use tagged::file::Refusal;
use tagged::refusals::OUTPUT_TOO_SHORT;
use text_names::names::row_name;
use text_names::table::{Kind, Limits, Over, field_at, field_count, row_at};
use text_output::{put, put_byte};
use unit_text::measure::{Measure, Words};
use unit_text::shown::{put_shown, unit_name};

/// No row's text is longer.
pub const LONGEST_ROW: usize = 256;

const HIGHEST_OF_FOUR_BYTES: u32 = 0xFFFF_FFFF;

fn lowest_of(limits: Limits) -> u32
    ensures { result ≡ lowest_of limits }
{
    match limits {
        Limits::Within(low, _) => low,
        Limits::UpTo(_) | Limits::Rising(_) | Limits::Only(_, _, _) | Limits::Sums(_) => 0,
    }
}

fn highest_of(limits: Limits) -> u32
    ensures { result ≡ highest_of limits }
{
    match limits {
        Limits::Within(_, high) | Limits::Rising(high) | Limits::Only(high, _, _) => high,
        Limits::UpTo(_) => HIGHEST_MINIMUM,
        Limits::Sums(_) => HIGHEST_OF_FOUR_BYTES,
    }
}

fn over_text(over: Over) -> &'static [u8]
    ensures { result.now ≡ over_text over }
{
    match over {
        Over::Nothing => b"nothing",
        Over::Pairs => b"pairs",
        Over::Tiers => b"tiers",
        Over::Years => b"years",
        Over::Zones => b"zones",
    }
}

// What the values of the field are repeated over that a row is of.
#[tactic(auto, using(crate::proofs::Rows::over_on, crate::proofs::Rows::over_end, std::proofs::lemmas::Bool::Decides::nat_tests))]
fn over_of(kind: Kind, number: usize) -> Over
    ensures { result ≡ over_in (fields kind) number }
{
    for place in 0..field_count(kind) {
        let field = field_at(kind, place);
        if number < field.first + field.rows {
            return field.over;
        }
    }
    Over::Nothing
}

#[tactic(auto, using(text_output::proofs::Theorems::Written::pieces, std::proofs::lemmas::Bool::Decides::nat_tests))]
fn put_choice(out: &mut [u8], at: usize, words: Words) -> usize
    requires { at + length (words_text (Measure.Choice words)) ≤ length out.old }
    ensures place { result ≡ at + length (words_text (Measure.Choice words)) }
    ensures out_after { out.new ≡ written out.old at (words_text (Measure.Choice words)) }
{
    let first = put(out, at, words.word(0));
    let second = put(out, first, b",");
    let behind = put(out, second, words.word(1));
    if words.count() == 2 {
        return behind;
    }
    let third = put(out, behind, b",");
    put(out, third, words.word(2))
}

#[tactic(auto, using(text_output::proofs::Theorems::Written::written_nothing))]
fn put_words(out: &mut [u8], at: usize, measure: Measure) -> usize
    requires { at + length (words_text measure) ≤ length out.old }
    ensures place { result ≡ at + length (words_text measure) }
    ensures out_after { out.new ≡ written out.old at (words_text measure) }
{
    match measure {
        Measure::Choice(words) => put_choice(out, at, words),
        Measure::Number
        | Measure::Dollars
        | Measure::DollarsPerKva
        | Measure::ThousandDollars
        | Measure::Kva
        | Measure::Percent
        | Measure::Factor
        | Measure::Month => at,
    }
}

// Its name and its unit, a line each.
#[tactic(auto, using(text_output::proofs::Theorems::Written::pieces))]
fn put_heads(out: &mut [u8], at: usize, name: &[u8], unit: &[u8]) -> usize
    requires { at + length (heads_text name.now unit.now) ≤ length out.old }
    ensures place { result ≡ at + length (heads_text name.now unit.now) }
    ensures out_after { out.new ≡ written out.old at (heads_text name.now unit.now) }
{
    let end = put(out, at, name);
    let second = put_byte(out, end, b'\n');
    let last = put(out, second, unit);
    put_byte(out, last, b'\n')
}

// The lowest and the highest.
#[tactic(auto, using(text_output::proofs::Theorems::Written::pieces))]
fn put_ends(out: &mut [u8], at: usize, measure: Measure, limits: Limits) -> usize
    requires { at + length (ends_text measure limits) ≤ length out.old }
    ensures place { result ≡ at + length (ends_text measure limits) }
    ensures out_after { out.new ≡ written out.old at (ends_text measure limits) }
{
    let end = put_shown(out, at, measure, lowest_of(limits));
    let second = put_byte(out, end, b'\n');
    let last = put_shown(out, second, measure, highest_of(limits));
    put_byte(out, last, b'\n')
}

// The words, and what the value is repeated over.
#[tactic(auto, using(text_output::proofs::Theorems::Written::pieces))]
fn put_tails(out: &mut [u8], at: usize, measure: Measure, over: Over) -> usize
    requires { at + length (tails_text measure over) ≤ length out.old }
    ensures place { result ≡ at + length (tails_text measure over) }
    ensures out_after { out.new ≡ written out.old at (tails_text measure over) }
{
    let end = put_words(out, at, measure);
    let second = put_byte(out, end, b'\n');
    let last = put(out, second, over_text(over));
    put_byte(out, last, b'\n')
}

#[tactic(auto, using(text_output::proofs::Theorems::Written::pieces), unfolding(crate::specs::Described::described_text))]
fn put_described(out: &mut [u8], at: usize, kind: Kind, number: usize) -> usize
    requires { at + length (described_text kind number) ≤ length out.old }
    ensures place { result ≡ at + length (described_text kind number) }
    ensures out_after { out.new ≡ written out.old at (described_text kind number) }
{
    let values = row_at(kind, number);
    let ends = put_heads(out, at, row_name(kind, number), unit_name(values.measure));
    let tails = put_ends(out, ends, values.measure, values.limits);
    put_tails(out, tails, values.measure, over_of(kind, number))
}

#[tactic(auto, using(text_output::proofs::Theorems::Written::written_nothing, std::proofs::lemmas::Bool::Decides::nat_tests), unfolding(crate::specs::Described::row_text))]
fn put_row(out: &mut [u8], at: usize, kind: Kind, number: usize) -> usize
    requires { at + length (row_text kind number) ≤ length out.old }
    ensures place { result ≡ at + length (row_text kind number) }
    ensures out_after { out.new ≡ written out.old at (row_text kind number) }
{
    if row_name(kind, number).len() == 0 {
        return at;
    }
    put_described(out, at, kind, number)
}

/// The values of a row on six lines, at the start of a lent output: name, unit, lowest, highest, words with commas between them, what they are repeated over; their length,
/// which is 0 past the last row. 14 where the output is shorter than any row's text, and the output as it was.
#[tactic(auto, using(crate::proofs::Rows::row_short, crate::proofs::Longest::written_first))]
pub fn describe(kind: Kind, number: usize, out: &mut [u8]) -> TextWritten
    ensures value { result ≡ row_written kind number out.old }
    ensures out_after { out.new ≡ row_output kind number out.old }
{
    if out.len() < LONGEST_ROW {
        return Err(Refusal::of_call(OUTPUT_TOO_SHORT));
    }
    Ok(put_row(out, 0, kind, number))
}
