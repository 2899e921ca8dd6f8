// What is allowed for a value, and the notes that stand above a field's lines in a text.
ghost use Rattle.std.specs.Prelude.{◌≡◌, ◌+◌, ◌≤◌, ◌<◌, length};
ghost use Rattle.numbers.specs.Written.{written};
ghost use Rattle.text_output.specs.Pieces.{each};
ghost use Rattle.text_names.specs.Notes.{choice_text, from_to, where_text, only_text, sums_text, allowed_text, unit_front, decimals_back, row_note, described, names_text, note_line, over_note, form_note, field_notes};

use crate::names::row_name;
use crate::table::{Field, Kind, Limits, Over, row_at};
use text_output::{put, put_byte, put_decimal};
use unit_text::measure::{Measure, Words};
use unit_text::shown::{put_said, unit_decimals, unit_name};

const HIGHEST_OF_FOUR_BYTES: u32 = 0xFFFF_FFFF;

// Two or three words with 'or' before the last.
#[tactic(auto, using(text_output::proofs::Theorems::Written::pieces, std::proofs::lemmas::Bool::Decides::nat_tests))]
fn put_choice(out: &mut [u8], at: usize, words: Words) -> usize
    requires { at + length (choice_text words) ≤ length out.old }
    ensures place { result ≡ at + length (choice_text words) }
    ensures out_after { out.new ≡ written out.old at (choice_text words) }
{
    let first = put(out, at, words.word(0));
    if words.count() == 2 {
        let or = put(out, first, b" or ");
        return put(out, or, words.word(1));
    }
    let second = put(out, first, b", ");
    let behind = put(out, second, words.word(1));
    let or = put(out, behind, b" or ");
    put(out, or, words.word(2))
}

/// What is allowed from a lowest to a highest number, or the words of a choice.
#[tactic(auto, using(text_output::proofs::Theorems::Written::pieces), unfolding(crate::specs::Notes::from_to))]
pub fn put_from_to(out: &mut [u8], at: usize, measure: Measure, low: u32, high: u32) -> usize
    requires { at + length (from_to measure low high) ≤ length out.old }
    ensures place { result ≡ at + length (from_to measure low high) }
    ensures out_after { out.new ≡ written out.old at (from_to measure low high) }
{
    if let Measure::Choice(words) = measure {
        return put_choice(out, at, words);
    }
    let to = put_said(out, at, measure, low);
    let highest = put(out, to, b" to ");
    put_said(out, highest, measure, high)
}

// " where class is special pricing"
#[tactic(auto, using(text_output::proofs::Theorems::Written::pieces))]
fn put_where(out: &mut [u8], at: usize, kind: Kind, other: usize, word: u32) -> usize
    requires { at + length (where_text kind other word) ≤ length out.old }
    ensures place { result ≡ at + length (where_text kind other word) }
    ensures out_after { out.new ≡ written out.old at (where_text kind other word) }
{
    let name = put(out, at, b" where ");
    let is = put(out, name, row_name(kind, other));
    let number = put(out, is, b" is ");
    put_said(out, number, row_at(kind, other).measure, word)
}

#[tactic(auto, using(text_output::proofs::Theorems::Written::pieces), unfolding(crate::specs::Notes::only_text))]
fn put_only(
    out: &mut [u8],
    at: usize,
    kind: Kind,
    measure: Measure,
    high: u32,
    other: usize,
    word: u32,
) -> usize
    requires { at + length (only_text kind measure high other word) ≤ length out.old }
    ensures place { result ≡ at + length (only_text kind measure high other word) }
    ensures out_after { out.new ≡ written out.old at (only_text kind measure high other word) }
{
    let where_from = put_from_to(out, at, measure, 0, high);
    let otherwise = put_where(out, where_from, kind, other, word);
    let zero = put(out, otherwise, b", otherwise ");
    put_said(out, zero, measure, 0)
}

#[tactic(auto, using(text_output::proofs::Theorems::Written::pieces), unfolding(crate::specs::Notes::sums_text))]
fn put_sums(out: &mut [u8], at: usize, kind: Kind, measure: Measure, other: usize) -> usize
    requires { at + length (sums_text kind measure other) ≤ length out.old }
    ensures place { result ≡ at + length (sums_text kind measure other) }
    ensures out_after { out.new ≡ written out.old at (sums_text kind measure other) }
{
    let together = put_from_to(out, at, measure, 0, HIGHEST_OF_FOUR_BYTES);
    let name = put(out, together, b", together at most the ");
    let last = put(out, name, row_name(kind, other));
    put(out, last, b" together, which isn't 0")
}

/// What is allowed for a value, whatever the others of its file are.
#[tactic(auto, using(text_output::proofs::Theorems::Written::pieces), unfolding(crate::specs::Notes::allowed_text))]
pub fn put_allowed(out: &mut [u8], at: usize, kind: Kind, measure: Measure, limits: Limits) -> usize
    requires { at + length (allowed_text kind measure limits) ≤ length out.old }
    ensures place { result ≡ at + length (allowed_text kind measure limits) }
    ensures out_after { out.new ≡ written out.old at (allowed_text kind measure limits) }
{
    match limits {
        Limits::Within(low, high) => put_from_to(out, at, measure, low, high),
        Limits::UpTo(other) => {
            let to = put_said(out, at, measure, 0);
            let name = put(out, to, b" to the ");
            put(out, name, row_name(kind, other))
        }
        Limits::Rising(high) => {
            let above = put_from_to(out, at, measure, 0, high);
            put(out, above, b", above that of the zone before")
        }
        Limits::Only(high, other, word) => put_only(out, at, kind, measure, high, other, word),
        Limits::Sums(other) => put_sums(out, at, kind, measure, other),
    }
}

#[tactic(auto, using(text_output::proofs::Theorems::Written::pieces, text_output::proofs::Theorems::Written::written_nothing, std::proofs::lemmas::Bool::Decides::nat_tests))]
fn put_unit_front(out: &mut [u8], at: usize, measure: Measure) -> usize
    requires { at + length (unit_front measure) ≤ length out.old }
    ensures place { result ≡ at + length (unit_front measure) }
    ensures out_after { out.new ≡ written out.old at (unit_front measure) }
{
    let name = unit_name(measure);
    if name.len() == 0 {
        return at;
    }
    let comma = put(out, at, name);
    put(out, comma, b", ")
}

#[tactic(auto, using(text_output::proofs::Theorems::Written::pieces, text_output::proofs::Theorems::Written::written_nothing, std::proofs::lemmas::Bool::Decides::nat_tests))]
fn put_decimals_back(out: &mut [u8], at: usize, measure: Measure) -> usize
    requires { at + length (decimals_back measure) ≤ length out.old }
    ensures place { result ≡ at + length (decimals_back measure) }
    ensures out_after { out.new ≡ written out.old at (decimals_back measure) }
{
    let decimals = unit_decimals(measure);
    if decimals == 0 {
        return at;
    }
    let count = put(out, at, b", at most ");
    let last = put_decimal(out, count, decimals as u64);
    put(out, last, b" decimals")
}

// What else a text says of the values of a row.
fn row_note(kind: Kind, number: usize) -> &'static [u8]
    ensures { result.now ≡ row_note kind number }
{
    match kind {
        Kind::Book => b"",
        Kind::Request => {
            if number == 11 {
                return b", used in mode bespoke alone";
            }
            if number == 20 {
                return b", 0 for none";
            }
            b""
        }
    }
}

// A value's unit, what is allowed, its decimals and its note.
#[tactic(auto, using(text_output::proofs::Theorems::Written::pieces), unfolding(crate::specs::Notes::described))]
fn put_described(out: &mut [u8], at: usize, kind: Kind, number: usize) -> usize
    requires { at + length (described kind number) ≤ length out.old }
    ensures place { result ≡ at + length (described kind number) }
    ensures out_after { out.new ≡ written out.old at (described kind number) }
{
    let values = row_at(kind, number);
    let allowed = put_unit_front(out, at, values.measure);
    let decimals = put_allowed(out, allowed, kind, values.measure, values.limits);
    let note = put_decimals_back(out, decimals, values.measure);
    put(out, note, row_note(kind, number))
}

// The first of the rows that are described alike, and the last of them where there are more.
#[tactic(auto, using(text_output::proofs::Theorems::Written::pieces, std::proofs::lemmas::Bool::Decides::nat_tests), unfolding(crate::specs::Notes::names_text))]
fn put_names(out: &mut [u8], at: usize, kind: Kind, number: usize, alike: usize) -> usize
    requires { (number < 64) × (alike < 64) × (at + length (names_text kind number alike) ≤ length out.old) }
    ensures place { result ≡ at + length (names_text kind number alike) }
    ensures out_after { out.new ≡ written out.old at (names_text kind number alike) }
{
    let to = put(out, at, row_name(kind, number));
    if alike <= 1 {
        return to;
    }
    let last = put(out, to, b" to ");
    put(out, last, row_name(kind, number + alike - 1))
}

// One line for the rows that are alike; none for a row that the line of an earlier one speaks of.
#[tactic(auto, using(text_output::proofs::Theorems::Written::pieces, text_output::proofs::Theorems::Written::written_nothing, std::proofs::lemmas::Bool::Decides::nat_tests), unfolding(crate::specs::Notes::note_line))]
fn put_note_line(out: &mut [u8], at: usize, kind: Kind, number: usize) -> usize
    requires { (number < 64) × (at + length (note_line kind number) ≤ length out.old) }
    ensures place { result ≡ at + length (note_line kind number) }
    ensures out_after { out.new ≡ written out.old at (note_line kind number) }
{
    let alike = row_at(kind, number).alike;
    if alike == 0 {
        return at;
    }
    let names = put(out, at, b"# ");
    let colon = put_names(out, names, kind, number, alike);
    let what = put(out, colon, b": ");
    let end = put_described(out, what, kind, number);
    put_byte(out, end, b'\n')
}

fn over_note(over: Over) -> &'static [u8]
    ensures { result.now ≡ over_note over }
{
    match over {
        Over::Years => b"# up to year 7; the last given holds for all later years\n",
        Over::Zones => b"# up to the eighth zone\n",
        Over::Nothing | Over::Pairs | Over::Tiers => b"",
    }
}

#[tactic(auto, using(std::proofs::lemmas::Bool::Decides::nat_tests))]
fn form_note(field: &Field) -> &'static [u8]
    ensures { result.now ≡ form_note field.now }
{
    if field.wide_tag == field.tag {
        return b"";
    }
    b"# zone number bytes: 1 or 2, may be left out: then 1 where every zone number is at most 255, otherwise 2\n"
}

// The notes of a field's rows.
#[tactic(auto, using(text_output::proofs::Theorems::Pieces::writes_none, text_output::proofs::Theorems::Pieces::writes_on, text_output::proofs::Theorems::Pieces::writes_all))]
fn put_row_notes(out: &mut [u8], at: usize, kind: Kind, first: usize, rows: usize) -> usize
    requires { (first + rows ≤ 64) × (at + length (each (note_line kind) rows first) ≤ length out.old) }
    ensures place { result ≡ at + length (each (note_line kind) rows first) }
    ensures out_after { out.new ≡ written out.old at (each (note_line kind) rows first) }
{
    let mut next = at;
    for row in 0..rows {
        next = put_note_line(out, next, kind, first + row);
    }
    next
}

/// The notes above a field's lines: one for the rows that are alike, then what the values are repeated over, and the form of a file with zone numbers.
#[tactic(auto, using(text_output::proofs::Theorems::Written::pieces), unfolding(crate::specs::Notes::field_notes))]
pub fn put_field_notes(out: &mut [u8], at: usize, kind: Kind, field: &Field) -> usize
    requires { (field.now.first + field.now.rows ≤ 64) × (at + length (field_notes kind field.now) ≤ length out.old) }
    ensures place { result ≡ at + length (field_notes kind field.now) }
    ensures out_after { out.new ≡ written out.old at (field_notes kind field.now) }
{
    let over = put_row_notes(out, at, kind, field.first, field.rows);
    let form = put(out, over, over_note(field.over));
    put(out, form, form_note(field))
}
