// The text of a file's fields: a name and its value on each line, with notes of units and limits above those of each field.
ghost use Rattle.std.specs.Prelude.{◌≡◌, ◌+◌, ◌≤◌, ◌<◌, length};
ghost use Rattle.numbers.specs.Written.{written};
ghost use Rattle.text_output.specs.Pieces.{each};
ghost use Rattle.text_shown.specs.Values.{is_wide};
ghost use Rattle.text_shown.specs.Lines.{value_line, round_lines, all_small, form_line, field_text, head_text, file_text};

use crate::values::{has_two_bytes, is_wide, rounds, value_number};
use text_names::names::{kind_name, put_value_name};
use text_names::notes::put_field_notes;
use text_names::table::{Field, Kind, field_at, field_count, row_at};
use text_output::{put, put_byte};
use unit_text::shown::put_shown;

// The line of a row in a round.
#[tactic(auto, using(text_output::proofs::Theorems::Written::pieces), unfolding(crate::specs::Lines::value_line))]
fn put_value_line(
    out: &mut [u8],
    at: usize,
    kind: Kind,
    field: Field,
    wide: bool,
    fields: &[u8],
    round: usize,
    number: usize,
) -> usize
    requires { (field.size ≤ 64) × (round < 8) × (at + length (value_line kind field wide fields.now round number) ≤ length out.old) }
    ensures place { result ≡ at + length (value_line kind field wide fields.now round number) }
    ensures out_after { out.new ≡ written out.old at (value_line kind field wide fields.now round number) }
{
    let n = value_number(kind, field, wide, fields, round, number);
    let comma = put_value_name(out, at, kind, field.over, number, round);
    let value = put_byte(out, comma, b',');
    let end = put_shown(out, value, row_at(kind, number).measure, n);
    put_byte(out, end, b'\n')
}

// Those of a round, row by row.
#[tactic(auto, using(text_output::proofs::Theorems::Pieces::writes_none, text_output::proofs::Theorems::Pieces::writes_all), unfolding(crate::specs::Lines::round_lines))]
fn put_round(
    out: &mut [u8],
    at: usize,
    kind: Kind,
    field: Field,
    wide: bool,
    fields: &[u8],
    round: usize,
) -> usize
    requires { (field.size ≤ 64) × (field.first + field.rows ≤ 22) × (round < 8) × (at + length (round_lines kind field wide fields.now round) ≤ length out.old) }
    ensures place { result ≡ at + length (round_lines kind field wide fields.now round) }
    ensures out_after { out.new ≡ written out.old at (round_lines kind field wide fields.now round) }
{
    let mut next = at;
    for row in 0..field.rows {
        next = put_value_line(
            out,
            next,
            kind,
            field,
            wide,
            fields,
            round,
            field.first + row,
        );
    }
    next
}

// All rounds of a field.
#[tactic(auto, using(text_output::proofs::Theorems::Pieces::writes_none, text_output::proofs::Theorems::Pieces::writes_all))]
fn put_rounds(
    out: &mut [u8],
    at: usize,
    kind: Kind,
    field: Field,
    wide: bool,
    fields: &[u8],
    count: usize,
) -> usize
    requires { (field.size ≤ 64) × (field.first + field.rows ≤ 22) × (count ≤ 8) × (at + length (each (round_lines kind field wide fields.now) count 0) ≤ length out.old) }
    ensures place { result ≡ at + length (each (round_lines kind field wide fields.now) count 0) }
    ensures out_after { out.new ≡ written out.old at (each (round_lines kind field wide fields.now) count 0) }
{
    let mut next = at;
    for round in 0..count {
        next = put_round(out, next, kind, field, wide, fields, round);
    }
    next
}

// Whether the first value of each round has at most one byte.
#[tactic(auto, using(crate::proofs::Small::small_on, crate::proofs::Small::small_end, crate::proofs::Small::small_start, std::proofs::lemmas::Bool::Decides::nat_tests))]
fn all_small(kind: Kind, field: Field, wide: bool, fields: &[u8], count: usize) -> bool
    requires { (field.size ≤ 64) × (count ≤ 8) }
    ensures { result ≡ all_small kind field wide fields.now count 0 }
{
    for round in 0..count {
        if 255 < value_number(kind, field, wide, fields, round, field.first) {
            return false;
        }
    }
    true
}

// The form of the file, where its values would have another.
#[tactic(auto, unfolding(crate::specs::Lines::form_line))]
fn form_line(kind: Kind, field: Field, wide: bool, fields: &[u8]) -> &'static [u8]
    requires { field.size ≤ 64 }
    ensures { result.now ≡ form_line kind field wide fields.now }
{
    if has_two_bytes(wide, field)
        && all_small(kind, field, wide, fields, rounds(wide, field, fields))
    {
        return b"zone number bytes,2\n";
    }
    b""
}

// The notes and the lines of a field.
#[tactic(auto, using(text_output::proofs::Theorems::Written::pieces), unfolding(crate::specs::Lines::field_text))]
fn put_field(
    out: &mut [u8],
    at: usize,
    kind: Kind,
    wide: bool,
    fields: &[u8],
    number: usize,
) -> usize
    requires { at + length (field_text kind wide fields.now number) ≤ length out.old }
    ensures place { result ≡ at + length (field_text kind wide fields.now number) }
    ensures out_after { out.new ≡ written out.old at (field_text kind wide fields.now number) }
{
    let field = field_at(kind, number);
    let form = put_field_notes(out, at, kind, &field);
    let lines = put(out, form, form_line(kind, field, wide, fields));
    put_rounds(
        out,
        lines,
        kind,
        field,
        wide,
        fields,
        rounds(wide, field, fields),
    )
}

// All fields.
#[tactic(auto, using(text_output::proofs::Theorems::Pieces::writes_none, text_output::proofs::Theorems::Pieces::writes_all))]
fn put_fields(
    out: &mut [u8],
    at: usize,
    kind: Kind,
    wide: bool,
    fields: &[u8],
    count: usize,
) -> usize
    requires { at + length (each (field_text kind wide fields.now) count 0) ≤ length out.old }
    ensures place { result ≡ at + length (each (field_text kind wide fields.now) count 0) }
    ensures out_after { out.new ≡ written out.old at (each (field_text kind wide fields.now) count 0) }
{
    let mut next = at;
    for number in 0..count {
        next = put_field(out, next, kind, wide, fields, number);
    }
    next
}

#[tactic(auto, using(text_output::proofs::Theorems::Written::pieces), unfolding(crate::specs::Lines::head_text))]
fn put_head(out: &mut [u8], at: usize, kind: Kind) -> usize
    requires { at + length (head_text kind) ≤ length out.old }
    ensures place { result ≡ at + length (head_text kind) }
    ensures out_after { out.new ≡ written out.old at (head_text kind) }
{
    let name = put(out, at, b"# A ");
    let colon = put(out, name, kind_name(kind));
    let said = put(out, colon, b": a name and its value on each line.\nfile,");
    let end = put(out, said, kind_name(kind));
    put_byte(out, end, b'\n')
}

/// The text of a file's fields.
#[tactic(auto, using(text_output::proofs::Theorems::Written::pieces), unfolding(crate::specs::Lines::file_text))]
pub fn put_file_text(out: &mut [u8], at: usize, kind: Kind, fields: &[u8]) -> usize
    requires { at + length (file_text kind fields.now) ≤ length out.old }
    ensures place { result ≡ at + length (file_text kind fields.now) }
    ensures out_after { out.new ≡ written out.old at (file_text kind fields.now) }
{
    let first = put_head(out, at, kind);
    put_fields(
        out,
        first,
        kind,
        is_wide(kind, fields),
        fields,
        field_count(kind),
    )
}
