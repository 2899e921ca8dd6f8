// Where the values of a file's fields stand, by the table. Of fields that don't stand there, what can be found is found.
ghost use Rattle.std.specs.Prelude.{◌≡◌, ◌+◌, ◌-◌, ◌≤◌, ◌<◌, ◌⊎◌, length};
ghost use Rattle.text_shown.specs.Values.{wide_tag, is_wide, has_two_bytes, tag_in, size_in, width_in, place_in, step_in, start_in, rounds, number_in, value_number};

use numbers::big_endian::BigEndian;
use std::cmp::min;
use tagged::find::{find, place_of, start_of};
use text_names::table::{Field, Kind, Over, Row, row_at};

/// Whether zone numbers have two bytes.
pub fn is_wide(kind: Kind, fields: &[u8]) -> bool
    ensures { result ≡ is_wide kind fields.now }
{
    let tag = match kind {
        Kind::Book => 9,
        Kind::Request => 13,
    };
    place_of(fields, tag).is_some()
}

/// Whether a field has a zone number of two bytes.
pub fn has_two_bytes(wide: bool, field: Field) -> bool
    ensures { result ≡ has_two_bytes wide field }
{
    wide && field.wide_tag != field.tag
}

/// The tag of a field in files of a form.
pub fn tag_in(wide: bool, field: Field) -> u8
    ensures { result ≡ tag_in wide field }
{
    if wide { field.wide_tag } else { field.tag }
}

/// The bytes of a field's values, once each.
pub fn size_in(wide: bool, field: Field) -> usize
    requires { field.size ≤ 64 }
    ensures { result ≡ size_in wide field }
{
    if has_two_bytes(wide, field) {
        field.size + 1
    } else {
        field.size
    }
}

fn width_in(wide: bool, field: Field, values: Row) -> usize
    ensures value { result ≡ width_in wide field values }
    ensures known { (result ≡ 2) ⊎ (result ≡ values.width) }
{
    if has_two_bytes(wide, field) && values.place == 0 {
        return 2;
    }
    values.width
}

fn place_in(wide: bool, field: Field, values: Row) -> usize
    requires { values.place ≤ 64 }
    ensures value { result ≡ place_in wide field values }
    ensures within { result ≤ 65 }
{
    if has_two_bytes(wide, field) && 0 < values.place {
        return values.place + 1;
    }
    values.place
}

fn step_in(wide: bool, field: Field) -> usize
    requires { field.size ≤ 64 }
    ensures value { result ≡ step_in wide field field.over }
    ensures within { result ≤ 68 }
{
    match field.over {
        Over::Zones => size_in(wide, field) + 3,
        Over::Nothing | Over::Pairs | Over::Tiers | Over::Years => size_in(wide, field),
    }
}

fn start_in(wide: bool, field: Field, fields: &[u8]) -> usize
    ensures value { result ≡ start_in wide field fields.now }
    ensures within { result ≤ length fields.now }
{
    start_of(place_of(fields, tag_in(wide, field)))
}

/// How often the values of a field stand, at most eight times.
#[tactic(auto, unfolding(crate::specs::Values::rounds))]
pub fn rounds(wide: bool, field: Field, fields: &[u8]) -> usize
    requires { field.size ≤ 64 }
    ensures value { result ≡ rounds wide field fields.now }
    ensures within { result ≤ 8 }
{
    match field.over {
        Over::Nothing => 1,
        Over::Pairs | Over::Tiers => 5,
        Over::Years => min(8, find(fields, tag_in(wide, field)).len() / 2),
        Over::Zones => {
            let behind = fields.len() + 3 - start_in(wide, field, fields);
            min(8, behind / (size_in(wide, field) + 3))
        }
    }
}

fn bytes_from(fields: &[u8], at: usize) -> usize
    ensures { result ≡ length fields.now - at }
{
    if fields.len() < at {
        0
    } else {
        fields.len() - at
    }
}

// A number of so many bytes at an offset; 0 where the bytes aren't there.
#[tactic(auto, unfolding(crate::specs::Values::number_in), using(crate::proofs::Numbers::none_in, std::proofs::lemmas::Bool::Decides::nat_tests))]
fn number_in(fields: &[u8], at: usize, width: usize) -> u32
    requires { (width ≡ 0) ⊎ ((width ≡ 1) ⊎ ((width ≡ 2) ⊎ (width ≡ 4))) }
    ensures { result ≡ number_in fields.now at width }
{
    if bytes_from(fields, at) < width {
        return 0;
    }
    match width {
        0 => 0,
        1 => u32::from(u8::read(fields, at)),
        2 => u32::from(u16::read(fields, at)),
        _ => u32::read(fields, at),
    }
}

/// The number that the value of a row has in a round.
#[tactic(auto, unfolding(crate::specs::Values::value_number))]
pub fn value_number(
    kind: Kind,
    field: Field,
    wide: bool,
    fields: &[u8],
    round: usize,
    number: usize,
) -> u32
    requires { (field.size ≤ 64) × (round < 8) }
    ensures { result ≡ value_number kind field wide fields.now round number }
{
    let values = row_at(kind, number);
    let start = start_in(wide, field, fields) + round * step_in(wide, field);
    number_in(
        fields,
        start + place_in(wide, field, values),
        width_in(wide, field, values),
    )
}
