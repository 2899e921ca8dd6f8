// Whether values are as document 01, 'Rate book' or 'Request', lists them: the first that isn't gives the place.
ghost use Rattle.std.specs.Prelude.{◌≡◌, true, ◌⊎◌, ◌+◌, ◌<◌, ◌≤◌, ◌^◌, length};
ghost use Rattle.numbers.specs.BigEndian.{number_at};
ghost use Rattle.field_values.specs.Judged.{judge, judge_numbers, judge_field, judge_letters, same_bytes};
ghost use Rattle.field_values.specs.Narrow.{narrow};

use numbers::big_endian::BigEndian;

// The value passes, or the place of what fails.
pub type Judged = Result<(), usize>;

// A limit on a number: its width of 1, 2 or 4 bytes, and its lowest and highest value.
// Three numbers by place and no names: the limits of a field stand as a table.
pub type Limit = [u32; 3];

pub fn judge(listed: bool, at: usize) -> Judged
    ensures { result ≡ judge listed at }
{
    if listed { Ok(()) } else { Err(at) }
}

// The width chooses the reader by a number, as it stands in the table of limits: a type for each width would part the table.
fn read_number(s: &[u8], at: usize, width: usize) -> u32
    requires { ((width ≡ 1) ⊎ ((width ≡ 2) ⊎ (width ≡ 4))) × (at + width ≤ length s.now) }
    ensures { result ≡ number_at s.now at width }
{
    match width {
        1 => u32::from(u8::read(s, at)),
        2 => u32::from(u16::read(s, at)),
        _ => u32::read(s, at),
    }
}

// The numbers of a value, one after the other, against a limit each; `at` is the value's offset.
// A value may end before the limits do.
#[tactic(auto, using(crate::proofs::Numbers::numbers_at, crate::proofs::Numbers::numbers_past, crate::proofs::Numbers::narrow_at, std::proofs::lemmas::Bool::Decides::nat_tests))]
fn judge_numbers(limits: &[Limit], value: &[u8], at: usize) -> Judged
    requires { (narrow limits.now ≡ true) × (at + length value.now < 2 ^ 64) }
    ensures { result ≡ judge_numbers limits.now at value.now }
{
    let mut offset: usize = 0;
    for limit in limits {
        let width = limit[0] as usize;
        if value.len() - offset < width {
            return Ok(());
        }
        let n = read_number(value, offset, width);
        if n < limit[1] {
            return Err(at + offset);
        }
        if limit[2] < n {
            return Err(at + offset);
        }
        offset += width;
    }
    Ok(())
}

// The numbers of the field with this tag, against a limit each.
pub fn judge_field(fields: &[u8], tag: u8, limits: &[Limit]) -> Judged
    requires { narrow limits.now ≡ true }
    ensures { result ≡ judge_field limits.now tag fields.now }
{
    let place = tagged::find::place_of(fields, tag);
    let value = tagged::find::part(fields, place);
    judge_numbers(limits, value, tagged::find::start_of(place))
}

#[tactic(auto, using(crate::proofs::Bytes::same_by_library))]
fn same_bytes(a: &[u8], b: &[u8]) -> bool
    ensures { result ≡ same_bytes a.now b.now }
{
    a == b
}

// The identity value in field 01.
pub fn judge_letters(fields: &[u8], letters: &[u8]) -> Judged
    ensures { result ≡ judge_letters letters.now fields.now }
{
    let place = tagged::find::place_of(fields, 1);
    let value = tagged::find::part(fields, place);
    judge(same_bytes(value, letters), tagged::find::start_of(place))
}
