// Factor lists: 1 to 8 factors in ten-thousandths.
ghost use Rattle.std.specs.Prelude.{◌≡◌};
ghost use Rattle.field_values.specs.Factors.{factor_at, factors_of, judge_factors};

use crate::judged::{Judged, Limit};
use crate::limits::{HIGHEST_FACTOR, MOST_FACTORS};
use numbers::big_endian::BigEndian;
use std::array;

// A fixed array with its count, and no ArrayVec of the library: book and request are Copy, and of a value of any length the count says how
// many factors it would hold.
#[derive(Clone, Copy)]
pub struct Factors {
    pub count: usize,
    pub values: [u16; MOST_FACTORS],
}

const FACTOR_LIMITS: [Limit; MOST_FACTORS] = [[2, 0, HIGHEST_FACTOR]; MOST_FACTORS];

#[tactic(auto, unfolding(crate::specs::Narrow::narrow))]
pub fn judge_factors(fields: &[u8], tag: u8) -> Judged
    ensures { result ≡ judge_factors tag fields.now }
{
    crate::judged::judge_field(fields, tag, &FACTOR_LIMITS)
}

// 0 past the list's end and no Option: so the fixed array is filled behind the last factor.
fn factor_at(value: &[u8], at: usize) -> u16
    ensures { result ≡ factor_at value.now at }
{
    if value.len() < 2 {
        return 0;
    }
    if at <= value.len() - 2 {
        return u16::read(value, at);
    }
    0
}

// The factors of the field with this tag; places past the last hold 0.
pub fn read_factors(fields: &[u8], tag: u8) -> Factors
    ensures { result ≡ factors_of tag fields.now }
{
    let value = tagged::find::find(fields, tag);
    Factors {
        count: value.len() / 2,
        values: array::from_fn(|place| factor_at(value, 2 * place)),
    }
}
