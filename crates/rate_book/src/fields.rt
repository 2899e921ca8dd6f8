// The fields of a rate book one by one: the limits on a field's values, and its reader. The two lists
// of factors have theirs in `field_values`, the zones in `book_zones`.
ghost use Rattle.std.specs.Prelude.{◌≡◌, ◌+◌, ◌<◌, ◌≤◌, length};
ghost use Rattle.field_values.specs.SumLimits.{sums_below};
ghost use Rattle.rate_book.specs.Fields.{rate_in, sum_from, sums_in, judge_sums, terms_in, judge_terms, charging_in};

use book_zones::zones::BookFields;
use field_values::judged::{Judged, Limit, judge};
use field_values::limits::{
    HIGHEST_DISCOUNT_RATE, HIGHEST_MINIMUM, HIGHEST_SHARE, HIGHEST_THRESHOLD, LOWEST_TERM, TIERS,
};
use field_values::tiers::by_tier;
use numbers::big_endian::BigEndian;
use tagged::find::{find, place_of, start_of};

// Field 03: the sums of selected opex and of distribution revenue.
#[derive(Clone, Copy)]
pub struct Sums {
    pub opex: u64,
    pub revenue: u64,
}

// Field 06.
#[derive(Clone, Copy)]
pub struct Terms {
    pub threshold: u32,
    pub fee: u32,
    pub minimum: u32,
    // in months
    pub term: u16,
}

// Field 07.
#[derive(Clone, Copy)]
pub struct Charging {
    // 1 where capacity is charged, otherwise 0
    // A byte and no bool: fields that walk may hold any.
    pub charged: u8,
    // credit share
    pub share: u16,
}

pub const RATE_LIMITS: [Limit; 1] = [[2, 0, HIGHEST_DISCOUNT_RATE]];

pub const CHARGED_LIMITS: [Limit; 2] = [[1, 0, 1], [2, 0, HIGHEST_SHARE]];

// Field 02: the discount rate.
#[tactic(auto, using(crate::proofs::Lengths::rate_long))]
pub fn read_rate(book: BookFields) -> u16
    ensures { result ≡ rate_in book.entry.fields.now }
{
    u16::read(find(book.fields, 2), 0)
}

// The sum of five 4-byte figures that stand 8 bytes apart.
fn sum_from(value: &[u8], from: usize) -> u64
    requires { from + 36 ≤ length value.now }
    ensures { (result ≡ sum_from value.now from) × (result < sums_below) }
{
    let figures: [u32; TIERS] = by_tier(value, from, 8);
    figures.iter().map(|figure| u64::from(*figure)).sum()
}

#[tactic(auto, using(crate::proofs::Lengths::figures_long))]
pub fn read_sums(book: BookFields) -> Sums
    ensures { result ≡ sums_in book.entry.fields.now }
{
    let value = find(book.fields, 3);
    Sums {
        opex: sum_from(value, 0),
        revenue: sum_from(value, 4),
    }
}

// The opex sum is at most the revenue sum, which isn't 0.
pub fn judge_sums(book: BookFields) -> Judged
    ensures { result ≡ judge_sums book.entry.fields.now }
{
    let at = start_of(place_of(book.fields, 3));
    let sums = read_sums(book);
    judge(sums.opex <= sums.revenue, at)?;
    judge(0 < sums.revenue, at)
}

#[tactic(auto, using(crate::proofs::Lengths::terms_long))]
pub fn read_terms(book: BookFields) -> Terms
    ensures { result ≡ terms_in book.entry.fields.now }
{
    let value = find(book.fields, 6);
    Terms {
        threshold: u32::read(value, 0),
        fee: u32::read(value, 4),
        minimum: u32::read(value, 8),
        term: u16::read(value, 12),
    }
}

pub fn judge_terms(book: BookFields) -> Judged
    ensures { result ≡ judge_terms book.entry.fields.now }
{
    let at = start_of(place_of(book.fields, 6));
    let terms = read_terms(book);
    judge(terms.threshold <= HIGHEST_THRESHOLD, at)?;
    judge(terms.fee <= terms.minimum, at + 4)?;
    judge(terms.minimum <= HIGHEST_MINIMUM, at + 8)?;
    judge(LOWEST_TERM <= terms.term, at + 12)
}

#[tactic(auto, using(crate::proofs::Lengths::charged_long))]
pub fn read_charging(book: BookFields) -> Charging
    ensures { result ≡ charging_in book.entry.fields.now }
{
    let value = find(book.fields, 7);
    Charging {
        charged: u8::read(value, 0),
        share: u16::read(value, 1),
    }
}
