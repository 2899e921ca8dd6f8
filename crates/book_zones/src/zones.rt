// The zones of a rate book: their numbers, and their rates as a row of five tiers for each zone.
// The fields 08, or the fields 09 in their place, stand last and are all of one length, so the values
// stand 24 bytes apart, or 25.
ghost use Rattle.std.specs.Prelude.{Ok, ◌≡◌, ◌+◌, ◌*◌, ◌<◌, ◌≤◌, ◌^◌, length};
ghost use Rattle.numbers.specs.BigEndian.{number_at};
ghost use Rattle.field_values.specs.Limits.{most_zones};
ghost use Rattle.book_zones.specs.BookRows.{book_rows};
ghost use Rattle.book_zones.specs.Zones.{zone_numbers, zone_rates, rates_from, judge_zones};
ghost use Rattle.book_zones.specs.ZoneScans.{zone_layout, judge_rows, judge_rise, lower};
ghost use Rattle.field_walk.specs.Walk.{walk};
ghost use Rattle.field_walk.specs.Walked.{walked};
ghost use Rattle.field_walk.specs.FieldsWalk.{FieldsWalk};

use field_values::judged::Judged;
use field_values::limits::{HIGHEST_RATE, MOST_ZONES, Rates, TIERS};
use field_values::tiers::by_tier;
use numbers::big_endian::BigEndian;
use std::cmp::min;

// Where the zones' values stand.
#[derive(Clone, Copy)]
pub struct ZoneLayout {
    // the offset of the first
    pub first: usize,
    pub count: usize,
    // the bytes of a zone's number: 1 in a field 08, 2 in a field 09
    pub width: usize,
    // how far each stands from the next: tag and length, the number, five rates
    pub apart: usize,
}

// Of fields that walk: 09 where there is one, otherwise 08.
#[tactic(auto, using(crate::proofs::Standing::zones_counted))]
fn zone_layout(fields: &[u8]) -> ZoneLayout
    requires { FieldsWalk book_rows fields.now }
    ensures { result ≡ zone_layout fields.now }
{
    let (first, width) = match tagged::find::place_of(fields, 9) {
        Some(place) => (place.start, 2),
        None => (tagged::find::start_of(tagged::find::place_of(fields, 8)), 1),
    };
    let apart = width + 23;
    let count = (fields.len() + 3 - first) / apart;
    ZoneLayout {
        first,
        count,
        width,
        apart,
    }
}

// The number of the zone whose value starts there. By its width and no type for it, since the file says which it is; and beside
// `read_number`, whose 32 bits would have to be narrowed again.
fn zone_number(fields: &[u8], start: usize, width: usize) -> u16
    requires { (start + width ≤ length fields.now) × (1 ≤ width) × (width ≤ 2) }
    ensures { result ≡ number_at fields.now start width }
{
    if width == 1 {
        return u16::from(u8::read(fields, start));
    }
    u16::read(fields, start)
}

fn rate_row(fields: &[u8], rates: usize) -> [u32; TIERS]
    requires { rates + 20 ≤ length fields.now }
    ensures { result ≡ rates_from fields.now rates }
{
    by_tier(fields, rates, 4)
}

// The first zone, and in it the first tier, over the limit gives the place; the first zone's rates
// start at `first`.
#[tactic(auto, using(crate::proofs::Scanning::rows_on, crate::proofs::Scanning::rows_end, crate::proofs::Scanning::tier_on, std::proofs::lemmas::Bool::Decides::nat_tests))]
fn first_rate_over(rates: &[[u32; TIERS]], first: usize, apart: usize) -> Judged
    requires { (20 ≤ apart) × (apart ≤ 25) × (first + apart * length rates.now < 2 ^ 64) }
    ensures { result ≡ judge_rows apart first rates.now }
{
    let mut judged = Ok(());
    'zones: for (zone, row) in rates.iter().enumerate() {
        for (tier, rate) in row.iter().enumerate() {
            if HIGHEST_RATE < *rate {
                judged = Err(first + apart * zone + 4 * tier);
                break 'zones;
            }
        }
    }
    judged
}

// The first zone whose number isn't above the last one's.
#[tactic(auto, using(crate::proofs::Scanning::rise_on, crate::proofs::Scanning::rise_end, std::proofs::lemmas::Bool::Decides::nat_tests))]
fn first_number_not_above(numbers: &[u16], first: usize, apart: usize) -> Judged
    requires { (apart ≤ 25) × (first + apart * length numbers.now < 2 ^ 64) }
    ensures { result ≡ judge_rise apart 0 first numbers.now }
{
    let mut least: usize = 0;
    for (zone, number) in numbers.iter().enumerate() {
        let number = usize::from(*number);
        if number < least {
            return Err(first + apart * zone);
        }
        least = number + 1;
    }
    Ok(())
}

// Of two failures, the one at the lower place.
fn lower(one: Judged, other: Judged) -> Judged
    ensures { result ≡ lower one other }
{
    match (one, other) {
        (Ok(()), other) => other,
        (one, Ok(())) => one,
        (Err(at), Err(at_other)) => Err(min(at, at_other)),
    }
}

// The fields of a rate book, which walk. A type for each kind of file, as its readers are methods: one type over the rows could
// have none outside the crate that states it.
#[derive(Clone, Copy)]
pub struct BookFields<'a> {
    pub fields: &'a [u8],
    // Looked for once, and handed on to each that reads the zones.
    pub zones: ZoneLayout,
    ghost walks: { walked (walk book_rows fields.now) ≡ Ok tt },
    ghost zones_stand: { zones ≡ zone_layout fields.now },
    ghost few: { zones.count ≤ most_zones },
    ghost ends: { zones.first + zones.apart * zones.count ≡ length fields.now + 3 },
    ghost narrow: { (1 ≤ zones.width) × (zones.width ≤ 2) × (zones.apart ≡ zones.width + 23) },
}

impl<'a> BookFields<'a> {
    #[tactic(auto, using(crate::proofs::Theorems::ZoneFields::walked_when, crate::proofs::Standing::zones_end, crate::proofs::Standing::zones_most))]
    pub fn new(fields: &'a [u8]) -> BookFields<'a>
        requires { FieldsWalk book_rows fields.now }
        ensures { result.fields.now ≡ fields.now }
    {
        let zones = zone_layout(fields);
        BookFields { fields, zones }
    }

    // The rates, a row of five tiers for each zone; rows past the last zone hold 0.
    // A loop each, here and below: over a closure one filler would say in a clause what the closure reads, and be longer than both.
    #[tactic(auto, using(crate::proofs::Filling::rates_more))]
    pub fn zone_rates(self) -> Rates
        ensures { result ≡ zone_rates self.entry.fields.now }
    {
        let ZoneLayout {
            first,
            count,
            width,
            apart,
        } = self.zones;
        let mut rates = [[0u32; TIERS]; MOST_ZONES];
        for zone in 0..count {
            rates[zone] = rate_row(self.fields, first + apart * zone + width);
        }
        rates
    }

    // The zone numbers; places past the last zone hold 0.
    #[tactic(auto, using(crate::proofs::Filling::numbers_more))]
    pub fn zone_numbers(self) -> [u16; MOST_ZONES]
        ensures { result ≡ zone_numbers self.entry.fields.now }
    {
        let ZoneLayout {
            first,
            count,
            width,
            apart,
        } = self.zones;
        let mut numbers = [0u16; MOST_ZONES];
        for zone in 0..count {
            numbers[zone] = zone_number(self.fields, first + apart * zone, width);
        }
        numbers
    }

    // The zones' values in byte order: a rate of an earlier zone comes before the number of a later one.
    // The rates come beside the fields, so that they are read once for the test and the price.
    #[tactic(auto, using(crate::proofs::Standing::scans_judge))]
    pub fn judge_zones(self, rates: Rates) -> Judged
        requires { rates ≡ zone_rates self.fields.now }
        ensures { result ≡ judge_zones self.entry.fields.now }
    {
        let ZoneLayout {
            first,
            count,
            width,
            apart,
        } = self.zones;
        let numbers = self.zone_numbers();
        let number = first_number_not_above(&numbers[..count], first, apart);
        lower(
            number,
            first_rate_over(&rates[..count], first + width, apart),
        )
    }
}
