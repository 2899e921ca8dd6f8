// The fields of a request one by one: the limits on a field's values, and its reader. The three lists
// of factors have theirs in `field_values`.
ghost use Rattle.std.specs.Prelude.{Ok, ◌≡◌};
ghost use Rattle.field_walk.specs.Walk.{walk};
ghost use Rattle.field_walk.specs.Walked.{walked};
ghost use Rattle.request.specs.RequestRows.{request_rows};
ghost use Rattle.request.specs.Fields.{person_in, class_in, zone_in, amounts_in, tiers_in, added_in, revenues_in, connection_in};

use field_values::judged::Limit;
use field_values::limits::{
    HIGHEST_AMOUNT, HIGHEST_CAPACITY, HIGHEST_CLASS, HIGHEST_DEMAND, HIGHEST_MARK, HIGHEST_MODE,
    HIGHEST_OF_TWO_BYTES, HIGHEST_RATE, HIGHEST_REVENUE, LOWEST_CAPACITY, TIERS,
};
use field_values::tiers::by_tier;
use numbers::big_endian::BigEndian;
use tagged::find::{find, part, place_of};

// Field 05: minimum scheme extension, customer enhancement extension, distributor enhancement,
// transmission works, historical cost recovery, operating loading.
#[derive(Clone, Copy)]
pub struct Amounts {
    pub me: u32,
    pub ce: u32,
    pub de: u32,
    pub tw: u32,
    pub hr: u32,
    pub ol: u32,
}

// Field 06, by tier.
// Of its own beside capacity's: a request has demands and no posted rates, which are the book's. A list of each figure and no
// record for each tier: the demands are priced as the added demands are, and the modes judged against the book's rates.
#[derive(Clone, Copy)]
pub struct Tiers {
    pub modes: [u8; TIERS],
    pub demands: [u32; TIERS],
    pub bespoke_rates: [u32; TIERS],
}

// Field 08: year-one revenue.
#[derive(Clone, Copy)]
pub struct Revenues {
    pub distribution: u32,
    pub transmission: u32,
}

// Field 0C.
#[derive(Clone, Copy)]
pub struct Connection {
    pub month: u16,
    pub capacity: u32,
    pub scheme: u16,
    pub mark: u8,
}

pub const CLASS_LIMITS: [Limit; 1] = [[1, 0, HIGHEST_CLASS]];

const AMOUNT_LIMIT: Limit = [4, 0, HIGHEST_AMOUNT];

const NO_AMOUNT: Limit = [4, 0, 0];

// The operating loading is the last amount: special pricing alone may have one.
// Two lists and no last limit put in: each is a constant, lent as it stands.
pub const AMOUNT_LIMITS: [Limit; 6] = [AMOUNT_LIMIT; 6];

pub const AMOUNT_LIMITS_WITHOUT_LOADING: [Limit; 6] = [
    AMOUNT_LIMIT,
    AMOUNT_LIMIT,
    AMOUNT_LIMIT,
    AMOUNT_LIMIT,
    AMOUNT_LIMIT,
    NO_AMOUNT,
];

const MODE_LIMIT: Limit = [1, 0, HIGHEST_MODE];

const DEMAND_LIMIT: Limit = [4, 0, HIGHEST_DEMAND];

const RATE_LIMIT: Limit = [4, 0, HIGHEST_RATE];

// mode, demand and bespoke rate of each tier
pub const TIER_LIMITS: [[Limit; 3]; TIERS] = [[MODE_LIMIT, DEMAND_LIMIT, RATE_LIMIT]; TIERS];

pub const ADDED_LIMITS: [Limit; TIERS] = [DEMAND_LIMIT; TIERS];

pub const REVENUE_LIMITS: [Limit; 2] = [[4, 0, HIGHEST_REVENUE]; 2];

// month, capacity, scheme joined and mark
pub const CONNECTION_LIMITS: [Limit; 4] = [
    [2, 0, HIGHEST_OF_TWO_BYTES],
    [4, LOWEST_CAPACITY, HIGHEST_CAPACITY],
    [2, 0, HIGHEST_OF_TWO_BYTES],
    [1, 0, HIGHEST_MARK],
];

// The fields of a request, which walk. A type for each kind of file, as its readers are methods.
#[derive(Clone, Copy)]
pub struct RequestFields<'a> {
    pub fields: &'a [u8],
    ghost walks: { walked (walk request_rows fields.now) ≡ Ok tt },
}

impl<'a> RequestFields<'a> {
    #[tactic(auto, using(crate::proofs::Lengths::person_long))]
    pub fn person(self) -> u32
        ensures { result ≡ person_in self.entry.fields.now }
    {
        u32::read(find(self.fields, 2), 0)
    }

    #[tactic(auto, using(crate::proofs::Lengths::class_long))]
    pub fn class(self) -> u8
        ensures { result ≡ class_in self.entry.fields.now }
    {
        u8::read(find(self.fields, 3), 0)
    }

    // Field 04, or 0D in its place.
    #[tactic(auto, using(crate::proofs::Lengths::narrow_long, crate::proofs::Lengths::wide_long))]
    pub fn zone(self) -> u16
        ensures { result ≡ zone_in self.entry.fields.now }
    {
        let wide = place_of(self.fields, 13);
        match wide {
            Some(_) => u16::read(part(self.fields, wide), 0),
            None => u16::from(u8::read(find(self.fields, 4), 0)),
        }
    }

    #[tactic(auto, using(crate::proofs::Lengths::amounts_long))]
    pub fn amounts(self) -> Amounts
        ensures { result ≡ amounts_in self.entry.fields.now }
    {
        let value = find(self.fields, 5);
        Amounts {
            me: u32::read(value, 0),
            ce: u32::read(value, 4),
            de: u32::read(value, 8),
            tw: u32::read(value, 12),
            hr: u32::read(value, 16),
            ol: u32::read(value, 20),
        }
    }

    #[tactic(auto, using(crate::proofs::Lengths::tiers_long))]
    pub fn tiers(self) -> Tiers
        ensures { result ≡ tiers_in self.entry.fields.now }
    {
        let value = find(self.fields, 6);
        Tiers {
            modes: by_tier(value, 0, 9),
            demands: by_tier(value, 1, 9),
            bespoke_rates: by_tier(value, 5, 9),
        }
    }

    // Field 07: the added demands of the customer's enhancement.
    #[tactic(auto, using(crate::proofs::Lengths::added_long))]
    pub fn added_demands(self) -> [u32; TIERS]
        ensures { result ≡ added_in self.entry.fields.now }
    {
        by_tier(find(self.fields, 7), 0, 4)
    }

    #[tactic(auto, using(crate::proofs::Lengths::revenues_long))]
    pub fn revenues(self) -> Revenues
        ensures { result ≡ revenues_in self.entry.fields.now }
    {
        let value = find(self.fields, 8);
        Revenues {
            distribution: u32::read(value, 0),
            transmission: u32::read(value, 4),
        }
    }

    #[tactic(auto, using(crate::proofs::Lengths::connection_long))]
    pub fn connection(self) -> Connection
        ensures { result ≡ connection_in self.entry.fields.now }
    {
        let value = find(self.fields, 12);
        Connection {
            month: u16::read(value, 0),
            capacity: u32::read(value, 2),
            scheme: u16::read(value, 6),
            mark: u8::read(value, 8),
        }
    }
}
