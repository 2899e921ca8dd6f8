// What a ledger and its table hold, in the stored form's widths: every value of these types can be
// handed over, sound or not.
ghost use Rattle.std.specs.Prelude.{◌≡◌};
ghost use Rattle.ledger.specs.Records.{no_parties, new_ledger};

use crate::limits::{MOST_ENTRIES, MOST_SCHEMES, Parties, Schemes};

#[derive(Clone, Copy, Default, PartialEq)]
pub struct Scheme {
    // its lasting number: given once, from 1 on
    pub number: u32,
    pub cost: u32,
    pub fee: u32,
    pub minimum: u32,
    // month of opening, and term in months
    pub opening: u16,
    pub term: u16,
    // what its joinings left in fees
    pub fees: u64,
}

// An entry of the party table.
#[derive(Clone, Copy, Default)]
pub struct Party {
    // its lasting number: given once, from 1 on
    pub number: u32,
    // its scheme's number, which is never above 65,535
    pub scheme: u16,
    pub person: u32,
    pub capacity: u32,
    pub put_in: u32,
    pub credited: u64,
    pub paid_out: u64,
}

// The schemes are a fixed array, of which the first `count` stand, and no ArrayVec of the library: a ledger is Copy, and handed over
// with any count, sound or not. That all places of the array are there is a clause where a proof needs it before the code reads the length.
// The counts have no limit here, as a ledger is handed over sound or not: where it was tested, clauses say it.
#[derive(Clone, Copy)]
pub struct Ledger {
    // the last accepted month
    pub month: u16,
    pub connections: u32,
    // sums over all accepted requests
    pub charged: u64,
    pub borne: u64,
    // the numbers that the next scheme and the next entry get
    pub next_scheme: u32,
    pub next_entry: u32,
    // what the schemes that were cleared had collected, paid out and left in fees
    pub cleared_collected: u64,
    pub cleared_paid_out: u64,
    pub cleared_fees: u64,
    pub entries: u32,
    pub count: u32,
    pub schemes: Schemes,
}

// This and the new ledger are functions: `[x; N]` says the value itself, where an array's Default says it place by place. One for each
// list, as each is promised by a definition of its own.
#[tactic(auto, unfolding(crate::specs::Records::no_parties))]
pub fn no_parties() -> Parties
    ensures { result ≡ no_parties }
{
    [Party::default(); MOST_ENTRIES]
}

pub fn new_ledger() -> Ledger
    ensures { result ≡ new_ledger }
{
    Ledger {
        month: 0,
        connections: 0,
        charged: 0,
        borne: 0,
        next_scheme: 1,
        next_entry: 1,
        cleared_collected: 0,
        cleared_paid_out: 0,
        cleared_fees: 0,
        entries: 0,
        count: 0,
        schemes: [Scheme::default(); MOST_SCHEMES],
    }
}
