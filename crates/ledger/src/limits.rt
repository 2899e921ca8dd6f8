// How much a ledger holds at most: document 01, 'Ledger calls'.
use crate::records::{Party, Scheme};

pub const MOST_SCHEMES: usize = 64;

pub const MOST_ENTRIES: usize = 512;

// The same two in the width that a ledger counts them in, so that no function casts them.
pub const MOST_SCHEMES_COUNTED: u32 = MOST_SCHEMES as u32;

pub const MOST_ENTRIES_COUNTED: u32 = MOST_ENTRIES as u32;

pub const MOST_CONNECTIONS: u32 = 1_000_000;

// In cents, of an entry.
pub const HIGHEST_PUT_IN: u32 = 2_000_000_000;

pub const HIGHEST_CREDITED: u64 = 2_000_000_000_000;

// In cents, for each connection: charged and borne.
pub const HIGHEST_SUM: u64 = 1_100_000_000_000;

pub const HIGHEST_NEXT_SCHEME: u32 = 65_536;

pub type Schemes = [Scheme; MOST_SCHEMES];

// A fixed array, of which the ledger says how many entries it holds, also where that is more than these. That a slice of entries is no
// longer, and each within the limits, is a clause where it is asked: a lent slice is of no type that could say so.
pub type Parties = [Party; MOST_ENTRIES];
