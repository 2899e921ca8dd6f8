// How high and how many the values of rate book and request may be: document 01, 'Rate book' and
// 'Request'.

pub const MOST_ZONES: usize = 8;

pub const TIERS: usize = 5;

pub const MOST_FACTORS: usize = 8;

// in ten-thousandths
pub const HIGHEST_FACTOR: u32 = 40_000;

// in hundredths of a percent
pub const HIGHEST_DISCOUNT_RATE: u32 = 10_000;

// in ten-thousandths: the credit share
pub const HIGHEST_SHARE: u32 = 10_000;

// in cents
pub const HIGHEST_THRESHOLD: u32 = 5_000_000;

pub const HIGHEST_MINIMUM: u32 = 1_000_000_000;

// in months
pub const LOWEST_TERM: u16 = 84;

// in cents per kVA: a posted or a bespoke rate of a tier
pub const HIGHEST_RATE: u32 = 10_000_000;

// in cents: each of the six amounts
pub const HIGHEST_AMOUNT: u32 = 1_000_000_000;

// in cents: each of the two year-one revenues
pub const HIGHEST_REVENUE: u32 = 1_000_000_000;

// in hundredths of a kVA
pub const HIGHEST_DEMAND: u32 = 1_000_000;

pub const LOWEST_CAPACITY: u32 = 1;

pub const HIGHEST_CAPACITY: u32 = 1_000_000;

// The kinds are the file's bytes: an enum would take fewer values than the public functions do.
// 0 residential, 1 non-residential, 2 special pricing
pub const HIGHEST_CLASS: u32 = 2;

pub const SPECIAL_PRICING: u8 = 2;

// 0 posted, 1 extension-like, 2 bespoke
pub const HIGHEST_MODE: u32 = 2;

// 0 none, 1 opted out in writing, 2 real estate
pub const HIGHEST_MARK: u32 = 2;

// month and scheme joined take any value of their two bytes
pub const HIGHEST_OF_TWO_BYTES: u32 = 65_535;

// the rates of every zone
pub type Rates = [[u32; TIERS]; MOST_ZONES];
