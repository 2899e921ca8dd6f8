// The numbers of the refusals: document 01, 'How calls end'.
// Numbers and no enum: a refusal's number is a byte that C reads and the slip prints, whichever it is.

pub const FILE_DOES_NOT_WALK: u8 = 1;

pub const CHECK_DIFFERS: u8 = 2;

pub const VALUE_NOT_LISTED: u8 = 3;

pub const ZONE_NOT_IN_BOOK: u8 = 4;

pub const BESPOKE_NOT_ALLOWED: u8 = 5;

pub const SCHEME_NEVER_OPENED: u8 = 6;

pub const MONTH_BEFORE_LAST: u8 = 7;

pub const NO_SCHEME_LEFT: u8 = 8;

pub const NO_ENTRY_LEFT: u8 = 9;

pub const NO_CONNECTION_LEFT: u8 = 10;

pub const NO_SUCH_ENTRY: u8 = 11;

pub const PAY_OUT_ABOVE_CREDIT: u8 = 12;

pub const LEDGER_UNSOUND: u8 = 13;

pub const OUTPUT_TOO_SHORT: u8 = 14;

pub const LOW_ABOVE_HIGH: u8 = 15;

pub const NUMBERS_NOT_COUNTS: u8 = 16;
