// The fields of an event file.
use field_walk::walk::Row;

// An event's tag tells which call it is.
pub const ACCEPT: u8 = 1;

pub const PAY_OUT: u8 = 2;

pub const HAND_OVER: u8 = 3;

pub const CLEAR: u8 = 4;

pub const WITHDRAW: u8 = 5;

// Tag; lowest, highest and step of length. A row's other three numbers say how often its field comes and in which form
// of the file: they are 0, as events come in any number and their file has one form.
pub const EVENT_ROWS: [Row; 5] = [
    [ACCEPT as u16, 2, 65_535, 1, 0, 0, 0],
    [PAY_OUT as u16, 12, 12, 1, 0, 0, 0],
    [HAND_OVER as u16, 8, 8, 1, 0, 0, 0],
    [CLEAR as u16, 2, 2, 1, 0, 0, 0],
    [WITHDRAW as u16, 4, 4, 1, 0, 0, 0],
];
