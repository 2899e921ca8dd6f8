// The event file: calls on a pioneer ledger as fields, in any order and number.
//
// It is a kind of file beside rate book, request and stored ledger: its last five bytes, its check and its refusals are
// theirs, its walk is its own. It knows its bytes alone; what an event does to a ledger is said elsewhere.
#![tactic(auto)]

pub mod events;
pub mod laws;
pub mod rows;
