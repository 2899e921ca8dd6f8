// The stored ledger: document 01, 'Stored form', and document 02, E9. A ledger and its entries, the first records of
// the party table, as the bytes of a file: its fields, what the bytes are and what they are read as, in both forms.
// Crates above write and read them.
#![tactic(auto)]

pub mod form;
pub mod lengths;
pub mod rows;
pub mod writing;
