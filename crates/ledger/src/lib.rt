// The pioneer ledger's records, the places of its schemes and entries, and whether it is sound:
// document 01, 'Ledger calls'. The entries are the first records of the lent party table.
#![tactic(auto)]

pub mod limits;
pub mod lookup;
pub mod records;
pub mod sound;
