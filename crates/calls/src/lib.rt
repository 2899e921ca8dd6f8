// What the calls on a pioneer ledger decide and answer: document 01, 'Ledger calls'. The rules are in specs/; the crates above
// compute them.
#![tactic(auto)]

pub mod answers;
pub mod courses;
pub mod laws;
