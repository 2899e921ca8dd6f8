// A pioneer ledger's text, for the programs: the lines of its calls' answers and of what ledger and table hold.
#![tactic(auto)]

pub mod answers;
pub mod records;
