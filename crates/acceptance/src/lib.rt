// Accept over a ledger and its lent party table: document 01, 'Accept'.
#![tactic(auto)]

pub mod accept;
