// The rate book: document 01, 'Rate book'.
#![tactic(auto)]

pub mod book;
pub mod fields;
