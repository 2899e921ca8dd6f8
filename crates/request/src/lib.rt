// The request: document 01, 'Request'.
#![tactic(auto)]

pub mod fields;
pub mod rows;
pub mod values;
