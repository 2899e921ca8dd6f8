// A rate book's fields and its zones: document 01, 'Rate book'.
//
// They stand below the book's other values, so that an edit of a zone proves none of those, nor theirs the zones.
#![tactic(auto)]

pub mod rows;
pub mod zones;
