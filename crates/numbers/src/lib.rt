// Big-endian numbers, and the check h over a file's bytes: document 01, 'Tagged fields'.
//
// They stand below the walk, so that an edit of a number or of the check proves no walk.
#![tactic(auto)]

pub mod big_endian;
pub mod check;
