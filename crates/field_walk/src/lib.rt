// The walk over a file's fields: document 01, 'Tagged fields'.
//
// It stands below the finder and a file's first steps, so that an edit of the walk proves none of those, nor theirs the walk.
#![tactic(auto)]

pub mod walk;
