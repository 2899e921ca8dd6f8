// The one table of the values of rate books and requests: what each is called in a text, its unit, its limits and its place in its field. By it a text is
// packed, a file is shown, a fault is told and a form is made. The limits are the readers' own constants.
#![tactic(auto)]

pub mod names;
pub mod notes;
pub mod table;
