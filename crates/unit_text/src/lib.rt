// Units of the values of rate books and requests: how a number of a unit is shown as a text, and read off one. A figure is a whole number of its unit's
// last decimal all the way: nothing is rounded.
#![tactic(auto)]

pub mod figure;
pub mod laws;
pub mod measure;
pub mod months;
pub mod read;
pub mod shown;
