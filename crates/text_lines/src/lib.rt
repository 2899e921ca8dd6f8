// The lines of a text, and the columns of a line: a name and its value, as spreadsheets export two columns, or as `name = value`.
#![tactic(auto)]

pub mod columns;
pub mod lines;
