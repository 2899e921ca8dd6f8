// The text of a rate book or a request: the one that packs to the same bytes. The template of each kind is the text of one file.
#![tactic(auto)]

pub mod described;
pub mod laws;
pub mod lines;
pub mod show;
pub mod template;
pub mod values;
