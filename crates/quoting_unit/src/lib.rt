// What the functions of the static library share, which `fikrem_c` exports to C: the result, in which a refusal is told, what a done call
// tells in the answer's places, and the figures' places.
#![tactic(auto)]

pub mod figures;
pub mod laws;
pub mod outcomes;
pub mod results;
