// Document 000's figures as printed (docs/WORKED_EXAMPLES.md), and how far a figure of the pricing call may lie from them.
#![tactic(auto)]

pub mod printed;
pub mod tolerance;
