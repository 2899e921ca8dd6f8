// The values inside a field, as rate book and request share them: limits, judged in byte order,
// letters and factor lists.
#![tactic(auto)]

pub mod factors;
pub mod judged;
pub mod limits;
pub mod tiers;
