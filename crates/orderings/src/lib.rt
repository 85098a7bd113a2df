// Orderings of variables, the elements that a sheet takes, compare, and the refusals.
#![tactic(auto)]

pub mod comparing;
pub mod fitting;
pub mod orders;
pub mod refusals;
