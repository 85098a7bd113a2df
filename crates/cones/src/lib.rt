// Cones and completeness over a table of limits, and by any division.
#![tactic(auto)]

pub mod judging;
pub mod limited_rows;
mod shape;
pub mod shortfalls;
pub mod tables;
