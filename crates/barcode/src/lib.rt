// Bars, stars and gaps of the rows of a sheet, of any kind, under an ordering.
#![tactic(auto)]

pub mod bar_code;
pub mod bars;
mod greatest;
mod level;
pub mod positions;
mod rises;
pub mod sorted_rows;
mod sorting;
