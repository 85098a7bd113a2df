// The search for an ordering that makes rows complete.
#![tactic(auto)]

mod columns;
mod cone_table;
mod divisors;
mod memo;
mod prefix;
pub mod searching;
mod table;
mod walk;
