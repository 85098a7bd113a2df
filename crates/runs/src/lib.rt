// Runs of calls: a call as a value, one step of a sheet, and a list of calls on a sheet that is
// opened for it.
#![tactic(auto)]

pub mod replaying;
pub mod requests;
pub mod stepping;
