// Logs: the session that performs each command of a log on a sheet, and what is printed of an
// input.
#![tactic(auto)]

pub mod inputs;
mod performing;
pub mod reading;
pub mod sessions;
