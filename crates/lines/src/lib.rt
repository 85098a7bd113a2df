// What the log program prints: faults by their layer, the line of each command, and the whole
// output, with their text; terms and orderings in text.
#![tactic(auto)]

pub mod faults;
pub mod lines;
pub mod reports;
pub mod written;
