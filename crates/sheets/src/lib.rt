// The sheet: its parts, what makes a sheet, and the calls on an open one and on a settled one.
#![tactic(auto)]

pub mod answers;
pub mod judging;
pub mod open_sheet;
pub mod opening;
pub mod parts;
pub mod settled_sheet;
mod sheet_view;
