// The text of a plan: read as lists, written from lists, and filled into a plan.
#![tactic(auto)]

pub mod columns;
pub mod faults;
pub mod fields;
pub mod filling;
pub mod lines;
pub mod lists;
mod reading;
pub mod room;
pub mod writing;
