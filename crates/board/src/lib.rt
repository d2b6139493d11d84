// A board's device tree, taken in through the commands on the tables.
#![tactic(auto)]

pub mod ranges;
pub mod taking;
