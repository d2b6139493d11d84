// Properties by path and name, in one tree and in a service tree before a board's.
#![tactic(auto)]

pub mod nodes;
pub mod pairs;
pub mod ways;
