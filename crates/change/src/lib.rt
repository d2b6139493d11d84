// A range of one table changed in place.
#![tactic(auto)]

pub mod gap;
pub mod inplace;
