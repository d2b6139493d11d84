// Find, next free and allocate on a block.
#![tactic(auto)]

pub mod allocate;
pub mod find;
