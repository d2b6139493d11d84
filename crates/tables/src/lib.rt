// The commands on the tables of a block.
#![tactic(auto)]

pub mod commands;
