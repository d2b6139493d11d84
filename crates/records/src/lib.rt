// The records of one table, lent as a part of the block.
#![tactic(auto)]

pub mod table;
