// Reports of memory that firmware hands over, taken in through the commands on the tables.
#![tactic(auto)]

pub mod e820;
