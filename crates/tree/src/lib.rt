// A flattened device tree in lent bytes: its words and tokens, which structure blocks are a tree's, its header and parts. Knows nothing of tables.
#![tactic(auto)]

pub mod header;
pub mod reader;
pub mod tokens;
pub mod words;
