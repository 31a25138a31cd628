// Lines brought down by passes over the messages of two parts of a table.
#![tactic(auto)]

pub mod few;
pub mod passes;
