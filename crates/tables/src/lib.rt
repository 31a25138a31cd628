// What the bytes of a run table say (docs/MANUAL.md, "The run table"): the format, numbers in bytes, and a
// table's numbers and parts by place. The checks of a table are defined here, and made in the crate
// `run_table`.
#![tactic(auto)]

pub mod format;
pub mod lookups;
pub mod messages;
pub mod numbers;
pub mod parts;
pub mod refusal;
