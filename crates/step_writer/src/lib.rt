// Send, receipt and checkpoint on tables: each writes the table that the step leaves to the front of a buffer.
// The fourth step is the crate `rollback`.
#![tactic(auto)]

pub mod receipts;
pub mod send;
