// What the checks ask of a list: that of a receipt or a checkpoint, or one of processes (docs/MANUAL.md,
// "Refusals": checks 13, 24 and 21).
#![tactic(auto)]

pub mod passing;
pub mod positions;
