// What is kept, read off a scratch that begins with n lines of n numbers each, one after another: the
// checkpoints that some line has, and the messages that are undelivered or cross some line.
#![tactic(auto)]

pub mod checkpoints;
pub mod messages;
