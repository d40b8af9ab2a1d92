//! The transcript of a script: its lines with their replies, and the history of one device over one TPM that they give.
//!
//! `IsRun` says which replies the lines of a script may have: their history is `Legal`, and each reply is the one that its
//! line has at that point. The functions here do nothing: their contracts are laws of these definitions.
#![tactic(auto)]

mod laws;

pub use laws::{commands_end, plain_runs_are_one, runs_are_one, runs_continue};
