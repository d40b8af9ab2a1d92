//! The histories of one CRB device over one TPM: the words in which the programs' promises are stated.
//!
//! A history is a list of events, the latest first, from a base of values. What the guest is shown, which commands were
//! started and what the TPM executed are found by looking back over it; nothing is kept. `Legal` says which histories
//! one device over one TPM may have.
//!
//! The functions here do nothing: their contracts are laws of the definitions.
#![tactic(auto)]

mod laws;

pub use laws::{done_is_executed_once, histories_continue, lost_stays_lost, numbers_count_starts};
