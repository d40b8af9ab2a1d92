//! Tests of the TPM's side: frames, the TPM and its blobs.
//!
//! They compare with values from outside, and make each public call once. What a clause says isn't tried again here.
#![tactic(auto)]

#[cfg(test)]
mod state_blobs_tests;
#[cfg(test)]
mod tpm_core_tests;
#[cfg(test)]
mod tpm_frame_tests;
#[cfg(test)]
mod tpm_more_tests;
#[cfg(test)]
mod two_banks_tests;
