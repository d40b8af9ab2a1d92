//! Tests of what stands between a device and its TPM: the requests, the emulator and the worker.
//!
//! They compare with values from outside, and make each public call once. What a clause says isn't tried again here.
#![tactic(auto)]

#[cfg(test)]
mod crb_worker_tests;
#[cfg(test)]
mod ctrl_client_tests;
#[cfg(test)]
mod fixtures;
#[cfg(test)]
mod vt_emulator_tests;
