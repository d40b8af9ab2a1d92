//! A TPM of five commands (Startup, Shutdown, GetRandom, PCR_Read, PCR_Extend), with a bank of 24 registers by SHA-256,
//! and one by SHA-384 where it is made with two banks.
//!
//! ```text
//! let mut tpm = Tpm::manufacture(seed, Banks::Two);
//! tpm.power_on();
//! let size = tpm.execute(&command, &mut into);
//! let response = &into.bytes()[..size];
//! ```
//!
//! Its values and its answers are found by looking back over its past, a list of what it went through with the latest
//! entry first: a register has its value at the latest start, onto which the digests since were hashed. Commands,
//! responses and codes are those of the TPM 2.0 Library; the checks come in an order of our own, and a command that
//! fails one does nothing. How bytes reach the TPM is left to others.
//!
//! The definition `answer` has four commands more, which change nothing: `tpm_more` answers them, from the readers, refusals
//! and digests of this crate. What [`Tpm::execute`] alone answers is `core_answer`.
#![tactic(auto)]

mod algorithm;
mod array_vec;
mod bank;
mod codes;
mod command;
pub mod laws;
mod parts;
mod reader;
mod refusal;
mod response;
mod selected;
mod state_change;
mod tpm;
mod type_bounds;

pub use algorithm::{Algorithm, Banks, SHA256_DIGEST_SIZE, SHA384_DIGEST_SIZE, digest_of};
pub use codes::RH_NULL;
pub use parts::{KEPT_PCR_COUNT, PCR_COUNT, SEED_SIZE, SavedParts, TpmParts};
pub use reader::{Reader, check_started_and_sessions};
pub use refusal::Refusal;
pub use response::answer_with;
pub use tpm::Tpm;
