//! Four commands more for the TPM of [`tpm_core`], which ordinary tools ask first: SelfTest, GetCapability, GetTestResult and
//! Hash. None of them changes a value of the TPM, and none takes memory.
//!
//! ```text
//! let size = execute_more(&mut tpm, &command, &mut into);
//! let response = &into.bytes()[..size];
//! ```
//!
//! [`execute_more`] answers all nine commands: it hands the other five, and all that no header passes, to
//! [`tpm_core::Tpm::execute`].
#![tactic(auto)]

mod capabilities;
mod codes;
mod commands;
mod entry;
mod execute;
pub mod laws;

pub use execute::execute_more;
