//! Scripts that are run on hosts: the library behind the program `crbsim`.
//!
//! [`run`] does what its words say over an input and an output. A script has guest accesses, worker steps, messages that
//! move the guest between two hosts, in any order and number, and faults of the links between CRB devices and TPM
//! emulators; or the commands that a polling driver sends to a guest that moves. A host is saved at the end of a
//! script, and another run goes on from what was saved. `bulk` makes its lines itself, and writes a digest of what they
//! give.
//!
//! ```
//! let mut source = MemSource::new(bytes, Vec::new(alloc));
//! let mut sink = MemSink::new(alloc, 1000, Vec::new(alloc))?;
//! let ran = run(alloc, &words, &mut source, &mut sink);
//! ```
//!
//! The source is read before the first line is done; the lines are those of `vt_script`, and the hosts those of
//! `vt_world`. What the caller does with the status and the hosts, and where source and sink come from, is left to it.
#![tactic(auto)]

mod action;
mod bulk;
mod decimal;
mod drive;
mod options;
mod output;
mod ran;
mod replay;
mod saved;
mod start;
mod suspend;
mod top;

pub use action::{Action, Task};
pub use ran::{End, Ran};
pub use start::Start;
pub use top::run;
