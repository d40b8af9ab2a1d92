//! The port between the guest's thread and the worker's.
//!
//! A [`SharedPort`] has two ends: a [`GuestEnd`] is a `Port` and a [`WorkerEnd`] is a `WorkPort`, and each may be moved to a
//! thread of its own. They share one atomic word, which says whose turn it is, and one slot, in which the job or the answer
//! lies. No call of an end waits or takes memory. [`close`] brings the two ends together, and says how what each of them did
//! is related.
//!
//! Each step on the word keeps a rule (`specs/Rule.antt`), whatever the order of the two threads' steps.
#![tactic(auto)]

mod closing;
mod ends;
mod lists;
mod plays;
mod rule;
mod steps;

pub use closing::close;
pub use ends::{GuestEnd, SharedPort, WorkerEnd};
pub use lists::{Lists, Numbers};
