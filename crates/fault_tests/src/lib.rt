//! Each call fails in turn: every read, write and wire call of a run, every byte of a saved stream and of the messages.
//!
//! What a clause says isn't tried again. These tables show that the causes and the model of a fault are those of the
//! format pages: the expected replies, refusals and places are worked out here, from the tables in `docs/`.
#![tactic(auto)]

#[cfg(test)]
mod calls;
#[cfg(test)]
mod failing;
#[cfg(test)]
mod pieces;
#[cfg(test)]
mod requests;
#[cfg(test)]
mod streams;
#[cfg(test)]
mod wires;
