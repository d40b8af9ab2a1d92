//! Two hosts and the messages between them, as definitions: the history of one device over one TPM that lines and replies give,
//! and the one reply that each line of a script may have.
//!
//! A guest runs on host A at first. `offer` offers it to the other host, `deliver K` delivers the K-th message that was sent, in
//! any order, any number of times or never, and `giveup` takes the offer back. The definitions are in `specs/`:
//!
//! - `Deliveries`: what a message makes of its receiver's side, and the answer;
//! - `Hosts`: the two hosts after lines and replies;
//! - `Replies`: the reply that is due to each line;
//! - `RunningSet`: which hosts run, by the replies alone;
//! - `Invariant` and `Laws`: what is true after every transcript in turn;
//! - `WholeMove`: a move that nothing disturbs;
//! - `Drains`: how the command of a host that drains ends.
//!
//! [`laws`] has what follows from them. There is no code here that runs: the hosts themselves are those of `move_core`.
#![tactic(auto)]

pub mod laws;
