//! Requests from a host to one TPM emulator, over the link to it.
//!
//! ```text
//! // The host gives the emulator a blob in pieces, and switches it on.
//! for piece in state.chunks(LARGEST_PIECE) {
//!     put_piece(&mut wires, Kind::Permanent, piece)?;
//! }
//! let size = set_buffer(&mut wires, 2048)?;
//! init(&mut wires, 0)?;
//! // Commands go over the other channel of the wires. One that takes too long is cancelled.
//! cancel(&mut wires)?;
//! // The volatile state, a piece at a time: piece.length bytes of piece.total stand at the start of `into`.
//! let (mut into, mut at) = ([0; LARGEST_PIECE], 0);
//! loop {
//!     let piece = get_piece(&mut wires, Kind::Volatile, at, &mut into)?;
//!     at += piece.length;
//!     if at == piece.total { break; }
//! }
//! stop(&mut wires)?;
//! ```
//!
//! Each call sends one request and takes its whole reply before it ends. [`ClientFault`] says why there was no good one: a
//! call on the wires failed, the emulator answered a result that isn't 0, or a field of the reply can't stand. The messages
//! are those of `ctrl_codec`; what the emulator does with each is a definition of `ctrl_model`, which it is proved against.
//!
//! The wires are left to the caller: [`Wires`] says what a send, a receive and a cut have to do. Where a send fails the
//! emulator never saw the request; where a receive fails it obeyed it, and the reply is lost. [`ClientFault::Link`] doesn't
//! say which: where it matters whether the request was obeyed, ask the emulator. Nothing is sent twice here. Where
//! [`get_piece`] refuses a reply of which more bytes may come, it cuts the control channel, or they were the next reply.
#![tactic(auto)]

mod client;
mod fault;
pub mod laws;
mod pieces;
mod places;
mod receive;
mod wires;

pub use client::{cancel, init, put_piece, stop};
pub use fault::ClientFault;
pub use pieces::{get_piece, set_buffer};
pub use receive::receive_exact;
pub use wires::Wires;
