//! The worlds that a script or a driver acts on: two hosts between which a guest moves.
//!
//! A [`World`] begins with a reset device over a TPM that was powered on once, at host A, and an empty host B.
//! [`World::step`] does one line of a script and gives its reply. Its contract says that the replies are those of one
//! device over one TPM that never moved, whichever messages come and whichever calls fail, and what both hosts have after
//! each line. [`World::guest`] does the lines of the guest alone, and takes no memory.
//!
//! ```
//! let mut world = World::new(alloc, [0; SEED_SIZE], Banks::Two, 4096)?;
//! for line in lines {
//!     let Some(event) = parse_line(line) else {
//!         break;
//!     };
//!     let reply = world.step(alloc, &event)?;
//!     print_reply(alloc, &reply, &mut text)?;
//! }
//! ```
//!
//! [`World::save`] appends all that host A is to bytes, unless its worker has a pending command, and leaves it as it
//! was; [`World::load`] makes a world of such bytes whose A goes on where the saved one was, or says why they are none.
//! The layout is that of [`saved_stream`].
//!
//! A [`Pair`] is two hosts without a bag, of which one runs a guest, each over wires of its own. [`Pair::move_all`] moves the
//! guest to the other host, each message from hand to hand; the laws in [`laws`] say that it goes on there where its history
//! leads.
//!
//! World and pair are each a [`crb_driver::Bus`] too: the worker takes a step after each read of START then. When else it
//! takes one is left to the caller, and so are reading lines and writing replies.
#![tactic(auto)]

mod bus;
pub mod laws;
mod messages;
mod pair;
mod saving;
mod world;

pub use pair::Pair;
pub use saving::Loaded;
pub use vt_seat::{MemWires, Saved};
pub use world::World;
