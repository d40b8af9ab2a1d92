//! One of two hosts between which a virtual TPM moves: a [`Host`] owns the device that its guest sees, and knows its
//! [`Side`] in the move.
//!
//! A move has five steps. The source makes an Offer ([`Host::offer`]). If a command is claimed then, the source drains: its
//! guest stops, and the Offer comes from [`Host::drained`] once the command is done. The target asks for the state piece by
//! piece, by Need and Piece. It says Prepared once its emulator has taken all of it. The source lets go and says Commit, and
//! then the target runs. Each message is given to its receiver by [`Host::deliver`], which follows the one row of the table
//! of deliveries (`docs/MIGRATION.md`) for that message at that side, and answers what is to be sent. A source that
//! waits in vain takes its offer back ([`Host::give_up`]). A target that waits for its Commit says Prepared again
//! ([`Host::again`]).
//!
//! The definition of the table is `specs/Table.antt`, and what each call does is `specs/Calls.antt`. The message format
//! is `move_codec`'s, and requests to the emulator are `ctrl_client`'s. How messages get from one host to the other, and
//! how often, is left to others: any message may come at any time, late, twice or never.
//!
//! ```
//! fn answer<P: Port, W: Wires>(alloc: Global, host: &mut Host<P>, message: &Message, wires: &mut W) -> Result<Option<Message>, AllocError>
//!     requires bytes { HasBytes message.now.body }
//! {
//!     Ok(match host.deliver(alloc, message, wires)? {
//!         Delivered::Sent(reply) | Delivered::Refused(reply) => Some(reply),
//!         Delivered::Ignored | Delivered::Took | Delivered::Runs | Delivered::Resumed | Delivered::Wires(_) => None,
//!     })
//! }
//! ```
#![tactic(auto)]

mod answers;
mod asking;
mod host;
pub mod laws;
mod names;
mod offering;
mod parts;
mod record_buf;
mod recording;
mod rows;
mod side;
mod stage;
mod work;

pub use answers::{Delivered, Gave, OfferFault, Offered, RecordFault};
pub use host::Host;
pub use side::Side;
pub use stage::MoveStage;
