//! The messages by which two hosts hand a virtual TPM over: their bytes, written by [`write_message`] and read from
//! pieces of any size by [`Reader`]. The format is our own (`docs/MIGRATION.md`). What a host does on a message, and
//! how bytes get from one host to the other, is left to others.
//!
//! ```
//! fn echo(alloc: Global, received: &[u8]) -> Result<Vec<u8>, AllocError> {
//!     let mut reader = Reader::new(alloc)?;
//!     let mut sent = Vec::new(alloc);
//!     let (_used, fed) = reader.feed(alloc, received)?;
//!     match fed {
//!         FedMessage::Whole(message) => write_message(alloc, &message, &mut sent)?,
//!         FedMessage::More | FedMessage::Bad(_) | FedMessage::Failed => {}
//!     }
//!     Ok(sent)
//! }
//! ```
#![tactic(auto)]

mod format;
mod grammar;
mod laws;
mod message;
mod names;
mod outline;
mod reader;
mod writing;

pub use format::LARGEST_PIECE;
pub use laws::{messages_are_in_range, messages_are_prefix_free, streams_are_read_once};
pub use message::{Body, Message};
pub use names::Part;
pub use reader::{FedMessage, Reader};
pub use writing::write_message;
