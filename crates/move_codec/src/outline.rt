// Messages as their fixed fields give them.
ghost use Rattle.std.specs.Prelude.{◌≡◌, IfOk};
ghost use Rattle.move_codec.specs.Outlines.{message_of};

use crate::message::{Body, Message};
use crate::names::Part;
use std::alloc::{AllocError, Global};
use vt_base::{Bytes, HostName, Reason};

/// What a message says, but for the bytes of a piece.
#[derive(Clone, Copy)]
pub(crate) enum Shape {
    Offer { totals: [u32; 4] },
    Need { part: Part, offset: u32 },
    Piece { part: Part, offset: u32 },
    Prepared,
    Commit,
    Abort,
    Refuse { reason: Reason, value: u32 },
}

/// A message, but for the bytes of a piece: what a parser can know with no memory of its own.
#[derive(Clone, Copy)]
pub(crate) struct Outline {
    pub to: HostName,
    pub epoch: u64,
    pub shape: Shape,
}

impl Outline {
    /// The message, with these bytes where it is a piece.
    pub(crate) fn filled(self, alloc: Global, bytes: &[u8]) -> Result<Message, AllocError>
        ensures { IfOk result (λ m. m ≡ message_of self bytes.now) }
    {
        let body = match self.shape {
            Shape::Offer { totals } => Body::Offer { totals },
            Shape::Need { part, offset } => Body::Need { part, offset },
            Shape::Piece { part, offset } => {
                let bytes = Bytes::from_slice(alloc, bytes)?;
                Body::Piece {
                    part,
                    offset,
                    bytes,
                }
            }
            Shape::Prepared => Body::Prepared,
            Shape::Commit => Body::Commit,
            Shape::Abort => Body::Abort,
            Shape::Refuse { reason, value } => Body::Refuse { reason, value },
        };
        Ok(Message {
            to: self.to,
            epoch: self.epoch,
            body,
        })
    }
}
