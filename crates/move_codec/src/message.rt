// Messages as values.
ghost use Rattle.std.specs.Prelude.{◌≡◌};
ghost use Rattle.move_codec.specs.Encoding.{kind_of};

use crate::names::{Kind, Part};
use vt_base::{Bytes, HostName, Reason};

/// What a message says.
#[derive(Debug, Drop)]
pub enum Body {
    /// The sender would hand its TPM over: how many bytes each [`Part`] has, in their order.
    Offer {
        totals: [u32; 4],
    },
    /// The receiver of an offer wants a part's bytes from this offset on.
    Need {
        part: Part,
        offset: u32,
    },
    /// Some bytes of a part, the first of them at this offset: 1 to [`LARGEST_PIECE`](crate::LARGEST_PIECE).
    Piece {
        part: Part,
        offset: u32,
        bytes: Bytes,
    },
    /// All parts have come, and the emulator has taken them.
    Prepared,
    /// The sender of the offer has let go: the receiver is to run.
    Commit,
    /// The sender takes its offer back.
    Abort,
    /// An offer or a piece is refused. The value says more: the first bad part of the totals, the place in the record,
    /// the emulator's result, the place in its reply, and 0 otherwise.
    Refuse {
        reason: Reason,
        value: u32,
    },
}

impl Body {
    pub(crate) fn kind(&self) -> Kind
        ensures { result ≡ kind_of self.now }
    {
        match self {
            Body::Offer { .. } => Kind::Offer,
            Body::Need { .. } => Kind::Need,
            Body::Piece { .. } => Kind::Piece,
            Body::Prepared => Kind::Prepared,
            Body::Commit => Kind::Commit,
            Body::Abort => Kind::Abort,
            Body::Refuse { .. } => Kind::Refuse,
        }
    }
}

/// A migration message.
#[derive(Debug, Drop)]
pub struct Message {
    /// The host that it is meant for.
    pub to: HostName,
    /// Which offer it belongs to.
    pub epoch: u64,
    pub body: Body,
}
