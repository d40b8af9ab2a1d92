//! A side of a host, with what the host has to know there.
ghost use Rattle.std.specs.Prelude.{◌≡◌};
ghost use Rattle.move_core.specs.Sides.{side_of, is_running, is_active};

use crate::side::Side;
use move_codec::Part;

/// A [`Side`](crate::Side), with what its host has to know there. Contracts speak of it as the field `stage` of a host.
#[derive(Clone, Copy)]
pub enum MoveStage {
    Empty,
    Running,
    /// A command is claimed and unfinished, or its answer is still in the port.
    Draining,
    /// An offer of parts with these lengths, in bytes, in the order of [`Part`].
    Offering {
        epoch: u64,
        totals: [u32; 4],
    },
    Released {
        epoch: u64,
    },
    /// `place` bytes of `part` have come, and all bytes of the parts before it. The parts have these lengths, in bytes.
    Filling {
        epoch: u64,
        totals: [u32; 4],
        part: Part,
        place: u32,
    },
    Prepared {
        epoch: u64,
    },
}

impl MoveStage {
    /// The side alone.
    pub fn side(self) -> Side
        ensures { result ≡ side_of self }
    {
        match self {
            MoveStage::Empty => Side::Empty,
            MoveStage::Running => Side::Running,
            MoveStage::Draining => Side::Draining,
            MoveStage::Offering { epoch, .. } => Side::Offering(epoch),
            MoveStage::Released { epoch } => Side::Released(epoch),
            MoveStage::Filling { epoch, .. } => Side::Filling(epoch),
            MoveStage::Prepared { epoch } => Side::Prepared(epoch),
        }
    }

    /// Whether the guest runs here.
    pub fn is_running(self) -> bool
        ensures { result ≡ is_running self }
    {
        matches!(self, MoveStage::Running)
    }

    /// Whether the guest runs here, or may run again without a message of the other host. Such a host takes no offer.
    pub fn is_active(self) -> bool
        ensures { result ≡ is_active self }
    {
        matches!(
            self,
            MoveStage::Running | MoveStage::Draining | MoveStage::Offering { .. }
        )
    }
}
