//! What a host shows of itself in a move.

/// What a host is in a move, with the epoch of the move where it takes part in one. The device is held at every side but
/// `Running` and `Draining`. (`docs/MIGRATION.md`, "Sides".)
#[derive(Clone, Copy, Debug, PartialEq, Eq)]
pub enum Side {
    /// It has no guest, and takes any offer.
    Empty,
    /// Its guest runs.
    Running,
    /// It has stopped its guest, and offers it once the worker has done the command that it has claimed. It may take the
    /// offer back.
    Draining,
    /// It has stopped its guest and offered it in this epoch. It may take the offer back.
    Offering(u64),
    /// It has sent Commit for this epoch, and never runs that guest again unless it is offered it anew.
    Released(u64),
    /// It asks for the parts of the offer of this epoch, one piece after the other.
    Filling(u64),
    /// Its device and its emulator have all parts of the offer of this epoch. It runs on Commit.
    Prepared(u64),
}
