//! What a port's two ends did.
use crate::rule::TableSeat;
use std::marker::Model;
use std::snapshot::Snapshot;

/// Which of the four lists it is.
#[derive(Clone, Copy, Drop)]
pub(crate) enum ListKind {
    Queued,
    Taken,
    Posted,
    Collected,
}

/// To a contract a list of numbers, each with its bytes, and whether its job is cancelled or the outcome of its answer. A
/// running program can't read it.
#[derive(Drop)]
pub struct Numbers {
    kind: ListKind,
    seat: Snapshot<TableSeat>,
}

impl Model for Numbers {
    ghost use Rattle.std.specs.Prelude.{List};
    ghost use Rattle.crb_shared.specs.Entries.{Entry, entries};

    ghost Value = { List Entry };

    ghost view = { λ s. entries s.kind s.seat.value.me.0 };
}

impl Numbers {
    ghost use Rattle.std.specs.Prelude.{◌≡◌};
    ghost use Rattle.crb_shared.specs.Entries.{entries};

    pub(crate) fn of(kind: ListKind, seat: &TableSeat) -> Numbers
        ensures entries { result ≡ entries kind seat.now.me.0 }
    {
        Numbers {
            kind,
            seat: Snapshot::of(seat),
        }
    }
}

/// The jobs that the guest queued and the worker took, and the answers that the worker posted and the guest collected.
#[derive(Drop)]
pub struct Lists {
    pub queued: Numbers,
    pub taken: Numbers,
    pub posted: Numbers,
    pub collected: Numbers,
}
