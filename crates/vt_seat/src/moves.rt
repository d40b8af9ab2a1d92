//! A guest moves from one seat to another.
ghost use Rattle.std.specs.Prelude.{◌≡◌, ◌≤◌, ◌+◌, Some, OnOk, OnErr, IfSome};
ghost use Rattle.hand_over.specs.Counts.{commands_at};
ghost use Rattle.hand_over.specs.Ends.{HasMoved, IsGivenUp, IsCalm};
ghost use Rattle.hand_over.specs.Start.{CanMove};
ghost use Rattle.crb_worker.specs.declared.progress.Progress.TheVariants.{Free};
ghost use Rattle.vt_seat.specs.Seats.{view_of};

use crate::seat::Seat;
use crb_port::Port;
use hand_over::move_guest;
use std::alloc::{AllocError, Global};

impl<P: Port> Seat<P> {
    /// Moves its guest to another seat, each message from hand to hand. Message `lost` of the move is lost, where it is given;
    /// see [`hand_over::move_guest`]. Neither worker may have a claimed job.
    pub fn move_to(
        &mut self,
        alloc: Global,
        target: &mut Seat<P>,
        lost: Option<u32>,
    ) -> Result<(), AllocError>
        requires can_move { CanMove P.port_view self.old.host (view_of self.old) target.old.host (view_of target.old) }
        requires free { self.old.progress ≡ Free }
        requires target_free { target.old.progress ≡ Free }
        requires counted { IfSome lost (λ k. 1 ≤ k) }

        ensures moved { OnOk result (HasMoved P.port_view self.old.host (view_of self.old) target.old.host lost self.new.host target.new.host (view_of target.new)) }
        ensures given_up { OnErr result (IsGivenUp P.port_view self.old.host target.old.host self.new.host target.new.host) }
        ensures top { self.new.host.top ≡ self.old.host.top + 1 }
        ensures link { self.new.link ≡ self.old.link }
        ensures calm { IsCalm self.old.link.emulator.piece (view_of self.new) }
        ensures target_calm { IsCalm target.old.link.emulator.piece (view_of target.new) }
        ensures target_commands { commands_at (Some target.new.link) ≡ commands_at (Some target.old.link) }
        ensures names { (self.new.host.name ≡ self.old.host.name) × (target.new.host.name ≡ target.old.host.name) }
        ensures free { self.new.progress ≡ Free }
        ensures target_free { target.new.progress ≡ Free }
    {
        move_guest(
            alloc,
            &mut self.host,
            &mut self.wires,
            &mut target.host,
            &mut target.wires,
            lost,
        )
    }
}
