//! What a seat does of the messages between two hosts.
ghost use Rattle.std.specs.Prelude.{◌≡◌, IfOk, OnErr};
ghost use Rattle.move_core.specs.Calls.{Drains, Follows, GivesUp, HasBytes, IsNeed, Offers, said_again};
ghost use Rattle.move_core.specs.Counts.{CountsIf, delivered_by_link, drained_by_link, offered_by_link};
ghost use Rattle.move_core.specs.Hosts.{IsConsistentHost};
ghost use Rattle.move_core.specs.Table.{delivered};
ghost use Rattle.move_core.specs.declared.stage.MoveStage.TheVariants.{Draining};
ghost use Rattle.vt_seat.specs.Seats.{view_of};

use crate::seat::Seat;
use crb_port::Port;
use move_codec::Message;
use move_core::{Delivered, Gave, OfferFault, Offered};
use std::alloc::{AllocError, Global};

impl<P: Port> Seat<P> {
    /// Offers its guest to the other host; see [`move_core::Host::offer`].
    pub fn offer(&mut self) -> Result<Offered, OfferFault>
        ensures offers { Offers P.port_view self.old.host (view_of self.old) result (view_of self.new) self.new.host }
        ensures counts { CountsIf (offered_by_link result) self.old.faults self.new.faults }
        ensures progress { self.new.progress ≡ self.old.progress }
        ensures consistent { IsConsistentHost P.port_view self.old.host }
    {
        let _side = self.host.side();
        self.host.offer(&mut self.wires)
    }

    /// Makes the offer of a draining host once its command is done; see [`move_core::Host::drained`].
    pub fn drained(&mut self) -> Result<Option<Message>, OfferFault>
        requires drains { self.old.host.stage ≡ Draining }
        ensures drains { Drains P.port_view self.old.host (view_of self.old) result (view_of self.new) self.new.host }
        ensures counts { CountsIf (drained_by_link result) self.old.faults self.new.faults }
        ensures progress { self.new.progress ≡ self.old.progress }
        ensures consistent { IsConsistentHost P.port_view self.old.host }
    {
        let _side = self.host.side();
        self.host.drained(&mut self.wires)
    }

    /// Takes a message of the other host; see [`move_core::Host::deliver`]. A Piece needs at least one byte.
    pub fn deliver(&mut self, alloc: Global, m: &Message) -> Result<Delivered, AllocError>
        requires bytes { HasBytes m.now.body }
        ensures row { IfOk result (λ answer. Follows P.port_view (delivered self.old.host m.now) (view_of self.old) (view_of self.new) answer self.new.host) }
        ensures counts { IfOk result (λ answer. CountsIf (delivered_by_link answer) self.old.faults self.new.faults) }
        ensures progress { self.new.progress ≡ self.old.progress }
        ensures consistent { IsConsistentHost P.port_view self.old.host }
        ensures need { OnErr result (IsNeed m.now.body) }
        ensures same { OnErr result (self.new ≡ self.old) }
    {
        let _side = self.host.side();
        self.host.deliver(alloc, m, &mut self.wires)
    }

    /// Takes the offer back; see [`move_core::Host::give_up`].
    pub fn give_up(&mut self) -> Gave
        ensures gives_up { GivesUp P.port_view self.old.host result self.new.host }
        ensures others { self.new ≡ record self.old { host = self.new.host } }
        ensures consistent { IsConsistentHost P.port_view self.old.host }
    {
        let _side = self.host.side();
        self.host.give_up()
    }

    /// Prepared once more; see [`move_core::Host::again`].
    pub fn again(&self) -> Option<Message>
        ensures { result ≡ said_again self.now.host.stage self.now.host }
    {
        self.host.again()
    }
}
