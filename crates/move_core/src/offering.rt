//! The calls of a host by which a move begins, ends early, or goes on after a lost message.
ghost use Rattle.std.specs.Prelude.{◌≡◌, ◌≢◌, ◌+◌, ◌<◌, ◌≤◌, true, false, Ok, IfOk, IfErr};
ghost use Rattle.crb_port.specs.Calls.{KeepsWorker};
ghost use Rattle.crb_machine.specs.Over.{IsConsistentDevice, Stops};
ghost use Rattle.move_core.specs.Requests.{wires_view};
ghost use Rattle.move_core.specs.Parts.{model_of};
ghost use Rattle.move_core.specs.Hosts.{IsConsistentHost};
ghost use Rattle.move_core.specs.Calls.{Offers, Drains, OffersHeld, GivesUp, said_again};

use crate::answers::{Gave, OfferFault, Offered};
use crate::asking::totals;
use crate::parts::HostParts;
use crate::stage::MoveStage;
use crb_port::Port;
use crb_regs::Phase;
use ctrl_client::Wires;
use move_codec::{Body, Message};

impl<P: Port> HostParts<P> {
    // The offer of a running host whose device was stopped. The device stays held.
    fn offer_held<W: Wires>(&mut self, wires: &mut W) -> Result<Message, OfferFault>
        requires held { self.old.device.held ≡ true }
        requires consistent { IsConsistentDevice P.port_view self.old.device }
        ensures offers { let w = wires_view W.fails W.later (W.link wires.old) (W.schedule wires.old) (W.faults wires.old) (W.traffic wires.old) in
            let v = wires_view W.fails W.later (W.link wires.new) (W.schedule wires.new) (W.faults wires.new) (W.traffic wires.new) in
            OffersHeld (model_of self.old) w result v (model_of self.new) }
        ensures name { self.new.name ≡ self.old.name }
        ensures top { self.old.top ≤ self.new.top }
    {
        if let Phase::Lost = self.device.phase() {
            return Err(OfferFault::Device);
        }
        if self.top == u64::MAX {
            return Err(OfferFault::EpochEnd);
        }
        match totals(wires) {
            Ok((permanent, volatile, saved)) => {
                let record = self.record_bytes.write(&self.device);
                let totals = [record, permanent, volatile, saved];
                self.top += 1;
                let epoch = self.top;
                self.stage = MoveStage::Offering { epoch, totals };
                Ok(self.message(epoch, Body::Offer { totals }))
            }
            Err(fault) => Err(OfferFault::Wires(fault)),
        }
    }

    /// As [`Host::offer`](crate::Host::offer).
    pub fn offer<W: Wires>(&mut self, wires: &mut W) -> Result<Offered, OfferFault>
        requires consistent { IsConsistentHost P.port_view (model_of self.old) }
        ensures offers { let w = wires_view W.fails W.later (W.link wires.old) (W.schedule wires.old) (W.faults wires.old) (W.traffic wires.old) in
            let v = wires_view W.fails W.later (W.link wires.new) (W.schedule wires.new) (W.faults wires.new) (W.traffic wires.new) in
            Offers P.port_view (model_of self.old) w result v (model_of self.new) }
        ensures consistent { IsConsistentHost P.port_view (model_of self.new) }
        ensures worker { KeepsWorker (P.port_view self.old.device.port) (P.port_view self.new.device.port) }
        ensures rest_unchanged { P.rest self.new.device.port ≡ P.rest self.old.device.port }
        ensures name { self.new.name ≡ self.old.name }
        ensures top { self.old.top ≤ self.new.top }
    {
        if !self.stage.is_running() {
            return Err(OfferFault::Stopped);
        }
        if let Err(not_yet) = self.device.stop() {
            if self.top == u64::MAX {
                return Err(OfferFault::EpochEnd);
            }
            self.stage = MoveStage::Draining;
            return Ok(Offered::Draining {
                number: not_yet.number,
            });
        }
        match self.offer_held(wires) {
            Ok(m) => Ok(Offered::Sent(m)),
            Err(fault) => {
                self.device.go_on();
                Err(fault)
            }
        }
    }

    /// As [`Host::drained`](crate::Host::drained).
    pub fn drained<W: Wires>(&mut self, wires: &mut W) -> Result<Option<Message>, OfferFault>
        requires drains { self.old.stage ≡ MoveStage.Draining }
        requires consistent { IsConsistentHost P.port_view (model_of self.old) }
        ensures drains { let w = wires_view W.fails W.later (W.link wires.old) (W.schedule wires.old) (W.faults wires.old) (W.traffic wires.old) in
            let v = wires_view W.fails W.later (W.link wires.new) (W.schedule wires.new) (W.faults wires.new) (W.traffic wires.new) in
            Drains P.port_view (model_of self.old) w result v (model_of self.new) }
        ensures consistent { IsConsistentHost P.port_view (model_of self.new) }
        ensures worker { KeepsWorker (P.port_view self.old.device.port) (P.port_view self.new.device.port) }
        ensures rest_unchanged { P.rest self.new.device.port ≡ P.rest self.old.device.port }
        ensures name { self.new.name ≡ self.old.name }
        ensures top { self.old.top ≤ self.new.top }
    {
        if let Err(_not_yet) = self.device.stop() {
            return Ok(None);
        }
        self.stage = MoveStage::Running;
        match self.offer_held(wires) {
            Ok(m) => Ok(Some(m)),
            Err(fault) => {
                self.device.go_on();
                Err(fault)
            }
        }
    }

    /// As [`Host::give_up`](crate::Host::give_up).
    pub fn give_up(&mut self) -> Gave
        requires consistent { IsConsistentHost P.port_view (model_of self.old) }
        ensures gives_up { GivesUp P.port_view (model_of self.old) result (model_of self.new) }
        ensures consistent { IsConsistentHost P.port_view (model_of self.new) }
        ensures worker { KeepsWorker (P.port_view self.old.device.port) (P.port_view self.new.device.port) }
        ensures rest_unchanged { P.rest self.new.device.port ≡ P.rest self.old.device.port }
        ensures name { self.new.name ≡ self.old.name }
        ensures top { self.old.top ≤ self.new.top }
    {
        match self.stage {
            MoveStage::Offering { epoch, .. } => {
                self.resume();
                Gave::Abort(self.message(epoch, Body::Abort))
            }
            MoveStage::Draining => {
                self.stage = MoveStage::Running;
                Gave::Undrained
            }
            _ => Gave::NotOffering,
        }
    }

    /// As [`Host::again`](crate::Host::again).
    pub fn again(&self) -> Option<Message>
        ensures { result ≡ said_again self.now.stage (model_of self.now) }
    {
        let MoveStage::Prepared { epoch } = self.stage else {
            return None;
        };
        Some(self.message(epoch, Body::Prepared))
    }
}
