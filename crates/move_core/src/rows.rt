//! The table of deliveries: a function for each kind of message, which follows the row for the host's side, or ignores the
//! message. The answer of the emulator is an argument of the function that goes by it.
ghost use Rattle.std.specs.Prelude.{◌≡◌, ◌≢◌, ◌+◌, ◌<◌, ◌≤◌, ℕ, true, false, [], length, None, Some, IfOk, OnErr, OnOk};
ghost use Rattle.move_core.specs.Requests.{wires_view};
ghost use Rattle.move_core.specs.Sides.{is_active, total_of, first_bad};
ghost use Rattle.move_core.specs.Parts.{model_of};
ghost use Rattle.move_core.specs.Hosts.{IsConsistentHost, AreTotals, Decodes};
ghost use Rattle.vt_base.specs.declared.types.Malformed.{Malformed};
ghost use Rattle.crb_machine.specs.Values.{DeviceValues};
ghost use Rattle.crb_machine.specs.Over.{IsConsistentDevice};
ghost use Rattle.crb_port.specs.Calls.{KeepsWorker};
ghost use Rattle.std.specs.Prelude.{Result};
ghost use Rattle.move_core.specs.Table.{on_offer, takes_offer, begins, on_need, gives, gives_record, passes_on, on_piece, takes_piece, took, reaches, goes_to, wants, loads, on_prepared, on_commit, on_abort, on_refuse, on_message, delivered};
ghost use Rattle.move_core.specs.Calls.{Follows, FollowsAlone, Resumes, EndsIn, HasBytes, IsNeed};

use crate::answers::Delivered;
use crate::asking::{Fetched, fetch, give, give_last, switch_off};
use crate::names::{first_bad, is_next, is_same, part_after, total_of};
use crate::parts::HostParts;
use crate::stage::MoveStage;
use crb_port::Port;
use ctrl_client::{ClientFault, Wires};
use ctrl_model::TOTAL_PLACE;
use device_record::load_record;
use move_codec::{Body, Message, Part, messages_are_in_range};
use std::alloc::{AllocError, Global};
use vt_base::{Bytes, Kind, Reason};

impl<P: Port> HostParts<P> {
    // The host gives up its part in the move, and has no guest.
    fn empty(&mut self)
        ensures emptied { self.new ≡ record self.old { stage = MoveStage.Empty; record_bytes = [] } }
        ensures device { self.new.device ≡ self.old.device }
        ensures name { self.new.name ≡ self.old.name }
        ensures top { self.old.top ≤ self.new.top }
    {
        self.stage = MoveStage::Empty;
        self.record_bytes.clear();
    }

    // An Offer, by whether the emulator was switched off: the record is asked for from its start.
    fn begin(&mut self, epoch: u64, totals: [u32; 4], off: Result<(), ClientFault>) -> Delivered
        ensures made { EndsIn P.port_view (begins (model_of self.old) epoch totals off) result (model_of self.new) }
        ensures device { self.new.device ≡ self.old.device }
        ensures name { self.new.name ≡ self.old.name }
        ensures top { self.old.top ≤ self.new.top }
    {
        if let Err(fault) = off {
            self.empty();
            return self.refusal_for(epoch, fault);
        }
        self.stage = MoveStage::Filling {
            epoch,
            totals,
            part: Part::Record,
            place: 0,
        };
        self.record_bytes.clear();
        Delivered::Sent(self.message(
            epoch,
            Body::Need {
                part: Part::Record,
                offset: 0,
            },
        ))
    }

    // An Offer to a host that neither runs nor offers.
    fn take_offer<W: Wires>(&mut self, epoch: u64, totals: &[u32; 4], wires: &mut W) -> Delivered
        ensures row { let w = wires_view W.fails W.later (W.link wires.old) (W.schedule wires.old) (W.faults wires.old) (W.traffic wires.old) in
            let v = wires_view W.fails W.later (W.link wires.new) (W.schedule wires.new) (W.faults wires.new) (W.traffic wires.new) in
            Follows P.port_view (takes_offer (model_of self.old) epoch totals.now (first_bad totals.now)) w v result (model_of self.new) }
        ensures device { self.new.device ≡ self.old.device }
        ensures name { self.new.name ≡ self.old.name }
        ensures top { self.old.top ≤ self.new.top }
    {
        if let Some(bad) = first_bad(totals) {
            self.empty();
            return self.refusal(epoch, Reason::Totals, bad);
        }
        let off = switch_off(wires);
        self.begin(epoch, *totals, off)
    }

    // An Offer: ignored unless its epoch is above all that were seen, and refused where the guest runs or is offered here.
    fn on_offer<W: Wires>(&mut self, epoch: u64, totals: &[u32; 4], wires: &mut W) -> Delivered
        ensures row { let w = wires_view W.fails W.later (W.link wires.old) (W.schedule wires.old) (W.faults wires.old) (W.traffic wires.old) in
            let v = wires_view W.fails W.later (W.link wires.new) (W.schedule wires.new) (W.faults wires.new) (W.traffic wires.new) in
            Follows P.port_view (on_offer (model_of self.old) epoch totals.now) w v result (model_of self.new) }
        ensures device { self.new.device ≡ self.old.device }
        ensures name { self.new.name ≡ self.old.name }
        ensures top { self.old.top ≤ self.new.top }
    {
        if epoch <= self.top {
            return Delivered::Ignored;
        }
        if self.stage.is_active() {
            return self.refusal(epoch, Reason::Busy, 0);
        }
        self.top = epoch;
        self.take_offer(epoch, totals, wires)
    }

    // A Need for a part of the TPM, by what the emulator answered.
    fn pass_on(
        &self,
        epoch: u64,
        total: u32,
        part: Part,
        offset: u32,
        got: Result<Fetched, ClientFault>,
    ) -> Delivered
        ensures made { EndsIn P.port_view (passes_on (model_of self.now) epoch total part offset got) result (model_of self.now) }
    {
        match got {
            Ok(piece) => {
                if piece.total != total {
                    return Delivered::Wires(ClientFault::Reply(TOTAL_PLACE));
                }
                let bytes = piece.bytes;
                Delivered::Sent(self.message(
                    epoch,
                    Body::Piece {
                        part,
                        offset,
                        bytes,
                    },
                ))
            }
            Err(fault) => Delivered::Wires(fault),
        }
    }

    // A Need for the record: the bytes from this offset on, as many as a piece has.
    fn give_record(&self, alloc: Global, epoch: u64, offset: u32) -> Result<Delivered, AllocError>
        requires within { offset ≤ length self.now.record_bytes }
        ensures made { IfOk result (λ answer. EndsIn P.port_view (gives_record (model_of self.now) epoch offset) answer (model_of self.now)) }
    {
        let bytes = self.record_bytes.bytes();
        let left = &bytes[offset as usize..];
        let count = left.len().min(self.piece as usize);
        let bytes = Bytes::from_slice(alloc, &left[..count])?;
        Ok(Delivered::Sent(self.message(
            epoch,
            Body::Piece {
                part: Part::Record,
                offset,
                bytes,
            },
        )))
    }

    // A Need for bytes that there are.
    fn give_piece<W: Wires>(
        &self,
        alloc: Global,
        epoch: u64,
        total: u32,
        part: Part,
        offset: u32,
        wires: &mut W,
    ) -> Result<Delivered, AllocError>
        requires in_record { part ≡ Part.Record → offset ≤ length self.now.record_bytes }
        ensures row { IfOk result (λ answer. let w = wires_view W.fails W.later (W.link wires.old) (W.schedule wires.old) (W.faults wires.old) (W.traffic wires.old) in
            let v = wires_view W.fails W.later (W.link wires.new) (W.schedule wires.new) (W.faults wires.new) (W.traffic wires.new) in
            Follows P.port_view (gives (model_of self.now) epoch total part offset) w v answer (model_of self.now)) }
        ensures err { OnErr result (wires.new ≡ wires.old) }
    {
        match part {
            Part::Record => self.give_record(alloc, epoch, offset),
            Part::Permanent => {
                let got = fetch(alloc, wires, Kind::Permanent, offset)?;
                Ok(self.pass_on(epoch, total, part, offset, got))
            }
            Part::Volatile => {
                let got = fetch(alloc, wires, Kind::Volatile, offset)?;
                Ok(self.pass_on(epoch, total, part, offset, got))
            }
            Part::Saved => {
                let got = fetch(alloc, wires, Kind::Saved, offset)?;
                Ok(self.pass_on(epoch, total, part, offset, got))
            }
        }
    }

    // A Need: followed where the offer of its epoch is open, for an offset within the part.
    fn on_need<W: Wires>(
        &self,
        alloc: Global,
        epoch: u64,
        part: Part,
        offset: u32,
        wires: &mut W,
    ) -> Result<Delivered, AllocError>
        requires consistent { IsConsistentHost P.port_view (model_of self.now) }
        ensures row { IfOk result (λ answer. let w = wires_view W.fails W.later (W.link wires.old) (W.schedule wires.old) (W.faults wires.old) (W.traffic wires.old) in
            let v = wires_view W.fails W.later (W.link wires.new) (W.schedule wires.new) (W.faults wires.new) (W.traffic wires.new) in
            Follows P.port_view (on_need (model_of self.now) self.now.stage epoch part offset) w v answer (model_of self.now)) }
        ensures err { OnErr result (wires.new ≡ wires.old) }
    {
        let MoveStage::Offering { epoch: e, totals } = self.stage else {
            return Ok(Delivered::Ignored);
        };
        let total = total_of(&totals, part);
        if e != epoch || offset >= total {
            return Ok(Delivered::Ignored);
        }
        self.give_piece(alloc, epoch, total, part, offset, wires)
    }

    // The next bytes of a part are asked for.
    fn want(&mut self, epoch: u64, totals: [u32; 4], part: Part, place: u32) -> Delivered
        ensures made { EndsIn P.port_view (wants (model_of self.old) epoch totals part place) result (model_of self.new) }
        ensures device { self.new.device ≡ self.old.device }
        ensures name { self.new.name ≡ self.old.name }
        ensures top { self.old.top ≤ self.new.top }
    {
        self.stage = MoveStage::Filling {
            epoch,
            totals,
            part,
            place,
        };
        Delivered::Sent(self.message(
            epoch,
            Body::Need {
                part,
                offset: place,
            },
        ))
    }

    // All bytes of a part have come: the next part is asked for, or the host is prepared.
    fn go_to(&mut self, epoch: u64, totals: [u32; 4], next: Option<Part>) -> Delivered
        ensures made { EndsIn P.port_view (goes_to (model_of self.old) epoch totals next) result (model_of self.new) }
        ensures device { self.new.device ≡ self.old.device }
        ensures name { self.new.name ≡ self.old.name }
        ensures top { self.old.top ≤ self.new.top }
    {
        match next {
            Some(part) => self.want(epoch, totals, part, 0),
            None => {
                self.stage = MoveStage::Prepared { epoch };
                Delivered::Sent(self.message(epoch, Body::Prepared))
            }
        }
    }

    // `place` bytes of a part have come.
    fn reach(&mut self, epoch: u64, totals: [u32; 4], part: Part, place: u32) -> Delivered
        ensures made { EndsIn P.port_view (reaches (model_of self.old) epoch totals part place) result (model_of self.new) }
        ensures device { self.new.device ≡ self.old.device }
        ensures name { self.new.name ≡ self.old.name }
        ensures top { self.old.top ≤ self.new.top }
    {
        if place < total_of(&totals, part) {
            return self.want(epoch, totals, part, place);
        }
        self.go_to(epoch, totals, part_after(part))
    }

    // A Piece of the TPM, by what the emulator answered.
    fn take_answer(
        &mut self,
        epoch: u64,
        totals: [u32; 4],
        part: Part,
        place: u32,
        given: Result<(), ClientFault>,
    ) -> Delivered
        ensures made { EndsIn P.port_view (took (model_of self.old) epoch totals part place given) result (model_of self.new) }
        ensures device { self.new.device ≡ self.old.device }
        ensures name { self.new.name ≡ self.old.name }
        ensures top { self.old.top ≤ self.new.top }
    {
        match given {
            Ok(()) => self.reach(epoch, totals, part, place),
            Err(fault) => {
                self.empty();
                self.refusal_for(epoch, fault)
            }
        }
    }

    // The device gets the values of the record, or the bytes are none.
    fn load(&mut self, epoch: u64, totals: [u32; 4]) -> Delivered
        requires held { self.old.device.held ≡ true }
        requires consistent { IsConsistentDevice P.port_view self.old.device }
        ensures row { (r : Result DeviceValues Malformed) × Decodes self.old.record_bytes r × EndsIn P.port_view (loads (model_of self.old) epoch totals self.old.record_bytes r) result (model_of self.new) }
        ensures consistent { IsConsistentDevice P.port_view self.new.device }
        ensures worker { KeepsWorker (P.port_view self.old.device.port) (P.port_view self.new.device.port) }
        ensures rest_unchanged { P.rest self.new.device.port ≡ P.rest self.old.device.port }
        ensures name { self.new.name ≡ self.old.name }
        ensures top { self.old.top ≤ self.new.top }
    {
        match load_record(&mut self.device, self.record_bytes.bytes()) {
            Ok(()) => self.go_to(epoch, totals, part_after(Part::Record)),
            Err(fault) => {
                self.empty();
                self.refusal(epoch, Reason::Record, fault.place)
            }
        }
    }

    // The next Piece of the record.
    fn take_record(&mut self, epoch: u64, totals: [u32; 4], place: u32, bytes: &[u8]) -> Delivered
        requires held { self.old.device.held ≡ true }
        requires consistent { IsConsistentDevice P.port_view self.old.device }
        requires room { length self.old.record_bytes + length bytes.now ≤ 4096 }
        ensures row { FollowsAlone P.port_view (takes_piece (model_of self.old) epoch totals Part.Record place bytes.now) result (model_of self.new) }
        ensures consistent { IsConsistentDevice P.port_view self.new.device }
        ensures worker { KeepsWorker (P.port_view self.old.device.port) (P.port_view self.new.device.port) }
        ensures rest_unchanged { P.rest self.new.device.port ≡ P.rest self.old.device.port }
        ensures name { self.new.name ≡ self.old.name }
        ensures top { self.old.top ≤ self.new.top }
    {
        self.record_bytes.append(bytes);
        if place < total_of(&totals, Part::Record) {
            return self.want(epoch, totals, Part::Record, place);
        }
        self.load(epoch, totals)
    }

    // The next Piece of the last part.
    fn take_saved<W: Wires>(
        &mut self,
        epoch: u64,
        totals: [u32; 4],
        place: u32,
        bytes: &[u8],
        wires: &mut W,
    ) -> Delivered
        requires some { 0 < length bytes.now }
        requires most { length bytes.now ≤ 4096 }
        ensures row { let w = wires_view W.fails W.later (W.link wires.old) (W.schedule wires.old) (W.faults wires.old) (W.traffic wires.old) in
            let v = wires_view W.fails W.later (W.link wires.new) (W.schedule wires.new) (W.faults wires.new) (W.traffic wires.new) in
            Follows P.port_view (takes_piece (model_of self.old) epoch totals Part.Saved place bytes.now) w v result (model_of self.new) }
        ensures device { self.new.device ≡ self.old.device }
        ensures name { self.new.name ≡ self.old.name }
        ensures top { self.old.top ≤ self.new.top }
    {
        if place < total_of(&totals, Part::Saved) {
            let given = give(wires, Kind::Saved, bytes);
            return self.take_answer(epoch, totals, Part::Saved, place, given);
        }
        let given = give_last(wires, bytes);
        self.take_answer(epoch, totals, Part::Saved, place, given)
    }

    // The next Piece. With it `place` bytes of its part have come.
    fn take_piece<W: Wires>(
        &mut self,
        epoch: u64,
        totals: [u32; 4],
        part: Part,
        place: u32,
        bytes: &[u8],
        wires: &mut W,
    ) -> Delivered
        requires held { self.old.device.held ≡ true }
        requires consistent { IsConsistentDevice P.port_view self.old.device }
        requires some { 0 < length bytes.now }
        requires most { length bytes.now ≤ 4096 }
        requires room { part ≡ Part.Record → length self.old.record_bytes + length bytes.now ≤ 4096 }
        ensures row { let w = wires_view W.fails W.later (W.link wires.old) (W.schedule wires.old) (W.faults wires.old) (W.traffic wires.old) in
            let v = wires_view W.fails W.later (W.link wires.new) (W.schedule wires.new) (W.faults wires.new) (W.traffic wires.new) in
            Follows P.port_view (takes_piece (model_of self.old) epoch totals part place bytes.now) w v result (model_of self.new) }
        ensures consistent { IsConsistentDevice P.port_view self.new.device }
        ensures worker { KeepsWorker (P.port_view self.old.device.port) (P.port_view self.new.device.port) }
        ensures rest_unchanged { P.rest self.new.device.port ≡ P.rest self.old.device.port }
        ensures name { self.new.name ≡ self.old.name }
        ensures top { self.old.top ≤ self.new.top }
    {
        match part {
            Part::Record => self.take_record(epoch, totals, place, bytes),
            Part::Permanent => {
                let given = give(wires, Kind::Permanent, bytes);
                self.take_answer(epoch, totals, part, place, given)
            }
            Part::Volatile => {
                let given = give(wires, Kind::Volatile, bytes);
                self.take_answer(epoch, totals, part, place, given)
            }
            Part::Saved => self.take_saved(epoch, totals, place, bytes, wires),
        }
    }

    // A Piece: followed where it has the bytes that were asked for last.
    fn on_piece<W: Wires>(
        &mut self,
        epoch: u64,
        part: Part,
        offset: u32,
        bytes: &[u8],
        wires: &mut W,
    ) -> Delivered
        requires consistent { IsConsistentHost P.port_view (model_of self.old) }
        requires some { 0 < length bytes.now }
        ensures row { let w = wires_view W.fails W.later (W.link wires.old) (W.schedule wires.old) (W.faults wires.old) (W.traffic wires.old) in
            let v = wires_view W.fails W.later (W.link wires.new) (W.schedule wires.new) (W.faults wires.new) (W.traffic wires.new) in
            Follows P.port_view (on_piece (model_of self.old) self.old.stage epoch part offset bytes.now) w v result (model_of self.new) }
        ensures consistent { IsConsistentDevice P.port_view self.new.device }
        ensures worker { KeepsWorker (P.port_view self.old.device.port) (P.port_view self.new.device.port) }
        ensures rest_unchanged { P.rest self.new.device.port ≡ P.rest self.old.device.port }
        ensures name { self.new.name ≡ self.old.name }
        ensures top { self.old.top ≤ self.new.top }
    {
        let MoveStage::Filling {
            epoch: e,
            totals,
            part: next,
            place,
        } = self.stage
        else {
            return Delivered::Ignored;
        };
        if e != epoch || !is_next(&totals, next, place, part, offset, bytes.len()) {
            return Delivered::Ignored;
        }
        self.take_piece(
            epoch,
            totals,
            next,
            place + bytes.len() as u32,
            bytes,
            wires,
        )
    }

    /// The guest goes on here.
    pub fn resume(&mut self)
        requires held { self.old.device.held ≡ true }
        ensures resumes { Resumes P.port_view (record (model_of self.old) { stage = MoveStage.Running; record_bytes = [] }) (model_of self.new) }
        ensures consistent { IsConsistentDevice P.port_view self.new.device }
        ensures runs { self.new.device.held ≡ false }
        ensures worker { KeepsWorker (P.port_view self.old.device.port) (P.port_view self.new.device.port) }
        ensures rest_unchanged { P.rest self.new.device.port ≡ P.rest self.old.device.port }
        ensures name { self.new.name ≡ self.old.name }
        ensures top { self.old.top ≤ self.new.top }
    {
        self.device.go_on();
        self.stage = MoveStage::Running;
        self.record_bytes.clear();
    }

    // Prepared: the host lets go, or says again that it has.
    fn on_prepared(&mut self, epoch: u64) -> Delivered
        ensures row { FollowsAlone P.port_view (on_prepared (model_of self.old) self.old.stage epoch) result (model_of self.new) }
        ensures device { self.new.device ≡ self.old.device }
        ensures name { self.new.name ≡ self.old.name }
        ensures top { self.old.top ≤ self.new.top }
    {
        match self.stage {
            MoveStage::Offering { epoch: e, .. } if e == epoch => {
                self.stage = MoveStage::Released { epoch };
                self.record_bytes.clear();
                Delivered::Sent(self.message(epoch, Body::Commit))
            }
            MoveStage::Released { epoch: e } if e == epoch => {
                Delivered::Sent(self.message(epoch, Body::Commit))
            }
            _ => Delivered::Ignored,
        }
    }

    // Commit: a prepared host runs.
    fn on_commit(&mut self, epoch: u64) -> Delivered
        requires consistent { IsConsistentHost P.port_view (model_of self.old) }
        ensures row { FollowsAlone P.port_view (on_commit (model_of self.old) self.old.stage epoch) result (model_of self.new) }
        ensures consistent { IsConsistentDevice P.port_view self.new.device }
        ensures worker { KeepsWorker (P.port_view self.old.device.port) (P.port_view self.new.device.port) }
        ensures rest_unchanged { P.rest self.new.device.port ≡ P.rest self.old.device.port }
        ensures name { self.new.name ≡ self.old.name }
        ensures top { self.old.top ≤ self.new.top }
    {
        match self.stage {
            MoveStage::Prepared { epoch: e } if e == epoch => {
                self.resume();
                Delivered::Runs
            }
            _ => Delivered::Ignored,
        }
    }

    // Abort: a host that takes the offer, or has taken it, is empty.
    fn on_abort(&mut self, epoch: u64) -> Delivered
        ensures row { FollowsAlone P.port_view (on_abort (model_of self.old) self.old.stage epoch) result (model_of self.new) }
        ensures device { self.new.device ≡ self.old.device }
        ensures name { self.new.name ≡ self.old.name }
        ensures top { self.old.top ≤ self.new.top }
    {
        match self.stage {
            MoveStage::Filling { epoch: e, .. } | MoveStage::Prepared { epoch: e } if e == epoch =>
                {
                    self.empty();
                    Delivered::Took
                }
            _ => Delivered::Ignored,
        }
    }

    // Refuse: the offer is over, and the guest goes on here.
    fn on_refuse(&mut self, epoch: u64) -> Delivered
        requires consistent { IsConsistentHost P.port_view (model_of self.old) }
        ensures row { FollowsAlone P.port_view (on_refuse (model_of self.old) self.old.stage epoch) result (model_of self.new) }
        ensures consistent { IsConsistentDevice P.port_view self.new.device }
        ensures worker { KeepsWorker (P.port_view self.old.device.port) (P.port_view self.new.device.port) }
        ensures rest_unchanged { P.rest self.new.device.port ≡ P.rest self.old.device.port }
        ensures name { self.new.name ≡ self.old.name }
        ensures top { self.old.top ≤ self.new.top }
    {
        match self.stage {
            MoveStage::Offering { epoch: e, .. } if e == epoch => {
                self.resume();
                Delivered::Resumed
            }
            _ => Delivered::Ignored,
        }
    }

    // A message that names this host.
    fn on_message<W: Wires>(
        &mut self,
        alloc: Global,
        epoch: u64,
        body: &Body,
        wires: &mut W,
    ) -> Result<Delivered, AllocError>
        requires consistent { IsConsistentHost P.port_view (model_of self.old) }
        requires bytes { HasBytes body.now }
        ensures row { IfOk result (λ answer. let w = wires_view W.fails W.later (W.link wires.old) (W.schedule wires.old) (W.faults wires.old) (W.traffic wires.old) in
            let v = wires_view W.fails W.later (W.link wires.new) (W.schedule wires.new) (W.faults wires.new) (W.traffic wires.new) in
            Follows P.port_view (on_message (model_of self.old) epoch body.now) w v answer (model_of self.new)) }
        ensures consistent { IsConsistentDevice P.port_view self.new.device }
        ensures need { OnErr result (IsNeed body.now) }
        ensures same { OnErr result (model_of self.new ≡ model_of self.old) }
        ensures untouched { OnErr result (wires.new ≡ wires.old) }
        ensures worker { KeepsWorker (P.port_view self.old.device.port) (P.port_view self.new.device.port) }
        ensures rest_unchanged { P.rest self.new.device.port ≡ P.rest self.old.device.port }
        ensures name { self.new.name ≡ self.old.name }
        ensures top { self.old.top ≤ self.new.top }
    {
        match body {
            Body::Offer { totals } => Ok(self.on_offer(epoch, totals, wires)),
            Body::Need { part, offset } => self.on_need(alloc, epoch, *part, *offset, wires),
            Body::Piece {
                part,
                offset,
                bytes,
            } => Ok(self.on_piece(epoch, *part, *offset, bytes.as_slice(), wires)),
            Body::Prepared => Ok(self.on_prepared(epoch)),
            Body::Commit => Ok(self.on_commit(epoch)),
            Body::Abort => Ok(self.on_abort(epoch)),
            Body::Refuse { .. } => Ok(self.on_refuse(epoch)),
        }
    }

    /// As [`Host::deliver`](crate::Host::deliver).
    pub fn deliver<W: Wires>(
        &mut self,
        alloc: Global,
        m: &Message,
        wires: &mut W,
    ) -> Result<Delivered, AllocError>
        requires consistent { IsConsistentHost P.port_view (model_of self.old) }
        requires bytes { HasBytes m.now.body }
        ensures row { IfOk result (λ answer. let w = wires_view W.fails W.later (W.link wires.old) (W.schedule wires.old) (W.faults wires.old) (W.traffic wires.old) in
            let v = wires_view W.fails W.later (W.link wires.new) (W.schedule wires.new) (W.faults wires.new) (W.traffic wires.new) in
            Follows P.port_view (delivered (model_of self.old) m.now) w v answer (model_of self.new)) }
        ensures consistent { IsConsistentHost P.port_view (model_of self.new) }
        ensures need { OnErr result (IsNeed m.now.body) }
        ensures same { OnErr result (model_of self.new ≡ model_of self.old) }
        ensures untouched { OnErr result (wires.new ≡ wires.old) }
        ensures worker { KeepsWorker (P.port_view self.old.device.port) (P.port_view self.new.device.port) }
        ensures rest_unchanged { P.rest self.new.device.port ≡ P.rest self.old.device.port }
        ensures name { self.new.name ≡ self.old.name }
        ensures top { self.old.top ≤ self.new.top }
    {
        messages_are_in_range(m);
        if !is_same(self.name, m.to) {
            return Ok(Delivered::Ignored);
        }
        self.on_message(alloc, m.epoch, &m.body, wires)
    }
}
