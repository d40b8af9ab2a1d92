//! A host, as the crates above call it.
ghost use Rattle.std.specs.Prelude.{◌≡◌, ◌≤◌, ◌<◌, ◌^◌, [], true, false, Ok, Some, None, IfOk, OnErr, IfSome, IsNone, IsSome};
ghost use Rattle.crb_regs.specs.Registers.{is_lost};
ghost use Rattle.crb_regs.specs.LittleEndian.{little_endian_at};
ghost use Rattle.crb_port.specs.Calls.{KeepsWorker};
ghost use Rattle.crb_machine.specs.Over.{IsConsistentDevice, HasClaimedNumber, CollectsAnswer, Writes, Resets, own_byte, state_of};
ghost use Rattle.crb_machine.specs.Steps.{collected, written, device_byte, after_reset, reset_reply, failed};
ghost use Rattle.move_core.specs.Requests.{wires_view};
ghost use Rattle.move_core.specs.Sides.{side_of, is_running};
ghost use Rattle.move_core.specs.Hosts.{IsConsistentHost, new_device};
ghost use Rattle.move_core.specs.Table.{delivered};
ghost use Rattle.move_core.specs.Counts.{CountsIf, delivered_by_link, offered_by_link, drained_by_link};
ghost use Rattle.move_core.specs.Recording.{Records};
ghost use Rattle.move_core.specs.Calls.{Follows, HasBytes, IsNeed, Offers, Drains, GivesUp, said_again};

use crate::answers::{Delivered, Gave, OfferFault, Offered, RecordFault};
use crate::parts::HostParts;
use crate::record_buf::RecordBuf;
use crate::side::Side;
use crate::stage::MoveStage;
use crb_machine::{Device, NotYet};
use crb_port::Port;
use crb_regs::{Access, Phase};
use ctrl_client::Wires;
use device_record::RECORD_ROOM;
use move_codec::Message;
use std::alloc::{AllocError, Global};
use std::marker::Model;
use vt_base::HostName;

/// One of two hosts between which a virtual TPM moves. It owns the device, which is held at every side but `Running` and
/// `Draining`, and lends no reference to it. Its emulator is behind wires, which are an argument of each call that uses them.
///
/// Contracts see it as a `HostModel` of specs/Model.antt: its name, the most bytes of a piece of its record, the greatest
/// epoch seen, its side with what it knows there, the bytes of the record in this move, and its device.
#[derive(Drop)]
pub struct Host<P: Port> {
    pub(crate) parts: HostParts<P>,
}

impl<P: Port> Model for Host<P> {
    ghost use Rattle.move_core.specs.Model.{HostModel};
    ghost use Rattle.move_core.specs.Parts.{model_of};
    ghost use Rattle.move_core.specs.Hosts.{IsConsistentHost};

    ghost Value = { HostModel P };

    ghost view = { λ h. model_of h.parts };

    ghost invariant = { λ h. IsConsistentHost P.port_view (model_of h.parts) };
}

impl<P: Port + Drop> Host<P> {
    /// A host whose guest runs on this device. A Piece of its record has at most `piece` bytes, 1 to 4096. No epoch was seen.
    /// `AllocError` where there is no memory for the record.
    pub fn running(
        alloc: Global,
        name: HostName,
        device: Device<P>,
        piece: u32,
    ) -> Result<Host<P>, AllocError>
        requires runs { device.held ≡ false }
        requires least { 1 ≤ piece }
        requires most { piece ≤ 4096 }

        ensures made { IfOk result (λ h. h ≡ record { name = name; piece = piece; top = 0; stage = MoveStage.Running; record_bytes = []; device = device }) }
        ensures consistent { IfOk result (IsConsistentHost P.port_view) }
    {
        let record_bytes = RecordBuf::new(alloc)?;
        let _held = device.is_held();
        Ok(Host {
            parts: HostParts {
                name,
                piece,
                top: 0,
                stage: MoveStage::Running,
                record_bytes,
                device,
            },
        })
    }
}

impl<P: Port + Drop> Host<P> {
    /// A host without a guest, over a device as [`Device::new`] gives it. A Piece of its record has at most `piece` bytes, 1 to
    /// 4096. No epoch was seen. `AllocError` where there is no memory for the record.
    pub fn empty(
        alloc: Global,
        name: HostName,
        device: Device<P>,
        piece: u32,
    ) -> Result<Host<P>, AllocError>
        requires fresh { device ≡ new_device device.port }
        requires least { 1 ≤ piece }
        requires most { piece ≤ 4096 }

        ensures made { IfOk result (λ h. h ≡ record { name = name; piece = piece; top = 0; stage = MoveStage.Empty; record_bytes = []; device = record device { held = true } }) }
        ensures consistent { IfOk result (IsConsistentHost P.port_view) }
    {
        let record_bytes = RecordBuf::new(alloc)?;
        let mut device = device;
        let Ok(()) = device.stop() else {
            unreachable!()
        };
        Ok(Host {
            parts: HostParts {
                name,
                piece,
                top: 0,
                stage: MoveStage::Empty,
                record_bytes,
                device,
            },
        })
    }
}

impl<P: Port> Host<P> {
    /// What the host is in a move, with its epoch.
    pub fn side(&self) -> Side
        ensures value { result ≡ side_of self.now.stage }
        ensures consistent { IsConsistentHost P.port_view self.now }
    {
        self.parts.stage.side()
    }

    /// The greatest epoch of an offer that this host has made or taken up. 0 before the first.
    pub fn top(&self) -> u64
        ensures { result ≡ self.now.top }
    {
        self.parts.top
    }

    /// The phase of its device.
    pub fn phase(&self) -> Phase
        ensures { result ≡ self.now.device.regs.phase }
    {
        self.parts.device.phase()
    }

    /// The number of its device's last job. 0 before the first.
    pub fn number(&self) -> u64
        ensures { result ≡ self.now.device.number }
    {
        self.parts.device.number()
    }

    /// Offers the guest to the other host: stops the device, keeps its record, and asks the emulator for the lengths of its
    /// three blobs. Gives the Offer to send, in the epoch after the greatest one seen. It allocates nothing.
    ///
    /// Where a command is claimed and unfinished, no wire is used and the side is `Draining`: the guest stops, the worker
    /// goes on, and the Offer comes from [`Host::drained`].
    ///
    /// An [`OfferFault`] says why no offer is made. The guest then goes on here, and the host is as before, but for an answer
    /// that was collected from its port ([`laws::offers_are_undone`](crate::laws::offers_are_undone)).
    pub fn offer<W: Wires>(&mut self, wires: &mut W) -> Result<Offered, OfferFault>
        ensures offers { let w = wires_view W.fails W.later (W.link wires.old) (W.schedule wires.old) (W.faults wires.old) (W.traffic wires.old) in
            let v = wires_view W.fails W.later (W.link wires.new) (W.schedule wires.new) (W.faults wires.new) (W.traffic wires.new) in
            Offers P.port_view self.old w result v self.new }
        ensures counts { CountsIf (offered_by_link result) (W.faults wires.old) (W.faults wires.new) }
        ensures consistent { IsConsistentHost P.port_view self.new }
        ensures worker { KeepsWorker (P.port_view self.old.device.port) (P.port_view self.new.device.port) }
        ensures rest_unchanged { P.rest self.new.device.port ≡ P.rest self.old.device.port }
        ensures name { self.new.name ≡ self.old.name }
        ensures top { self.old.top ≤ self.new.top }
    {
        self.parts.offer(wires)
    }

    /// Makes the offer of a draining host once its command is done. `None`, and nothing changes, exactly where the command is
    /// still claimed. It allocates nothing.
    ///
    /// An [`OfferFault`] says why no offer is made: the answer was lost (`Device`), or a request to the emulator failed
    /// (`Wires`). The side is then `Running`, and the host is otherwise as before, but for the answer that was collected from
    /// its port. `Stopped` and `EpochEnd` never come.
    pub fn drained<W: Wires>(&mut self, wires: &mut W) -> Result<Option<Message>, OfferFault>
        requires drains { self.old.stage ≡ MoveStage.Draining }

        ensures drains { let w = wires_view W.fails W.later (W.link wires.old) (W.schedule wires.old) (W.faults wires.old) (W.traffic wires.old) in
            let v = wires_view W.fails W.later (W.link wires.new) (W.schedule wires.new) (W.faults wires.new) (W.traffic wires.new) in
            Drains P.port_view self.old w result v self.new }
        ensures counts { CountsIf (drained_by_link result) (W.faults wires.old) (W.faults wires.new) }
        ensures consistent { IsConsistentHost P.port_view self.new }
        ensures worker { KeepsWorker (P.port_view self.old.device.port) (P.port_view self.new.device.port) }
        ensures rest_unchanged { P.rest self.new.device.port ≡ P.rest self.old.device.port }
        ensures name { self.new.name ≡ self.old.name }
        ensures top { self.old.top ≤ self.new.top }
    {
        self.parts.drained(wires)
    }

    /// Takes a message of the other host, and follows the row of the table of deliveries for it, if one fits. The answer is
    /// what is to be sent, or what became of the message ([`Delivered`]). A Piece needs at least one byte.
    ///
    /// `AllocError` comes for a Need alone. Its memory is allocated before the wires are used, so the host and the wires
    /// are as before.
    pub fn deliver<W: Wires>(
        &mut self,
        alloc: Global,
        m: &Message,
        wires: &mut W,
    ) -> Result<Delivered, AllocError>
        requires bytes { HasBytes m.now.body }

        ensures row { IfOk result (λ answer.
            let w = wires_view W.fails W.later (W.link wires.old) (W.schedule wires.old) (W.faults wires.old) (W.traffic wires.old) in
            let v = wires_view W.fails W.later (W.link wires.new) (W.schedule wires.new) (W.faults wires.new) (W.traffic wires.new) in
            Follows P.port_view (delivered self.old m.now) w v answer self.new) }
        ensures counts { IfOk result (λ answer. CountsIf (delivered_by_link answer) (W.faults wires.old) (W.faults wires.new)) }
        ensures consistent { IsConsistentHost P.port_view self.new }
        ensures worker { KeepsWorker (P.port_view self.old.device.port) (P.port_view self.new.device.port) }
        ensures rest_unchanged { P.rest self.new.device.port ≡ P.rest self.old.device.port }
        ensures need { OnErr result (IsNeed m.now.body) }
        ensures same { OnErr result (self.new ≡ self.old) }
        ensures untouched { OnErr result (wires.new ≡ wires.old) }
        ensures name { self.new.name ≡ self.old.name }
        ensures top { self.old.top ≤ self.new.top }
    {
        self.parts.deliver(alloc, m, wires)
    }

    /// Takes the offer back: the guest goes on here. An Abort is to be sent where the Offer was made ([`Gave`]). It uses no
    /// wires and allocates nothing.
    pub fn give_up(&mut self) -> Gave
        ensures gives_up { GivesUp P.port_view self.old result self.new }
        ensures consistent { IsConsistentHost P.port_view self.new }
        ensures worker { KeepsWorker (P.port_view self.old.device.port) (P.port_view self.new.device.port) }
        ensures rest_unchanged { P.rest self.new.device.port ≡ P.rest self.old.device.port }
        ensures name { self.new.name ≡ self.old.name }
        ensures top { self.old.top ≤ self.new.top }
    {
        self.parts.give_up()
    }

    /// Prepared once more, for a Commit that didn't come. `None` exactly where the side isn't `Prepared`.
    pub fn again(&self) -> Option<Message>
        ensures { result ≡ said_again self.now.stage self.now }
    {
        self.parts.again()
    }

    /// Writes the record of the device to the beginning of `into`, and gives its length in bytes, 23 to 3991. The device is
    /// stopped for it, and the guest then goes on. A [`RecordFault`] says why it isn't written, and leaves `into` as it was.
    pub fn write_record(&mut self, into: &mut [u8; RECORD_ROOM]) -> Result<usize, RecordFault>
        ensures records { Records P.port_view self.old result into.new self.new }
        ensures within { IfOk result (λ count. count ≤ 3991) }
        ensures untouched { OnErr result (into.new ≡ into.old) }
        ensures consistent { IsConsistentHost P.port_view self.new }
        ensures worker { KeepsWorker (P.port_view self.old.device.port) (P.port_view self.new.device.port) }
        ensures rest_unchanged { P.rest self.new.device.port ≡ P.rest self.old.device.port }
        ensures others { self.new ≡ record self.old { device = self.new.device } }
    {
        self.parts.write_record(into)
    }

    /// A read of the guest, as [`Device::read`].
    pub fn read(&mut self, a: &Access) -> u64
        requires runs { is_running self.old.stage ≡ true }
        requires reads { IsNone a.now.write }

        ensures settles { CollectsAnswer P.port_view self.old.device self.new.device }
        ensures worker { KeepsWorker (P.port_view self.old.device.port) (P.port_view self.new.device.port) }
        ensures value { result ≡ little_endian_at (own_byte self.new.device) a.now.offset a.now.size }
        ensures below { result < 256 ^ a.now.size }
        ensures others { self.new ≡ record self.old { device = self.new.device } }
        ensures consistent { IsConsistentHost P.port_view self.new }
        ensures claimed_number { HasClaimedNumber P.port_view self.new.device }
        ensures rest_unchanged { P.rest self.new.device.port ≡ P.rest self.old.device.port }
        ensures exact { IfSome (state_of P.port_view self.old.device) (λ d. state_of P.port_view self.new.device ≡ Some (collected d)) }
        ensures exact_value { IfSome (state_of P.port_view self.old.device) (λ d. result ≡ little_endian_at (device_byte (collected d)) a.now.offset a.now.size) }
    {
        self.parts.read(a)
    }

    /// A write of the guest, as [`Device::write`].
    pub fn write(&mut self, a: &Access)
        requires runs { is_running self.old.stage ≡ true }
        requires writes { IsSome a.now.write }

        ensures writes { Writes P.port_view self.old.device a.now self.new.device }
        ensures worker { KeepsWorker (P.port_view self.old.device.port) (P.port_view self.new.device.port) }
        ensures others { self.new ≡ record self.old { device = self.new.device } }
        ensures consistent { IsConsistentHost P.port_view self.new }
        ensures claimed_number { HasClaimedNumber P.port_view self.new.device }
        ensures rest_unchanged { P.rest self.new.device.port ≡ P.rest self.old.device.port }
        ensures exact { IfSome (state_of P.port_view self.old.device) (λ d. state_of P.port_view self.new.device ≡ Some (written (collected d) a.now)) }
    {
        self.parts.write(a);
    }

    /// A reset of the guest, as [`Device::reset`]. `NotYet` exactly where a job is claimed.
    pub fn reset(&mut self) -> Result<(), NotYet>
        requires runs { is_running self.old.stage ≡ true }

        ensures resets { Resets P.port_view self.old.device result self.new.device }
        ensures worker { KeepsWorker (P.port_view self.old.device.port) (P.port_view self.new.device.port) }
        ensures lost { self.old.device.regs.phase ≡ Phase.Lost → (result ≡ Ok tt) × (self.new ≡ self.old) }
        ensures others { self.new ≡ record self.old { device = self.new.device } }
        ensures consistent { IsConsistentHost P.port_view self.new }
        ensures claimed_number { HasClaimedNumber P.port_view self.new.device }
        ensures rest_unchanged { P.rest self.new.device.port ≡ P.rest self.old.device.port }
        ensures exact { IfSome (state_of P.port_view self.old.device) (λ d. state_of P.port_view self.new.device ≡ Some (after_reset d)) }
        ensures exact_result { IfSome (state_of P.port_view self.old.device) (λ d. result ≡ reset_reply d) }
    {
        self.parts.reset()
    }

    /// The device is lost from here on, as by [`Device::fail`].
    pub fn fail(&mut self)
        requires runs { is_running self.old.stage ≡ true }
        requires free { (P.port_view self.old.device.port).is_free ≡ true }

        ensures failed { self.new ≡ record self.old { device = record self.old.device { regs = record self.old.device.regs { phase = Phase.Lost } } } }
        ensures consistent { IsConsistentHost P.port_view self.new }
        ensures claimed_number { HasClaimedNumber P.port_view self.new.device }
        ensures exact { IfSome (state_of P.port_view self.old.device) (λ d. state_of P.port_view self.new.device ≡ Some (failed d)) }
    {
        self.parts.fail();
    }

    /// The device as it is, held at every side but `Running` and `Draining`.
    pub fn into_device(self) -> Device<P>
        ensures device { result ≡ self.device }
        ensures consistent { IsConsistentDevice P.port_view result }
    {
        let Host { parts } = self;
        parts.into_device()
    }
}
