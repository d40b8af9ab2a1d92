//! The struct of a host, and the calls of its guest.
ghost use Rattle.std.specs.Prelude.{◌≡◌, ◌<◌, ◌^◌, true, Some, Ok, IfSome, IsNone, IsSome};
ghost use Rattle.crb_regs.specs.LittleEndian.{little_endian_at};
ghost use Rattle.crb_port.specs.Calls.{KeepsWorker};
ghost use Rattle.crb_machine.specs.Over.{IsConsistentDevice, HasClaimedNumber, CollectsAnswer, Writes, Resets, own_byte, state_of};
ghost use Rattle.crb_machine.specs.Steps.{collected, written, device_byte, after_reset, reset_reply, failed};
ghost use Rattle.move_core.specs.Sides.{is_running};
ghost use Rattle.move_core.specs.Parts.{model_of};
ghost use Rattle.move_core.specs.Hosts.{IsConsistentHost};
ghost use Rattle.move_codec.specs.declared.message.Body.TheVariants.{Refuse};
ghost use Rattle.move_core.specs.Table.{message_from, reason_for, value_for};

use crate::answers::Delivered;
use crate::names::{other, reason_for, value_for};
use crate::record_buf::RecordBuf;
use crate::stage::MoveStage;
use crb_machine::{Device, NotYet};
use crb_port::Port;
use crb_regs::{Access, Phase};
use ctrl_client::ClientFault;
use move_codec::{Body, Message};
use vt_base::{HostName, Reason};

/// A host: its name, the most bytes that a piece of its record has, the greatest epoch that it has seen, its side with what
/// it knows there, the bytes of the record in this move, and its device.
#[derive(Drop)]
pub struct HostParts<P: Port> {
    pub name: HostName,
    pub piece: u32,
    pub top: u64,
    pub stage: MoveStage,
    pub record_bytes: RecordBuf,
    pub device: Device<P>,
}

impl<P: Port> HostParts<P> {
    /// A message to the other host.
    pub fn message(&self, epoch: u64, body: Body) -> Message
        ensures { result ≡ message_from self.now.name epoch body }
    {
        Message {
            to: other(self.name),
            epoch,
            body,
        }
    }

    /// A refusal for this reason.
    pub fn refusal(&self, epoch: u64, reason: Reason, value: u32) -> Delivered
        ensures { result ≡ Delivered.Refused (message_from self.now.name epoch (Refuse reason value)) }
    {
        Delivered::Refused(self.message(epoch, Body::Refuse { reason, value }))
    }

    /// A refusal after a client fault.
    pub fn refusal_for(&self, epoch: u64, fault: ClientFault) -> Delivered
        ensures { result ≡ Delivered.Refused (message_from self.now.name epoch (Refuse (reason_for fault) (value_for fault))) }
    {
        self.refusal(epoch, reason_for(fault), value_for(fault))
    }

    /// As the device's `read`.
    pub fn read(&mut self, a: &Access) -> u64
        requires consistent { IsConsistentHost P.port_view (model_of self.old) }
        requires runs { is_running self.old.stage ≡ true }
        requires reads { IsNone a.now.write }
        ensures settles { CollectsAnswer P.port_view self.old.device self.new.device }
        ensures worker { KeepsWorker (P.port_view self.old.device.port) (P.port_view self.new.device.port) }
        ensures value { result ≡ little_endian_at (own_byte self.new.device) a.now.offset a.now.size }
        ensures below { result < 256 ^ a.now.size }
        ensures others { self.new ≡ record self.old { device = self.new.device } }
        ensures consistent { IsConsistentHost P.port_view (model_of self.new) }
        ensures claimed_number { HasClaimedNumber P.port_view self.new.device }
        ensures rest_unchanged { P.rest self.new.device.port ≡ P.rest self.old.device.port }
        ensures exact { IfSome (state_of P.port_view self.old.device) (λ d. state_of P.port_view self.new.device ≡ Some (collected d)) }
        ensures exact_value { IfSome (state_of P.port_view self.old.device) (λ d. result ≡ little_endian_at (device_byte (collected d)) a.now.offset a.now.size) }
    {
        self.device.read(a)
    }

    /// As the device's `write`.
    pub fn write(&mut self, a: &Access)
        requires consistent { IsConsistentHost P.port_view (model_of self.old) }
        requires runs { is_running self.old.stage ≡ true }
        requires writes { IsSome a.now.write }
        ensures writes { Writes P.port_view self.old.device a.now self.new.device }
        ensures worker { KeepsWorker (P.port_view self.old.device.port) (P.port_view self.new.device.port) }
        ensures others { self.new ≡ record self.old { device = self.new.device } }
        ensures consistent { IsConsistentHost P.port_view (model_of self.new) }
        ensures claimed_number { HasClaimedNumber P.port_view self.new.device }
        ensures rest_unchanged { P.rest self.new.device.port ≡ P.rest self.old.device.port }
        ensures exact { IfSome (state_of P.port_view self.old.device) (λ d. state_of P.port_view self.new.device ≡ Some (written (collected d) a.now)) }
    {
        self.device.write(a);
    }

    /// As the device's `reset`.
    pub fn reset(&mut self) -> Result<(), NotYet>
        requires consistent { IsConsistentHost P.port_view (model_of self.old) }
        requires runs { is_running self.old.stage ≡ true }
        ensures resets { Resets P.port_view self.old.device result self.new.device }
        ensures worker { KeepsWorker (P.port_view self.old.device.port) (P.port_view self.new.device.port) }
        ensures lost { self.old.device.regs.phase ≡ Phase.Lost → (result ≡ Ok tt) × (model_of self.new ≡ model_of self.old) }
        ensures others { self.new ≡ record self.old { device = self.new.device } }
        ensures consistent { IsConsistentHost P.port_view (model_of self.new) }
        ensures claimed_number { HasClaimedNumber P.port_view self.new.device }
        ensures rest_unchanged { P.rest self.new.device.port ≡ P.rest self.old.device.port }
        ensures exact { IfSome (state_of P.port_view self.old.device) (λ d. state_of P.port_view self.new.device ≡ Some (after_reset d)) }
        ensures exact_result { IfSome (state_of P.port_view self.old.device) (λ d. result ≡ reset_reply d) }
    {
        self.device.reset()
    }

    /// As the device's `fail`.
    pub fn fail(&mut self)
        requires consistent { IsConsistentHost P.port_view (model_of self.old) }
        requires runs { is_running self.old.stage ≡ true }
        requires free { (P.port_view self.old.device.port).is_free ≡ true }
        ensures failed { self.new ≡ record self.old { device = record self.old.device { regs = record self.old.device.regs { phase = Phase.Lost } } } }
        ensures consistent { IsConsistentHost P.port_view (model_of self.new) }
        ensures claimed_number { HasClaimedNumber P.port_view self.new.device }
        ensures exact { IfSome (state_of P.port_view self.old.device) (λ d. state_of P.port_view self.new.device ≡ Some (failed d)) }
    {
        self.device.fail();
    }

    /// The device as it is.
    pub fn into_device(self) -> Device<P>
        requires consistent { IsConsistentHost P.port_view (model_of self) }
        ensures device { result ≡ self.device }
        ensures consistent { IsConsistentDevice P.port_view result }
    {
        let HostParts {
            record_bytes,
            device,
            ..
        } = self;
        drop(record_bytes);
        device
    }
}
