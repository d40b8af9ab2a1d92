//! One seat: a host with its worker and the wires to its emulator.
ghost use Rattle.std.specs.Prelude.{◌≡◌, ◌≤◌, ◌-◌, [], true, false, Some, IfOk};
ghost use Rattle.crb_history.specs.Snapshot.{Snapshot, fresh};
ghost use Rattle.vt_transcript.specs.OneHost.{OneHost, IsOneHostLine};
ghost use Rattle.vt_script.specs.Replies.{IsPrintable};
ghost use Rattle.move_core.specs.Sides.{holds_device, is_draining, is_running};
ghost use Rattle.vt_seat.specs.Wires.{emulator_of};
ghost use Rattle.vt_seat.specs.Follows.{Refines, RefinesOneHost, StepRefinesOneHost, CountsFault, said};
ghost use Rattle.vt_seat.specs.Seats.{world_of, wires_of, new_seat, StartsAs, IsEmptySeat};

use crate::wires::MemWires;
use crb_machine::Device;
use crb_port::{PlainPort, Port};
use crb_regs::{Access, Phase};
use crb_worker::{Step, Worker};
use ctrl_client::{cancel, init};
use move_core::{Host, Side};
use std::alloc::{AllocError, Global};
use std::marker::Model;
use tpm_core::{Banks, SEED_SIZE};
use vt_base::HostName;
use vt_emulator::Emulator;
use vt_script::{Event, Reply};

/// A host, its worker, and the wires to its emulator.
#[derive(Drop)]
pub struct Seat<P: Port> {
    pub(crate) host: Host<P>,
    pub(crate) worker: Worker,
    pub(crate) wires: MemWires,
}

impl<P: Port> Model for Seat<P> {
    ghost use Rattle.crb_worker.specs.Progress.{HasClaimed};
    ghost use Rattle.vt_seat.specs.State.{SeatState};

    ghost Value = { SeatState P };

    ghost view = { λ s. record { host = s.host; progress = s.worker; link = s.wires.link; calls_to_fault = s.wires.calls_to_fault; faults = s.wires.faults } };

    ghost invariant = { λ s. HasClaimed s.worker (P.port_view s.host.device.port) };
}

impl<P: Port> Seat<P> {
    /// A host with these wires, and a worker that has nothing in hand.
    pub fn new(host: Host<P>, wires: MemWires) -> Seat<P>
        ensures seat { result ≡ new_seat host wires }
    {
        Seat {
            host,
            worker: Worker::new(),
            wires,
        }
    }

    /// The host and its wires. The worker is let go.
    pub fn into_parts(self) -> (Host<P>, MemWires)
        ensures host { result.0 ≡ self.host }
        ensures wires { result.1 ≡ wires_of self }
    {
        let Seat { host, wires, .. } = self;
        (host, wires)
    }

    /// The host.
    pub fn host(&self) -> &Host<P>
        ensures host { result.now ≡ self.now.host }
    {
        &self.host
    }

    /// The emulator behind the wires.
    pub fn emulator(&self) -> &Emulator
        ensures emulator { result.now ≡ emulator_of self.now.link }
    {
        self.wires.emulator()
    }

    /// Whether the guest runs here.
    pub fn is_running(&self) -> bool
        ensures { result ≡ is_running self.now.host.stage }
    {
        matches!(self.host.side(), Side::Running)
    }

    /// Whether the guest has stopped, and its worker goes on up to the offer.
    pub fn is_draining(&self) -> bool
        ensures { result ≡ is_draining self.now.host.stage }
    {
        matches!(self.host.side(), Side::Draining)
    }

    /// Lets the call of this number on the wires, from now on, fail; see [`MemWires::fail_at`].
    pub fn fail_at(&mut self, call: u64)
        ensures calls_to_fault { self.new ≡ record self.old { calls_to_fault = Some (call - 1) } }
    {
        self.wires.fail_at(call);
    }
}

impl Seat<PlainPort> {
    /// A running host of this name: a reset device over a TPM of this seed and these banks that was powered on once. A
    /// piece of its record or of a blob has at most `piece` bytes.
    pub fn fresh(
        alloc: Global,
        name: HostName,
        seed: [u8; SEED_SIZE],
        banks: Banks,
        piece: u32,
    ) -> Result<Seat<PlainPort>, AllocError>
        requires least { 1 ≤ piece }
        requires most { piece ≤ 4096 }
        ensures follows { IfOk result (λ s. Refines (fresh seed banks) [] (world_of s)) }
        ensures made { IfOk result (StartsAs name piece) }
    {
        let device = Device::new(alloc, PlainPort::new())?;
        let emulator = Emulator::new(alloc, seed, banks, piece)?;
        let mut wires = MemWires::new(alloc, emulator)?;
        let Ok(()) = init(&mut wires, 0) else {
            unreachable!()
        };
        let host = Host::running(alloc, name, device, piece)?;
        let seat = Seat::new(host, wires);
        Ok(seat)
    }

    /// A host of this name without a guest, over an emulator without a TPM. A piece of a blob has at most `piece` bytes.
    pub fn empty(alloc: Global, name: HostName, piece: u32) -> Result<Seat<PlainPort>, AllocError>
        requires least { 1 ≤ piece }
        requires most { piece ≤ 4096 }
        ensures made { IfOk result (IsEmptySeat name piece) }
    {
        let device = Device::new(alloc, PlainPort::new())?;
        let emulator = Emulator::empty(alloc, piece)?;
        let wires = MemWires::new(alloc, emulator)?;
        let host = Host::empty(alloc, name, device, piece)?;
        let seat = Seat::new(host, wires);
        Ok(seat)
    }

    /// Does one line that isn't one of a move, and gives its reply. The host that a line `fail` names isn't looked at.
    #[tactic(auto, using(crate::proofs::Recorded::still_is))]
    pub fn step(&mut self, line: &Event) -> Reply
        requires runs { is_running self.old.host.stage ≡ true }
        requires one_host { IsOneHostLine line.now }
        ensures steps { (b : Snapshot) (s : OneHost) → RefinesOneHost b s (world_of self.old) → StepRefinesOneHost b s line.now result (world_of self.new) }
        ensures others { self.new.host ≡ record self.old.host { device = self.new.host.device } }
        ensures faults { (b : Snapshot) (s : OneHost) → RefinesOneHost b s (world_of self.old) → CountsFault result self.old.faults self.new.faults }
        ensures piece { (b : Snapshot) (s : OneHost) → RefinesOneHost b s (world_of self.old) → self.new.link.emulator.piece ≡ self.old.link.emulator.piece }
        ensures printable { IsPrintable result }
    {
        match line {
            Event::Access(access) => self.access(access),
            Event::Work => self.work(),
            Event::Ask => self.ask(),
            Event::Reset => self.reset(),
            Event::Fail { host, call } => self.fail(*host, *call),
            Event::Offer | Event::Deliver(_) | Event::GiveUp | Event::Again | Event::Show(_) =>
                unreachable!(),
        }
    }

    /// An access of the guest.
    pub fn access(&mut self, access: &Access) -> Reply
        requires runs { is_running self.old.host.stage ≡ true }
        ensures steps { (b : Snapshot) (s : OneHost) → RefinesOneHost b s (world_of self.old) → StepRefinesOneHost b s (Event.Access access.now) result (world_of self.new) }
        ensures others { self.new.host ≡ record self.old.host { device = self.new.host.device } }
        ensures wires { wires_of self.new ≡ wires_of self.old }
        ensures faults { CountsFault result self.old.faults self.new.faults }
        ensures printable { IsPrintable result }
    {
        if access.write().is_some() {
            self.host.write(access);
            return Reply::Accepted;
        }
        Reply::Value {
            value: self.host.read(access),
            size: access.size(),
        }
    }

    /// One step of the worker, which goes on while the host drains.
    pub fn work(&mut self) -> Reply
        requires works { holds_device self.old.host.stage ≡ false }
        ensures steps { (b : Snapshot) (s : OneHost) → RefinesOneHost b s (world_of self.old) → StepRefinesOneHost b s Event.Work result (world_of self.new) }
        ensures others { self.new.host ≡ record self.old.host { device = self.new.host.device } }
        ensures faults { (b : Snapshot) (s : OneHost) → RefinesOneHost b s (world_of self.old) → CountsFault result self.old.faults self.new.faults }
        ensures piece { (b : Snapshot) (s : OneHost) → RefinesOneHost b s (world_of self.old) → self.new.link.emulator.piece ≡ self.old.link.emulator.piece }
        ensures printable { IsPrintable result }
    {
        let _side = self.host.side();
        let step = self.worker.step(&mut self.host, &mut self.wires);
        reply_of(step)
    }

    /// A cancel over the control channel of the emulator.
    pub fn ask(&mut self) -> Reply
        ensures steps { (b : Snapshot) (s : OneHost) → RefinesOneHost b s (world_of self.old) → StepRefinesOneHost b s Event.Ask result (world_of self.new) }
        ensures others { self.new.host ≡ self.old.host }
        ensures faults { (b : Snapshot) (s : OneHost) → RefinesOneHost b s (world_of self.old) → CountsFault result self.old.faults self.new.faults }
        ensures piece { (b : Snapshot) (s : OneHost) → RefinesOneHost b s (world_of self.old) → self.new.link.emulator.piece ≡ self.old.link.emulator.piece }
        ensures printable { IsPrintable result }
    {
        match cancel(&mut self.wires) {
            Ok(()) => Reply::Asked,
            Err(_) => Reply::Link,
        }
    }

    /// A reset of the guest. Where the emulator can't be powered on anew the device is given up.
    pub fn reset(&mut self) -> Reply
        requires runs { is_running self.old.host.stage ≡ true }
        ensures steps { (b : Snapshot) (s : OneHost) → RefinesOneHost b s (world_of self.old) → StepRefinesOneHost b s Event.Reset result (world_of self.new) }
        ensures others { self.new.host ≡ record self.old.host { device = self.new.host.device } }
        ensures faults { (b : Snapshot) (s : OneHost) → RefinesOneHost b s (world_of self.old) → CountsFault result self.old.faults self.new.faults }
        ensures piece { (b : Snapshot) (s : OneHost) → RefinesOneHost b s (world_of self.old) → self.new.link.emulator.piece ≡ self.old.link.emulator.piece }
        ensures printable { IsPrintable result }
    {
        if self.host.reset().is_err() {
            return Reply::NotYet;
        }
        if let Phase::Lost = self.host.phase() {
            return Reply::FailedDevice;
        }
        match init(&mut self.wires, 0) {
            Ok(()) => Reply::Reset,
            Err(_) => {
                self.host.fail();
                Reply::Link
            }
        }
    }

    /// A line that lets a call on the wires fail.
    pub fn fail(&mut self, host: HostName, call: u32) -> Reply
        ensures steps { (b : Snapshot) (s : OneHost) → RefinesOneHost b s (world_of self.old) → StepRefinesOneHost b s (Event.Fail host call) result (world_of self.new) }
        ensures others { self.new ≡ record self.old { calls_to_fault = self.new.calls_to_fault } }
        ensures faults { CountsFault result self.old.faults self.new.faults }
        ensures printable { IsPrintable result }
    {
        self.fail_at(u64::from(call));
        Reply::Accepted
    }
}

// What is answered to a step of the worker.
fn reply_of(step: Step) -> Reply
    ensures said { result ≡ said step }
    ensures printable { IsPrintable result }
{
    match step {
        Step::Idle => Reply::Idle,
        Step::Claim(number) => Reply::Claim(number),
        Step::Sent(number) => Reply::Sent(number),
        Step::Exec(number) => Reply::Exec(number),
        Step::Done(number) => Reply::Done(number),
        Step::Cancelled(number) => Reply::Cancelled(number),
        Step::Lost(number) => Reply::Lost(number),
    }
}
