//! Two hosts, and the messages that were sent between them.
ghost use Rattle.std.specs.Prelude.{◌≡◌, ◌≤◌, [], ℕ, true, false, Some, None, IfOk, OnErr};
ghost use Rattle.crb_history.specs.Snapshot.{Snapshot, fresh};
ghost use Rattle.vt_transcript.specs.OneHost.{OneHost};
ghost use Rattle.vt_transcript.specs.Plain.{is_plain};
ghost use Rattle.move_core.specs.Sides.{is_running};
ghost use Rattle.two_hosts.specs.Hosts.{TwoHosts, first_hosts};
ghost use Rattle.two_seats.specs.Both.{FollowsBoth, StepsBoth, CountsBoth, draining_of, running_of, seat_of};
ghost use Rattle.vt_script.specs.Replies.{IsPrintable};
ghost use Rattle.vt_script.specs.Script.{HasNumber};
ghost use Rattle.vt_script.specs.declared.event.Event.TheVariants.{Fail, Work};
ghost use Rattle.vt_seat.specs.Follows.{Refines, RefinesOneHost, StepRefinesOneHost};
ghost use Rattle.vt_seat.specs.Seats.{world_of, StartsAs, IsEmptySeat};
ghost use Rattle.vt_seat.specs.Wires.{emulator_of};
ghost use Rattle.vt_world.specs.Worlds.{KeepsOthers, IsWorldReady, takes_memory};

use crb_port::PlainPort;
use move_codec::Message;
use move_core::Host;
use std::alloc::{AllocError, Global};
use std::marker::Model;
use tpm_core::{Banks, SEED_SIZE};
use vt_base::HostName;
use vt_emulator::Emulator;
use vt_script::{Event, Reply};
use vt_seat::Seat;

/// Two hosts, named A and B, each a device, its worker, and an emulator behind wires in memory; and the bag of messages that
/// they sent, of which a script delivers any at any time.
#[derive(Drop)]
pub struct World {
    pub(crate) a: Seat<PlainPort>,
    pub(crate) b: Seat<PlainPort>,
    pub(crate) bag: Vec<Message>,
}

impl Model for World {
    ghost use Rattle.std.specs.Prelude.{◌≤◌, vec_len};
    ghost use Rattle.two_seats.specs.Both.{TwoSeats};

    ghost Value = { TwoSeats };

    ghost view = { λ w. record { a = w.a; b = w.b; bag = w.bag.items } };

    ghost invariant = { λ w. vec_len w.bag ≤ 16384 };
}

impl World {
    /// A reset device at A over a TPM of this seed and these banks that was powered on once, and B without a guest, over an emulator without
    /// a TPM. No message was sent, no call is ordered to fail, and none has failed. A piece of a record or of a blob has at most
    /// `piece` bytes.
    pub fn new(
        alloc: Global,
        seed: [u8; SEED_SIZE],
        banks: Banks,
        piece: u32,
    ) -> Result<World, AllocError>
        requires least { 1 ≤ piece }
        requires most { piece ≤ 4096 }
        ensures follows { IfOk result (FollowsBoth (fresh seed banks) piece (first_hosts (fresh seed banks))) }
        ensures at_a { IfOk result (λ w. Refines (fresh seed banks) [] (world_of w.a)) }
        ensures runs { IfOk result (λ w. is_running w.a.host.stage ≡ true) }
        ensures a { IfOk result (λ w. StartsAs HostName.A piece w.a) }
        ensures b { IfOk result (λ w. IsEmptySeat HostName.B piece w.b) }
        ensures ready { IfOk result IsWorldReady }
    {
        let a = Seat::fresh(alloc, HostName::A, seed, banks, piece)?;
        let b = Seat::empty(alloc, HostName::B, piece)?;
        Ok(World {
            a,
            b,
            bag: Vec::new(alloc),
        })
    }

    /// Does one line, and gives its reply. After `AllocError`, which comes for `offer`, `deliver`, `giveup`, `again` and `show`
    /// alone, and for `work` while a host drains, the world is as before. The numbers of messages and of calls begin with 1.
    pub fn step(&mut self, alloc: Global, line: &Event) -> Result<Reply, AllocError>
        requires number { HasNumber line.now }
        ensures steps { IfOk result (λ reply. (b : Snapshot) (piece : ℕ) (t : TwoHosts) → FollowsBoth b piece t self.old → StepsBoth b piece t line.now reply self.new) }
        ensures faults { IfOk result (λ reply. (b : Snapshot) (piece : ℕ) (t : TwoHosts) → FollowsBoth b piece t self.old → CountsBoth t line.now reply self.old self.new) }
        ensures same { OnErr result (self.new ≡ self.old) }
        ensures others { IfOk result (λ reply. is_plain line.now ≡ true → takes_memory self.old line.now ≡ false → KeepsOthers self.old self.new) }
        ensures memory { OnErr result (takes_memory self.old line.now ≡ true) }
        ensures printable { IfOk result IsPrintable }
    {
        match line {
            Event::Access(_) | Event::Ask | Event::Reset => Ok(self.guest(line)),
            Event::Work => self.work(),
            Event::Offer => self.offer(),
            Event::Deliver(number) => self.deliver(alloc, *number),
            Event::GiveUp => self.give_up(),
            Event::Again => self.again(),
            Event::Show(number) => self.show(alloc, *number),
            Event::Fail { host, call } => Ok(self.fail(*host, *call)),
        }
    }

    /// Does an access of the guest, a step of its worker, a cancel at its emulator or a reset, and gives the reply. It takes no
    /// memory. While a host drains its worker's steps are those of [`World::step`].
    pub fn guest(&mut self, line: &Event) -> Reply
        requires plain { is_plain line.now ≡ true }
        ensures steps { (line.now ≡ Work → running_of self.old ≡ None → draining_of self.old ≡ None) → (b : Snapshot) (piece : ℕ) (t : TwoHosts) → FollowsBoth b piece t self.old → StepsBoth b piece t line.now result self.new }
        ensures at_a { running_of self.old ≡ Some HostName.A → (b : Snapshot) (s : OneHost) → RefinesOneHost b s (world_of self.old.a) → StepRefinesOneHost b s line.now result (world_of self.new.a) }
        ensures at_b { running_of self.old ≡ Some HostName.B → (b : Snapshot) (s : OneHost) → RefinesOneHost b s (world_of self.old.b) → StepRefinesOneHost b s line.now result (world_of self.new.b) }
        ensures others { KeepsOthers self.old self.new }
        ensures faults { (line.now ≡ Work → running_of self.old ≡ None → draining_of self.old ≡ None) → (b : Snapshot) (piece : ℕ) (t : TwoHosts) → FollowsBoth b piece t self.old → CountsBoth t line.now result self.old self.new }
        ensures printable { IsPrintable result }
    {
        match self.running() {
            None => Reply::Stopped,
            Some(HostName::A) => self.a.step(line),
            Some(HostName::B) => self.b.step(line),
        }
    }

    /// The host whose guest runs. `None` where neither's does.
    pub fn running(&self) -> Option<HostName>
        ensures running { result ≡ running_of self.now }
    {
        if self.a.is_running() {
            return Some(HostName::A);
        }
        if self.b.is_running() {
            return Some(HostName::B);
        }
        None
    }

    /// The host that drains. `None` where neither does.
    pub fn draining(&self) -> Option<HostName>
        ensures draining { result ≡ draining_of self.now }
    {
        if self.a.is_draining() {
            return Some(HostName::A);
        }
        if self.b.is_draining() {
            return Some(HostName::B);
        }
        None
    }

    /// The host of this name.
    pub fn host(&self, name: HostName) -> &Host<PlainPort>
        ensures host { result.now ≡ (seat_of self.now name).host }
    {
        self.seat(name).host()
    }

    /// The emulator behind the wires of the host of this name.
    pub fn emulator(&self, name: HostName) -> &Emulator
        ensures emulator { result.now ≡ emulator_of (seat_of self.now name).link }
    {
        self.seat(name).emulator()
    }

    // The seat of the host of this name.
    fn seat(&self, name: HostName) -> &Seat<PlainPort>
        ensures seat { result.now ≡ seat_of self.now name }
    {
        match name {
            HostName::A => &self.a,
            HostName::B => &self.b,
        }
    }

    // Lets a call on the wires of a host fail.
    fn fail(&mut self, host: HostName, call: u32) -> Reply
        ensures steps { (b : Snapshot) (piece : ℕ) (t : TwoHosts) → FollowsBoth b piece t self.old → StepsBoth b piece t (Fail host call) result self.new }
        ensures faults { (b : Snapshot) (piece : ℕ) (t : TwoHosts) → FollowsBoth b piece t self.old → CountsBoth t (Fail host call) result self.old self.new }
        ensures printable { IsPrintable result }
    {
        match host {
            HostName::A => self.a.fail_at(u64::from(call)),
            HostName::B => self.b.fail_at(u64::from(call)),
        }
        Reply::Accepted
    }
}
