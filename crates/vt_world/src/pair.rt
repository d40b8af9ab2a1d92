//! Two hosts.
ghost use Rattle.std.specs.Prelude.{◌≡◌, ◌≤◌, [], IfOk, IfSome, OnOk, OnErr};
ghost use Rattle.crb_history.specs.Snapshot.{fresh};
ghost use Rattle.vt_seat.specs.Follows.{Refines};
ghost use Rattle.vt_seat.specs.Seats.{wires_of, world_of, StartsAs, IsEmptySeat};
ghost use Rattle.vt_seat.specs.Wires.{emulator_of};
ghost use Rattle.vt_world.specs.Moving.{PairCanMove, PairMoves, PairGivesUp};
ghost use Rattle.vt_world.specs.Placement.{first_placement};
ghost use Rattle.vt_world.specs.Movable.{IsMovable};
ghost use Rattle.vt_world.specs.Pairs.{new_pair, IsPairReady};
ghost use Rattle.vt_world.specs.State.{seat_of, running_host};

use crb_port::{PlainPort, Port};
use move_core::Host;
use std::alloc::{AllocError, Global};
use std::marker::Model;
use tpm_core::{Banks, SEED_SIZE};
use vt_base::HostName;
use vt_emulator::Emulator;
use vt_seat::{MemWires, Seat};

/// Two hosts, named A and B, each with a worker and the wires to its emulator.
#[derive(Drop)]
pub struct Pair<P: Port> {
    pub(crate) a: Seat<P>,
    pub(crate) b: Seat<P>,
}

impl<P: Port> Model for Pair<P> {
    ghost use Rattle.std.specs.Prelude.{◌≡◌};
    ghost use Rattle.vt_base.specs.declared.types.HostName.TheVariants.{A, B};
    ghost use Rattle.vt_world.specs.State.{PairState};

    ghost Value = { PairState P };

    ghost view = { λ p. record { a = p.a; b = p.b } };

    ghost invariant = { λ p. (p.a.host.name ≡ A) × (p.b.host.name ≡ B) };
}

impl Pair<PlainPort> {
    /// A reset device at A over a TPM of this seed and these banks that was powered on once, and B without a guest, over an emulator without a
    /// TPM. A piece of a record or of a blob has at most `piece` bytes.
    pub fn fresh(
        alloc: Global,
        seed: [u8; SEED_SIZE],
        banks: Banks,
        piece: u32,
    ) -> Result<Pair<PlainPort>, AllocError>
        requires least { 1 ≤ piece }
        requires most { piece ≤ 4096 }
        ensures follows { IfOk result (λ w. Refines (fresh seed banks) [] (world_of w.a)) }
        ensures a { IfOk result (λ w. StartsAs HostName.A piece w.a) }
        ensures b { IfOk result (λ w. IsEmptySeat HostName.B piece w.b) }
        ensures ready { IfOk result IsPairReady }
        ensures movable { IfOk result (IsMovable piece first_placement) }
    {
        let a = Seat::fresh(alloc, HostName::A, seed, banks, piece)?;
        let b = Seat::empty(alloc, HostName::B, piece)?;
        Ok(Pair { a, b })
    }
}

impl<P: Port> Pair<P> {
    /// The hosts A and B with their wires, in this order. Their workers have nothing in hand.
    pub fn new(a: Host<P>, b: Host<P>, wires_a: MemWires, wires_b: MemWires) -> Pair<P>
        requires a { a.name ≡ HostName.A }
        requires b { b.name ≡ HostName.B }
        ensures pair { result ≡ new_pair a b wires_a wires_b }
    {
        Pair {
            a: Seat::new(a, wires_a),
            b: Seat::new(b, wires_b),
        }
    }

    /// The hosts A and B and their wires, in this order. The workers are let go.
    pub fn into_parts(self) -> (Host<P>, Host<P>, MemWires, MemWires)
        ensures a { result.0 ≡ self.a.host }
        ensures b { result.1 ≡ self.b.host }
        ensures wires_a { result.2 ≡ wires_of self.a }
        ensures wires_b { result.3 ≡ wires_of self.b }
    {
        let Pair { a, b } = self;
        let (host_a, wires_a) = a.into_parts();
        let (host_b, wires_b) = b.into_parts();
        (host_a, host_b, wires_a, wires_b)
    }

    /// The host of this name.
    pub fn host(&self, name: HostName) -> &Host<P>
        ensures host { result.now ≡ (seat_of name self.now).host }
    {
        self.seat(name).host()
    }

    /// The emulator behind the wires of the host of this name.
    pub fn emulator(&self, name: HostName) -> &Emulator
        ensures emulator { result.now ≡ emulator_of (seat_of name self.now).link }
    {
        self.seat(name).emulator()
    }

    /// The host whose guest runs. `None` where neither's does.
    pub fn running(&self) -> Option<HostName>
        ensures running { result ≡ running_host self.now }
    {
        if self.a.is_running() {
            Some(HostName::A)
        } else if self.b.is_running() {
            Some(HostName::B)
        } else {
            None
        }
    }

    /// Moves the guest that runs to the other host, each message from hand to hand. Message `lost` of the move is lost, where
    /// it is given; a move with fewer messages is a plain move. After `AllocError` the guest runs on where it was.
    pub fn move_all(&mut self, alloc: Global, lost: Option<u32>) -> Result<(), AllocError>
        requires can_move { PairCanMove P.port_view self.old }
        requires counted { IfSome lost (λ k. 1 ≤ k) }
        ensures moved { OnOk result (PairMoves P.port_view lost self.old self.new) }
        ensures given_up { OnErr result (PairGivesUp P.port_view self.old self.new) }
    {
        if self.a.is_running() {
            self.a.move_to(alloc, &mut self.b, lost)
        } else {
            self.b.move_to(alloc, &mut self.a, lost)
        }
    }

    // The seat of the host of this name.
    fn seat(&self, name: HostName) -> &Seat<P>
        ensures seat { result.now ≡ seat_of name self.now }
    {
        match name {
            HostName::A => &self.a,
            HostName::B => &self.b,
        }
    }
}
