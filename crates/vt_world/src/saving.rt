//! A world is saved, and made again from what was saved.
ghost use Rattle.std.specs.Prelude.{◌≤◌, ◌≡◌, ℕ, OnErr, IfOk};
ghost use Rattle.crb_history.specs.Snapshot.{Snapshot};
ghost use Rattle.saved_stream.specs.Headers.{wanted_after};
ghost use Rattle.two_hosts.specs.Hosts.{TwoHosts};
ghost use Rattle.two_seats.specs.Both.{FollowsBoth};
ghost use Rattle.vt_seat.specs.Saving.{Saves};
ghost use Rattle.vt_world.specs.Saving.{CanSave, Loads, LoadedBegins};

use crate::world::World;
use std::alloc::{AllocError, Global};
use vt_base::{HostName, Malformed};
use vt_seat::{Saved, Seat};

/// What a load came to.
#[derive(Drop)]
pub enum Loaded {
    /// The host that the stream spells.
    World(World),
    /// Why and where the bytes are no saved stream.
    Bad(Malformed),
}

impl World {
    /// How many bytes are missing of the first header or body of a saved stream that isn't whole in `begin`; see
    /// [`saved_stream::wanted`]. A reader that asks for as many bytes each time, and stops at 0, has what [`World::load`]
    /// takes, and no byte past it.
    pub fn wanted(begin: &[u8]) -> u32
        ensures wanted { result ≡ wanted_after begin.now }
    {
        saved_stream::wanted(begin)
    }

    /// Appends the saved stream of host A: the record of its device and the blobs of its TPM. A command that was
    /// started and that nobody has claimed is saved with the device. The world goes on as before: what is known of it is
    /// known of it still, and of A only the device took back an answer, where one was there. For lack of memory nothing is
    /// appended.
    ///
    /// The guest runs at A. No call on A's wires may be ordered to fail, and its device may not be lost.
    pub fn save(&mut self, alloc: Global, into: &mut Vec<u8>) -> Result<Saved, AllocError>
        requires can_save { (b : Snapshot) × (piece : ℕ) × (t : TwoHosts) × CanSave b piece t self.old }
        ensures saves { IfOk result (λ saved. (b : Snapshot) (piece : ℕ) (t : TwoHosts) → FollowsBoth b piece t self.old → Saves b t.history saved into.old.items into.new.items) }
        ensures follows { (b : Snapshot) (piece : ℕ) (t : TwoHosts) → FollowsBoth b piece t self.old → FollowsBoth b piece t self.new }
        ensures others { self.new ≡ record self.old { a = record self.old.a { host = record self.old.a.host { device = self.new.a.host.device } } } }
        ensures err { OnErr result (into.new.items ≡ into.old.items) }
    {
        let mut stream = Vec::new(alloc);
        let saved = self.a.save(&mut stream)?;
        into.extend_from_slice(&stream)?;
        Ok(saved)
    }

    /// The world whose host A a saved stream spells, with a worker that has nothing in hand, and whose B is empty. A's emulator
    /// was given the blobs and then switched on. A piece of a record or of a blob has at most `piece` bytes.
    pub fn load(alloc: Global, bytes: &[u8], piece: u32) -> Result<Loaded, AllocError>
        requires least { 1 ≤ piece }
        requires most { piece ≤ 4096 }
        ensures loads { IfOk result (Loads piece bytes.now) }
        ensures begins { IfOk result (LoadedBegins piece) }
    {
        match Seat::load(alloc, HostName::A, bytes, piece)? {
            Ok(a) => {
                let b = Seat::empty(alloc, HostName::B, piece)?;
                Ok(Loaded::World(World {
                    a,
                    b,
                    bag: Vec::new(alloc),
                }))
            }
            Err(fault) => Ok(Loaded::Bad(fault)),
        }
    }
}
