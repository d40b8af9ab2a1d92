//! Hosts that are saved, and streams that are loaded, over emulators whose replies have pieces of several sizes.
//! Scripts with their replies are in `examples/transcripts`, and the run whose calls on the wires fail in turn is in
//! `examples/check`.
ghost use Rattle.std.specs.Prelude.{◌≤◌};

use move_core::Side;
use std::alloc::{AllocError, Global};
use std::process::Abort;
use std::test::*;
use tpm_core::{Banks, SEED_SIZE};
use vt_base::{HostName, Malformed, Why};
use vt_emulator::Emulator;
use vt_script::{Event, Reply};
use vt_world::*;

// The saved stream of a host with two banks on which no line was done.
const FRESH: [u8; 101] = [
    0x43, 0x52, 0x42, 0x53, 1, 0, 0, 0, 0x5C, // the head
    0x43, 0x52, 0x42, 0x44, 1, 0, 0, 0, 0x0E, 0, 0, 0, 0, 0, 0, 0, 0, 0, 0, 0, 0, 0, 0, 0x43, 0x52,
    0x42, 0x50, 2, 0, 0, 0, 0x28, 0, 0, 0, 0, 0, 0, 0, 0, 0, 0, 0, 0, 0, 0, 0, 0, 0, 0, 0, 0, 0, 0,
    0, 0, 0, 0, 0, 0, 0, 0, 0, 0, 0, 0, 0, 0, 0, 0, 0, 1, 0x43, 0x52, 0x42, 0x56, 2, 0, 0, 0, 1, 0,
    0x43, 0x52, 0x42, 0x5A, 2, 0, 0, 0, 1, 0,
];

// The same of a host with one bank.
fn fresh_of_one() -> [u8; 101] {
    let mut bytes = FRESH;
    bytes[36] = 1;
    bytes[85] = 1;
    bytes[95] = 1;
    bytes
}

// Why and where the bytes are no saved stream, if they are none.
fn fault_of(alloc: Global, bytes: &[u8], piece: u32) -> Result<Option<Malformed>, AllocError>
    requires least { 1 ≤ piece }
    requires most { piece ≤ 4096 }
{
    match World::load(alloc, bytes, piece)? {
        Loaded::World(world) => {
            drop(world);
            Ok(None)
        }
        Loaded::Bad(fault) => Ok(Some(fault)),
    }
}

// What a host answers to lines that move no command.
fn answers(rt: &impl Abort, world: &mut World) {
    assert!(rt; matches!(&world.guest(&Event::Work), Reply::Idle));
    assert!(rt; matches!(&world.guest(&Event::Ask), Reply::Asked));
}

// Whether the emulator behind these wires has a TPM.
fn has_tpm(wires: MemWires) -> bool {
    let has = wires.emulator().tpm().is_some();
    drop(wires);
    has
}

#[test]
fn wires_with_and_without_a_tpm(rt: HostRuntime) -> Result<(), Fail> {
    let with = Emulator::new(rt.alloc(), [0; SEED_SIZE], Banks::Two, 4096)?;
    assert!(rt; has_tpm(MemWires::new(rt.alloc(), with)?));
    let without = Emulator::empty(rt.alloc(), 4096)?;
    assert!(rt; !has_tpm(MemWires::new(rt.alloc(), without)?));
    Ok(())
}

#[test]
fn a_new_world_answers(rt: HostRuntime) -> Result<(), Fail> {
    for piece in [1, 7, 4096] {
        let mut world = World::new(rt.alloc(), [0; SEED_SIZE], Banks::Two, piece)?;
        answers(&rt, &mut world);
        drop(world);
    }
    Ok(())
}

// What the save of a new host comes to, and whether it appends the stream of one on which no line was done.
fn saved_at_once(alloc: Global, piece: u32) -> Result<(Saved, bool), AllocError>
    requires least { 1 ≤ piece }
    requires most { piece ≤ 4096 }
{
    let mut world = World::new(alloc, [0; SEED_SIZE], Banks::Two, piece)?;
    let mut stream = Vec::new(alloc);
    let saved = world.save(alloc, &mut stream);
    drop(world);
    Ok((saved?, stream.as_slice() == FRESH.as_slice()))
}

#[test]
fn a_new_world_is_saved(rt: HostRuntime) -> Result<(), Fail> {
    for piece in [1, 7, 4096] {
        assert_eq!(rt; saved_at_once(rt.alloc(), piece)?, (Saved::Whole, true));
    }
    Ok(())
}

#[test]
fn a_stream_is_loaded(rt: HostRuntime) -> Result<(), Fail> {
    for piece in [1, 7, 4096] {
        assert_eq!(rt; fault_of(rt.alloc(), &FRESH, piece)?, None);
    }
    assert_eq!(rt; fault_of(rt.alloc(), &fresh_of_one(), 4096)?, None);
    let mut mixed = FRESH;
    mixed[85] = 1;
    let version = Malformed {
        why: Why::Version,
        place: 85,
    };
    assert_eq!(rt; fault_of(rt.alloc(), &mixed, 4096)?, Some(version));
    let cut = Malformed {
        why: Why::Cut,
        place: 100,
    };
    assert_eq!(rt; fault_of(rt.alloc(), &FRESH[..100], 4096)?, Some(cut));
    Ok(())
}

// The host at which the guest runs once its move was offered and so many messages were delivered.
fn running_after(alloc: Global, count: u32) -> Result<Option<HostName>, AllocError> {
    let mut world = World::new(alloc, [0; SEED_SIZE], Banks::Two, 4096)?;
    let done = deliver_first(alloc, &mut world, count);
    let running = world.running();
    drop(world);
    done?;
    Ok(running)
}

// The guest is offered, and the first messages are delivered one after the other.
fn deliver_first(alloc: Global, world: &mut World, count: u32) -> Result<(), AllocError> {
    drop(world.step(alloc, &Event::Offer)?);
    for before in 0..count {
        drop(world.step(alloc, &Event::Deliver(before + 1))?);
    }
    Ok(())
}

// With pieces of 4096 bytes a move has four of them, so it takes eleven deliveries. Nobody runs in between.
#[test]
fn a_guest_is_moved_by_its_messages(rt: HostRuntime) -> Result<(), Fail> {
    assert_eq!(rt; running_after(rt.alloc(), 0)?, None);
    assert_eq!(rt; running_after(rt.alloc(), 10)?, None);
    assert_eq!(rt; running_after(rt.alloc(), 11)?, Some(HostName::B));
    Ok(())
}

// What a world lends of its hosts.
fn is_new(rt: &impl Abort, world: &World) {
    assert_eq!(rt; world.host(HostName::A).side(), Side::Running);
    assert_eq!(rt; world.host(HostName::B).side(), Side::Empty);
    assert!(rt; world.emulator(HostName::A).tpm().is_some());
    assert!(rt; world.emulator(HostName::B).tpm().is_none());
}

#[test]
fn a_new_world_lends_its_hosts(rt: HostRuntime) -> Result<(), Fail> {
    let world = World::new(rt.alloc(), [0; SEED_SIZE], Banks::Two, 4096)?;
    is_new(&rt, &world);
    drop(world);
    Ok(())
}
