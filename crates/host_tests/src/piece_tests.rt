//! A guest moves in pieces of one byte, while a command of its own waits.
//!
//! Its record has 33 bytes then and the blobs of its TPM 49, 10 and 10: a move has 102 pieces, so it takes 207 deliveries.
ghost use Rattle.std.specs.Prelude.{◌≤◌};

use std::alloc::{AllocError, Global};
use std::process::Abort;
use std::test::*;
use tpm_core::{Banks, SEED_SIZE};
use vt_base::HostName;
use vt_script::{Event, Reply, parse_line};
use vt_world::*;

// A guest takes access and makes the interface ready, writes TPM2_Startup(CLEAR) into the buffer and starts it.
static START: [&[u8]; 6] = [
    b"w 8 4 1",
    b"w 40 4 1",
    b"w 80 4 180",
    b"w 84 4 c00",
    b"w 88 4 4401",
    b"w 4c 4 1",
];

// The worker takes the steps of a command.
static WORK: [&[u8]; 4] = [b"work", b"work", b"work", b"work"];

// Does these lines.
fn do_lines(alloc: Global, world: &mut World, lines: &[&[u8]]) -> Result<(), AllocError> {
    for line in lines {
        if let Some(event) = parse_line(line) {
            drop(world.step(alloc, &event)?);
        }
    }
    Ok(())
}

// The messages from one number up to before another one are delivered.
fn deliver(alloc: Global, world: &mut World, first: u32, end: u32) -> Result<(), AllocError>
    requires least { 1 ≤ first }
{
    for number in first..end {
        drop(world.step(alloc, &Event::Deliver(number))?);
    }
    Ok(())
}

// A guest that has started a command is offered. All messages but the last of the move are delivered, each once.
fn almost_move(alloc: Global, world: &mut World) -> Result<(), AllocError> {
    do_lines(alloc, world, &START)?;
    drop(world.step(alloc, &Event::Offer)?);
    deliver(alloc, world, 1, 207)
}

// The same, but message 51, a Piece of a blob, is lost. Message 50 asks for it once more, so each later number is one more.
fn almost_move_without_one(alloc: Global, world: &mut World) -> Result<(), AllocError> {
    do_lines(alloc, world, &START)?;
    drop(world.step(alloc, &Event::Offer)?);
    deliver(alloc, world, 1, 51)?;
    deliver(alloc, world, 50, 51)?;
    deliver(alloc, world, 52, 208)
}

// The last message is delivered, and the worker does the command. The bytes of the response from place 4 on: the rest of
// its size, 10, and the first half of its code.
fn end_of_response(alloc: Global, world: &mut World, last: u32) -> Result<Reply, AllocError>
    requires least { 1 ≤ last }
{
    deliver(alloc, world, last, last.saturating_add(1))?;
    do_lines(alloc, world, &WORK)?;
    let read = parse_line(b"r 84 4");
    match read {
        Some(line) => world.step(alloc, &line),
        None => Ok(Reply::Stopped),
    }
}

// The guest is at B, and its command was done there.
fn is_done_at_b(rt: &impl Abort, world: &World, reply: &Reply) {
    assert_eq!(rt; world.running(), Some(HostName::B));
    assert!(rt; matches!(reply, Reply::Value { value: 0xA00, .. }));
}

#[test]
fn a_guest_moves_byte_by_byte(rt: HostRuntime) -> Result<(), Fail> {
    let mut world = World::new(rt.alloc(), [0; SEED_SIZE], Banks::Two, 1)?;
    let moved = almost_move(rt.alloc(), &mut world);
    let nobody = world.running();
    let reply = end_of_response(rt.alloc(), &mut world, 207);
    is_done_at_b(&rt, &world, &reply?);
    drop(world);
    moved?;
    assert_eq!(rt; nobody, None);
    Ok(())
}

#[test]
fn a_lost_byte_is_asked_for_once_more(rt: HostRuntime) -> Result<(), Fail> {
    let mut world = World::new(rt.alloc(), [0; SEED_SIZE], Banks::Two, 1)?;
    let moved = almost_move_without_one(rt.alloc(), &mut world);
    let nobody = world.running();
    let reply = end_of_response(rt.alloc(), &mut world, 208);
    is_done_at_b(&rt, &world, &reply?);
    drop(world);
    moved?;
    assert_eq!(rt; nobody, None);
    Ok(())
}
