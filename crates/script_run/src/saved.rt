//! The commands `resume` and `check`: a saved stream is read.
ghost use Rattle.std.specs.Prelude.{◌≡◌, ◌≢◌, ◌≤◌, ◌<◌, ◌++◌, [], List, ℕ, IsTrue, IfSome, IfOk, length};
ghost use Rattle.std.specs.Io.KnownBytes.{Consumes, IsAtEnd};
ghost use Rattle.vt_base.specs.Faults.{Rose};
ghost use Rattle.vt_base.specs.Numbers.{IsBytes};
ghost use Rattle.saved_stream.specs.Headers.{wanted_after, EndsNoStream};
ghost use Rattle.saved_stream.specs.Refusals.{IsStreamRefused};
ghost use Rattle.saved_stream.specs.Streams.{IsStream};
ghost use Rattle.crb_history.specs.Snapshot.{Snapshot};
ghost use Rattle.vt_world.specs.Saving.{Loads};
ghost use Rattle.script_run.specs.Ends.{HandsOut, HandsResumed, IsWorld};
ghost use Rattle.script_run.specs.Fronts.{HasFront};
ghost use Rattle.script_run.specs.Causes.{HasCauses};
ghost use Rattle.script_run.specs.Output.{seen};
ghost use Rattle.script_run.specs.Run.{Leaves};
ghost use Rattle.script_run.specs.Saved.{resumed, checked};
ghost use Rattle.script_run.specs.Words.{IsPiece};

use crate::output::{refused, whole};
use crate::ran::{End, Ran};
use crate::replay::follow;
use ctrl_model::LARGEST_PIECE;
use std::alloc::{AllocError, Global};
use vt_base::{Failed, Malformed, Sink, Source, Status, Why};
use vt_world::{Loaded, World};

/// Goes on from the saved stream at the start of the input: does the lines of the script behind it, and writes a reply
/// to each.
pub fn resume<S: Source, K: Sink>(alloc: Global, piece: u32, source: &mut S, sink: &mut K) -> Ran
    requires piece { IsPiece piece }
    ensures writes { IfSome (S.left source.old) (λ input. Leaves result.status (resumed piece input) (S.left source.new)
        (seen (K.written sink.old) (K.room sink.old) (K.faults sink.old)) (seen (K.written sink.new) (K.room sink.new) (K.faults sink.new))) }
    ensures hands_out { IfSome (S.left source.old) (λ input. HandsOut (HandsResumed piece input) result.status result.end) }
    ensures of_world { HandsOut IsWorld result.status result.end }
    ensures causes { HasCauses result.status (S.never_fails source.old) (S.left source.new) (S.faults source.old) (S.faults source.new) (K.faults sink.old) (K.faults sink.new) }
{
    saved_stream::laws::wanted_bytes_are_enough();
    let mut front = Vec::new(alloc);
    if let Some(status) = read_front(source, &mut front) {
        return Ran {
            status,
            end: End::Nothing,
        };
    }
    match load_front(alloc, &front, piece) {
        Ok(Loaded::World(world)) => follow(alloc, world, source, sink),
        Ok(Loaded::Bad(fault)) => Ran {
            status: refused(alloc, &fault, sink),
            end: End::Nothing,
        },
        Err(_) => Ran {
            status: Status::Memory,
            end: End::Nothing,
        },
    }
}

/// Says how long the saved stream is that the input is, or why and where it is none.
pub fn check<S: Source, K: Sink>(alloc: Global, source: &mut S, sink: &mut K) -> Status
    ensures writes { IfSome (S.left source.old) (λ input. Leaves result (checked input) (S.left source.new)
        (seen (K.written sink.old) (K.room sink.old) (K.faults sink.old)) (seen (K.written sink.new) (K.room sink.new) (K.faults sink.new))) }
    ensures causes { HasCauses result (S.never_fails source.old) (S.left source.new) (S.faults source.old) (S.faults source.new) (K.faults sink.old) (K.faults sink.new) }
{
    saved_stream::laws::wanted_bytes_are_enough();
    let mut front = Vec::new(alloc);
    if let Some(status) = read_front(source, &mut front) {
        return status;
    }
    match load_front(alloc, &front, LARGEST_PIECE as u32) {
        Ok(Loaded::World(world)) => {
            drop(world);
            end_behind(alloc, front.len(), source, sink)
        }
        Ok(Loaded::Bad(fault)) => refused(alloc, &fault, sink),
        Err(_) => Status::Memory,
    }
}

// Loads what was read in front, whose bytes are what their type makes sure of.
fn load_front(alloc: Global, front: &[u8], piece: u32) -> Result<Loaded, AllocError>
    requires piece { IsPiece piece }
    ensures loads { IfOk result (Loads piece front.now) }
    ensures bytes { IsBytes front.now }
{
    World::load(alloc, front, piece)
}

/// How many bytes one read of a stream asks for at most.
const CHUNK: usize = 4096;

// Reads a saved stream, header by header: as many bytes as are wanted each time, until no more are, or the input ends.
// So no byte behind the stream is taken. It gives the status of a run that ends here.
fn read_front<S: Source>(source: &mut S, front: &mut Vec<u8>) -> Option<Status>
    requires first { front.old.items ≡ [] }
    ensures front { HasFront result (S.left source.old) (S.left source.new) front.new.items }
    ensures at_most { length front.new.items ≤ 15973 }
    ensures faults { IfSome result (λ status. status ≡ Status.ReadFault → Rose (S.faults source.old) (S.faults source.new)) }
    ensures reads_if_promised { IsTrue (S.never_fails source.old) → IfSome result (λ status. status ≢ Status.ReadFault) × IsTrue (S.never_fails source.new) }
    ensures counts { result ≢ Some Status.ReadFault → S.faults source.new ≡ S.faults source.old }
{
    saved_stream::laws::wanted_bytes_are_enough();
    let mut chunk = [0u8; CHUNK];
    loop {
        let wanted = World::wanted(front) as usize;
        if wanted == 0 {
            return None;
        }
        let room = wanted.min(CHUNK);
        match source.read(&mut chunk[..room]) {
            Err(Failed) => return Some(Status::ReadFault),
            Ok(0) => return None,
            Ok(count) => {
                if front.extend_from_slice(&chunk[..count]).is_err() {
                    return Some(Status::Memory);
                }
            }
        }
    }
}

// Says how long a saved stream is, or that bytes stand behind it.
fn end_behind<S: Source, K: Sink>(
    alloc: Global,
    size: usize,
    source: &mut S,
    sink: &mut K,
) -> Status
    requires { size < 4294967296 }
    ensures writes { (front : List ℕ) (b : Snapshot) → IsStream front b → length front ≡ size → IfSome (S.left source.old) (λ rest. Leaves result (checked (front ++ rest)) (S.left source.new)
        (seen (K.written sink.old) (K.room sink.old) (K.faults sink.old)) (seen (K.written sink.new) (K.room sink.new) (K.faults sink.new))) }
    ensures causes { HasCauses result (S.never_fails source.old) (S.left source.new) (S.faults source.old) (S.faults source.new) (K.faults sink.old) (K.faults sink.new) }
{
    let mut more = [0u8; 1];
    match source.read(&mut more) {
        Err(Failed) => Status::ReadFault,
        Ok(0) => whole(alloc, size, sink),
        Ok(_) => {
            let fault = Malformed {
                why: Why::Extra,
                place: size as u32,
            };
            refused(alloc, &fault, sink)
        }
    }
}
