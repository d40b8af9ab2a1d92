//! The command `suspend`: the lines of a script are done, and the host is saved.
ghost use Rattle.std.specs.Prelude.{◌≡◌, ℕ, None, true, IfSome};
ghost use Rattle.crb_history.specs.Snapshot.{Snapshot};
ghost use Rattle.vt_transcript.specs.Plain.{is_plain};
ghost use Rattle.two_hosts.specs.Hosts.{TwoHosts};
ghost use Rattle.two_seats.specs.Both.{FollowsBoth};
ghost use Rattle.vt_world.specs.Saving.{CanSave};
ghost use Rattle.script_run.specs.Causes.{HasCauses};
ghost use Rattle.script_run.specs.Loop.{Suspends, WritesSaved};
ghost use Rattle.script_run.specs.Output.{seen};
ghost use Rattle.script_run.specs.Run.{Leaves};
ghost use Rattle.script_run.specs.Saved.{suspended, plain_event_of};
ghost use Rattle.script_run.specs.Words.{IsPiece};

use crate::output::not_yet;
use crate::start::Start;
use line_loop::{Acted, Actor, each_line, write_and_end};
use std::alloc::{AllocError, Global};
use vt_base::{Sink, Source, Status};
use vt_script::{Event, parse_line};
use vt_world::{Saved, World};

/// Does the lines of a script on a new device, and writes the saved stream of the host at their end.
pub fn suspend<S: Source, K: Sink>(
    alloc: Global,
    start: Start,
    source: &mut S,
    sink: &mut K,
) -> Status
    requires piece { IsPiece start.piece }
    ensures writes { IfSome (S.left source.old) (λ script. Leaves result (suspended start script) (S.left source.new)
        (seen (K.written sink.old) (K.room sink.old) (K.faults sink.old)) (seen (K.written sink.new) (K.room sink.new) (K.faults sink.new))) }
    ensures causes { HasCauses result (S.never_fails source.old) (S.left source.new) (S.faults source.old) (S.faults source.new) (K.faults sink.old) (K.faults sink.new) }
{
    let Ok(world) = start.world(alloc) else {
        return Status::Memory;
    };
    let mut suspended = SuspendedWorld { start, world };
    let end = each_line(alloc, &mut suspended, source, sink);
    if let Some(status) = end {
        return status;
    }
    vt_transcript::plain_runs_are_one();
    save(alloc, &mut suspended.world, sink)
}

/// Does the lines of a guest on a world, before it is saved, and how it began.
#[derive(Drop)]
pub struct SuspendedWorld {
    pub start: Start,
    pub world: World,
}

impl Actor for SuspendedWorld {
    ghost goes = { Suspends };

    ghost outside = { λ line. plain_event_of line ≡ None };

    fn act(
        &mut self,
        _alloc: Global,
        line: &[u8],
        _into: &mut Vec<u8>,
    ) -> Result<Acted, AllocError> {
        let Some(line) = plain_line(line) else {
            return Ok(Acted::NotInGrammar);
        };
        self.world.guest(&line);
        Ok(Acted::Done)
    }
}

// Writes the saved stream of a host.
fn save<K: Sink>(alloc: Global, world: &mut World, sink: &mut K) -> Status
    requires can_save { (b : Snapshot) × (piece : ℕ) × (t : TwoHosts) × CanSave b piece t world.old }
    ensures writes { (b : Snapshot) (piece : ℕ) (t : TwoHosts) → FollowsBoth b piece t world.old → WritesSaved b t.history result (seen (K.written sink.old) (K.room sink.old) (K.faults sink.old))
        (seen (K.written sink.new) (K.room sink.new) (K.faults sink.new)) }
{
    let mut stream = Vec::new(alloc);
    match world.save(alloc, &mut stream) {
        Ok(Saved::Whole) => write_and_end(sink, &stream, &[], Status::Ok),
        Ok(Saved::NotYet(number)) => not_yet(alloc, number, sink),
        Err(_) => Status::Memory,
    }
}

// What a line of a suspension asks for. A host on which a call is to fail isn't saved, nor one that takes part in a
// move.
fn plain_line(text: &[u8]) -> Option<Event>
    ensures line { result ≡ plain_event_of text.now }
    ensures plain { IfSome result (λ line. is_plain line ≡ true) }
{
    match parse_line(text)? {
        line @ (Event::Access(_) | Event::Work | Event::Ask | Event::Reset) => Some(line),
        Event::Offer
        | Event::Deliver(_)
        | Event::GiveUp
        | Event::Again
        | Event::Show(_)
        | Event::Fail { .. } => None,
    }
}
