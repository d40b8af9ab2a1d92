//! The command `replay`, and any other that does the lines of a script: a reply to each line.
ghost use Rattle.std.specs.Prelude.{◌≡◌, ℕ, None, IfSome};
ghost use Rattle.crb_history.specs.Snapshot.{Snapshot};
ghost use Rattle.vt_script.specs.Script.{event_of};
ghost use Rattle.two_hosts.specs.Hosts.{first_hosts};
ghost use Rattle.two_seats.specs.Both.{FollowsBoth};
ghost use Rattle.script_run.specs.Ends.{HandsOut, HandsWorld, IsWorld};
ghost use Rattle.script_run.specs.Causes.{HasCauses};
ghost use Rattle.script_run.specs.Loop.{Replies};
ghost use Rattle.script_run.specs.Output.{seen};
ghost use Rattle.script_run.specs.Run.{Leaves, followed, replayed};
ghost use Rattle.script_run.specs.Start.{base_of};
ghost use Rattle.script_run.specs.Words.{IsPiece};

use crate::ran::{End, Ran, status_of};
use crate::start::Start;
use line_loop::{Acted, Actor, each_line};
use std::alloc::{AllocError, Global};
use vt_base::{Sink, Source, Status};
use vt_script::{parse_line, print_reply};
use vt_world::World;

/// Does the lines of a script on a new device, and writes a reply to each.
pub fn replay<S: Source, K: Sink>(alloc: Global, start: Start, source: &mut S, sink: &mut K) -> Ran
    requires piece { IsPiece start.piece }
    ensures writes { IfSome (S.left source.old) (λ script. Leaves result.status (replayed start script) (S.left source.new)
        (seen (K.written sink.old) (K.room sink.old) (K.faults sink.old)) (seen (K.written sink.new) (K.room sink.new) (K.faults sink.new))) }
    ensures hands_out { IfSome (S.left source.old) (λ script. HandsOut (HandsWorld (base_of start) start.piece script) result.status result.end) }
    ensures of_world { HandsOut IsWorld result.status result.end }
    ensures causes { HasCauses result.status (S.never_fails source.old) (S.left source.new) (S.faults source.old) (S.faults source.new) (K.faults sink.old) (K.faults sink.new) }
{
    let Ok(world) = start.world(alloc) else {
        return Ran {
            status: Status::Memory,
            end: End::Nothing,
        };
    };
    follow(alloc, world, source, sink)
}

/// Does the lines of a script on a world whose host A has the values of some base, and writes a reply to each.
pub fn follow<S: Source, K: Sink>(alloc: Global, first: World, source: &mut S, sink: &mut K) -> Ran
    ensures writes { (b : Snapshot) (piece : ℕ) → FollowsBoth b piece (first_hosts b) first → IfSome (S.left source.old) (λ script. Leaves result.status (followed b piece script) (S.left source.new)
        (seen (K.written sink.old) (K.room sink.old) (K.faults sink.old)) (seen (K.written sink.new) (K.room sink.new) (K.faults sink.new))) }
    ensures hands_out { (b : Snapshot) (piece : ℕ) → FollowsBoth b piece (first_hosts b) first → IfSome (S.left source.old) (λ script. HandsOut (HandsWorld b piece script) result.status result.end) }
    ensures of_world { HandsOut IsWorld result.status result.end }
    ensures causes { HasCauses result.status (S.never_fails source.old) (S.left source.new) (S.faults source.old) (S.faults source.new) (K.faults sink.old) (K.faults sink.new) }
{
    two_seats::laws::steps_make_runs();
    let mut replayer = Replayer { world: first };
    let end = each_line(alloc, &mut replayer, source, sink);
    Ran::on_hosts(status_of(end), End::World(replayer.world))
}

/// Does the lines of a script on a world, each with a reply.
#[derive(Drop)]
pub struct Replayer {
    pub world: World,
}

impl Actor for Replayer {
    ghost goes = { Replies };

    ghost outside = { λ line. event_of line ≡ None };

    fn act(&mut self, alloc: Global, line: &[u8], into: &mut Vec<u8>) -> Result<Acted, AllocError> {
        let Some(line) = parse_line(line) else {
            return Ok(Acted::NotInGrammar);
        };
        let reply = self.world.step(alloc, &line)?;
        print_reply(alloc, &reply, into)?;
        Ok(Acted::Done)
    }
}
