//! The command `drive`: a driver does the command of each line, the guest is moved between them, and the responses are
//! written.
ghost use Rattle.std.specs.Prelude.{◌≡◌, ◌≤◌, ℕ, None, IfSome, OnOk, OnErr, length, take};
ghost use Rattle.tpm_frame.specs.Sizes.{IsWellSized};
ghost use Rattle.vt_script.specs.Drive.{IsDriveLine, drive_of};
ghost use Rattle.crb_history.specs.Snapshot.{Snapshot};
ghost use Rattle.crb_history.specs.Event.{History};
ghost use Rattle.vt_seat.specs.Follows.{tpm_at};
ghost use Rattle.vt_world.specs.Pairs.{IsRunning, running_world};
ghost use Rattle.vt_world.specs.Placement.{Placement, moved};
ghost use Rattle.vt_world.specs.Movable.{IsMovable};
ghost use Rattle.script_run.specs.Calls.{Calls, CanRespond, IsAtRest, IsWaiting, Responds};
ghost use Rattle.script_run.specs.Ends.{HandsOut, HandsPair, AreDriveLines, IsPair};
ghost use Rattle.script_run.specs.Causes.{HasCauses};
ghost use Rattle.script_run.specs.Loop.{Drives};
ghost use Rattle.script_run.specs.Output.{seen};
ghost use Rattle.script_run.specs.Placed.{pieces_of_move};
ghost use Rattle.script_run.specs.Run.{Leaves, driven_by};
ghost use Rattle.script_run.specs.Start.{base_of};
ghost use Rattle.script_run.specs.Words.{IsPiece};
ghost use Rattle.script_run.specs.declared.start.Start.{Start};

use crate::ran::{End, Ran, status_of};
use crate::start::Start;
use crb_driver::Driver;
use crb_port::PlainPort;
use line_loop::{Acted, Actor, each_line};
use std::alloc::{AllocError, Global};
use vt_base::{BUFFER_LENGTH, Sink, Source, Status};
use vt_script::{DriveLine, parse_drive, print_response};
use vt_world::{Pair, laws};

/// How often START is read before a command is given up. Four steps of the worker end each command.
const POLLS: u32 = 8;

/// Does a script's drive lines on two new hosts: writes the response to each command in hexadecimal, and moves the
/// guest to the other host where a line asks for it.
pub fn drive<S: Source, K: Sink>(alloc: Global, start: Start, source: &mut S, sink: &mut K) -> Ran
    requires piece { IsPiece start.piece }
    ensures writes { IfSome (S.left source.old) (λ script. Leaves result.status (driven_by start script) (S.left source.new)
        (seen (K.written sink.old) (K.room sink.old) (K.faults sink.old)) (seen (K.written sink.new) (K.room sink.new) (K.faults sink.new))) }
    ensures hands_out { IfSome (S.left source.old) (λ script. HandsOut (HandsPair start (AreDriveLines script)) result.status result.end) }
    ensures of_pair { HandsOut IsPair result.status result.end }
    ensures causes { HasCauses result.status (S.never_fails source.old) (S.left source.new) (S.faults source.old) (S.faults source.new) (K.faults sink.old) (K.faults sink.new) }
{
    let Ok(pair) = start.pair(alloc) else {
        return Ran {
            status: Status::Memory,
            end: End::Nothing,
        };
    };
    let mut driven = DrivenPair { start, pair };
    let end = each_line(alloc, &mut driven, source, sink);
    Ran::on_hosts(status_of(end), End::Pair(driven.pair))
}

/// Two hosts on which drive lines are done, and how they began.
#[derive(Drop)]
pub struct DrivenPair {
    pub start: Start,
    pub pair: Pair<PlainPort>,
}

impl Actor for DrivenPair {
    ghost goes = { Drives };

    ghost outside = { λ line. drive_of line ≡ None };

    fn act(&mut self, alloc: Global, line: &[u8], into: &mut Vec<u8>) -> Result<Acted, AllocError> {
        let Some(line) = parse_drive(alloc, line)? else {
            return Ok(Acted::NotInGrammar);
        };
        respond(alloc, &mut self.pair, &line, into)?;
        Ok(Acted::Done)
    }
}

/// Does the command of a line and appends the text of its response, or moves the guest and appends nothing. An `Err` is
/// lack of memory.
#[tactic(auto, using(crate::proofs::Guests::moved_responds))]
pub fn respond(
    alloc: Global,
    pair: &mut Pair<PlainPort>,
    line: &DriveLine,
    into: &mut Vec<u8>,
) -> Result<(), AllocError>
    requires valid { IsDriveLine line.now }
    requires waits { CanRespond pair.old }
    ensures ok { OnOk result ((start : Start) (p : History) (s : Placement) → IsWaiting start p s pair.old
        → Responds start p s line.now into.old.items into.new.items pair.new) }
    ensures err { OnErr result (into.new.items ≡ into.old.items) }
{
    match line {
        DriveLine::Cmd(command) => {
            let mut response = [0; BUFFER_LENGTH];
            let count = call(pair, command.as_slice(), &mut response);
            print_response(alloc, &response[..count], into)
        }
        DriveLine::Move => move_guest(alloc, pair, None),
        DriveLine::MoveFail(message) => move_guest(alloc, pair, Some(*message)),
    }
}

// Has a driver do a command, and gives the length of the answer, the first bytes of `into`.
fn call(pair: &mut Pair<PlainPort>, command: &[u8], into: &mut [u8]) -> usize
    requires sized { IsWellSized command.now }
    requires room { BUFFER_LENGTH ≤ length into.old }
    requires rests { (b : Snapshot) × (p : History) × IsAtRest b p (running_world pair.old) }
    requires runs { IsRunning pair.old }
    ensures calls { (b : Snapshot) (p : History) → IsAtRest b p (running_world pair.old)
        → Calls b p command.now (take result into.new) (running_world pair.new) }
    ensures within { result ≤ length into.new }
    ensures place { (piece : ℕ) (s : Placement) → IsMovable piece s pair.old → IsMovable piece s pair.new }
{
    tpm_core::laws::answers_are_responses();
    laws::accesses_keep_the_placement();
    match Driver::new().call(pair, command, into, POLLS) {
        Ok(count) => count,
        Err(_fault) => unreachable!(),
    }
}

// Moves the guest to the other host. Message `lost` of the move is lost, where it is given.
fn move_guest(
    alloc: Global,
    pair: &mut Pair<PlainPort>,
    lost: Option<u32>,
) -> Result<(), AllocError>
    requires waits { CanRespond pair.old }
    requires counted { IfSome lost (λ k. 1 ≤ k) }
    ensures moved { OnOk result ((start : Start) (p : History) (s : Placement) → IsWaiting start p s pair.old
        → IsWaiting start p (moved (pieces_of_move start.piece (tpm_at (base_of start) p)) lost s) pair.new) }
{
    laws::guests_can_move();
    laws::idle_guests_have_short_records();
    pair.move_all(alloc, lost)
}
