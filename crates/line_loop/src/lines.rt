//! The loop over the lines of an input.
ghost use Rattle.std.specs.Prelude.{◌≡◌, ◌≢◌, ◌≤◌, ◌+◌, [], ◌∷◌, ℕ, List, true, IsTrue, IfSome, IfNone, length};
ghost use Rattle.std.specs.Io.KnownBytes.{prepend_known, IsAtEnd};
ghost use Rattle.vt_base.specs.Faults.{Rose};
ghost use Rattle.vt_script.specs.Script.{lines_of};
ghost use Rattle.line_loop.specs.Output.{seen, Wrote};
ghost use Rattle.line_loop.specs.Inputs.{Leaves, IsWithinLimits};
ghost use Rattle.line_loop.specs.Actors.{done_by, MayAct, HasEnded, EndsAt, GoesOn, EndsHere};

use crate::actor::{Acted, Actor};
use crate::output::{
    bad_line, flush_before_read, flush_if_full, long_line, too_many_lines, write_and_end,
};
use std::alloc::Global;
use vt_base::{Failed, Sink, Source, Status, write_all};
use vt_script::{Lines, Next};

/// Does the lines of an input one by one, and writes what each gives. While whole lines are in hand their output is
/// gathered; before more is read all of it is written, so that whoever writes the input may wait for it.
///
/// It gives the status of a run that ends before its input does, with its last text written, or `None` where all lines were
/// done and all output was written.
pub fn each_line<A: Actor, S: Source, K: Sink>(
    alloc: Global,
    actor: &mut A,
    source: &mut S,
    sink: &mut K,
) -> Option<Status>
    requires begins { A.goes actor.old [] [] actor.old }
    ensures done { IfNone result (HasEnded A.goes actor.old actor.new (S.left source.old) (seen (K.written sink.old) (K.room sink.old) (K.faults sink.old))
        (seen (K.written sink.new) (K.room sink.new) (K.faults sink.new))) }
    ensures stopped { IfSome result (λ status. IfSome (S.left source.old) (λ input. Leaves status (done_by A.goes A.outside actor.old input) (S.left source.new)
        (seen (K.written sink.old) (K.room sink.old) (K.faults sink.old)) (seen (K.written sink.new) (K.room sink.new) (K.faults sink.new)))) }
    ensures read_to_end { IfNone result (IsAtEnd (S.left source.new)) }
    ensures read_fault { IfSome result (λ status. status ≡ Status.ReadFault → Rose (S.faults source.old) (S.faults source.new)) }
    ensures write_fault { IfSome result (λ status. status ≡ Status.WriteFault → Rose (K.faults sink.old) (K.faults sink.new)) }
    ensures reads_if_promised { IsTrue (S.never_fails source.old) → IfSome result (λ status. status ≢ Status.ReadFault) }
    ensures not_ok { IfSome result (λ status. status ≢ Status.Ok) }
    ensures not_usage { IfSome result (λ status. status ≢ Status.Usage) }
{
    let Ok(mut lines) = Lines::new(alloc) else {
        return Some(Status::Memory);
    };
    let mut pending = Vec::new(alloc);
    loop {
        let Ok(()) = flush_before_read(lines.has_line(), &mut pending, sink) else {
            return Some(Status::WriteFault);
        };
        let Ok(next) = lines.next(alloc, source) else {
            return Some(write_and_end(sink, &pending, &[], Status::Memory));
        };
        let Next::Line = next else {
            return end_at(alloc, next, &pending, sink);
        };
        let end = do_line(
            alloc,
            actor,
            lines.number(),
            lines.line(),
            &mut pending,
            sink,
        );
        if let Some(status) = end {
            return Some(status);
        }
    }
}

// Ends a run where the input ends, or where a limit is passed or a read failed.
fn end_at<K: Sink>(alloc: Global, next: Next, pending: &[u8], sink: &mut K) -> Option<Status>
    requires no_line { next ≢ Next.Line }
    ensures ends { EndsAt next pending.now result (seen (K.written sink.old) (K.room sink.old) (K.faults sink.old))
        (seen (K.written sink.new) (K.room sink.new) (K.faults sink.new)) }
{
    match next {
        Next::Line => unreachable!(),
        Next::End => match write_all(sink, pending) {
            Ok(()) => None,
            Err(Failed) => Some(Status::WriteFault),
        },
        Next::TooLong(number) => Some(long_line(alloc, number, pending, sink)),
        Next::TooMany => Some(too_many_lines(pending, sink)),
        Next::ReadFault => Some(write_and_end(sink, pending, &[], Status::ReadFault)),
    }
}

// Does a line, and gathers its output. It gives the status of a run that ends with this line.
fn do_line<A: Actor, K: Sink>(
    alloc: Global,
    actor: &mut A,
    number: u32,
    line: &[u8],
    pending: &mut Vec<u8>,
    sink: &mut K,
) -> Option<Status>
    requires may_act { MayAct A.goes actor.old }
    ensures goes_on { IfNone result (GoesOn A.goes A.outside line.now actor.old actor.new pending.old.items pending.new.items
        (seen (K.written sink.old) (K.room sink.old) (K.faults sink.old)) (seen (K.written sink.new) (K.room sink.new) (K.faults sink.new))) }
    ensures ends { IfSome result (λ status. EndsHere A.goes A.outside line.now actor.old actor.new number pending.old.items status
        (seen (K.written sink.old) (K.room sink.old) (K.faults sink.old)) (seen (K.written sink.new) (K.room sink.new) (K.faults sink.new))) }
{
    match actor.act(alloc, line, pending) {
        Ok(Acted::Done) => match flush_if_full(pending, sink) {
            Ok(()) => None,
            Err(_) => Some(Status::WriteFault),
        },
        Ok(Acted::NotInGrammar) => Some(bad_line(alloc, number, pending, sink)),
        Err(_) => Some(write_and_end(sink, pending, &[], Status::Memory)),
    }
}
