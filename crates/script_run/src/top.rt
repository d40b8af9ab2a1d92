//! The top call.
ghost use Rattle.std.specs.Prelude.{◌≡◌, ◌≢◌, ◌⊎◌, ℕ, IsTrue, IfSome, IsSomeAnd};
ghost use Rattle.std.specs.Io.KnownBytes.{IsAtEnd};
ghost use Rattle.vt_base.specs.Faults.{Rose};
ghost use Rattle.script_run.specs.Actions.{reading_of};
ghost use Rattle.script_run.specs.Bulk.{bulk_summary};
ghost use Rattle.script_run.specs.Ends.{EndOf, BulkEnd, HasEnd};
ghost use Rattle.script_run.specs.Output.{seen, Finishes, FinishesAlone};
ghost use Rattle.script_run.specs.Causes.{HasCauses};
ghost use Rattle.script_run.specs.Run.{Leaves, Writes, IsCramped, IsGood};
ghost use Rattle.script_run.specs.Words.{IsAction, IsBulk, IsUnknown, HasPiece, usage_text};

use crate::action::{Action, Task, task_of};
use crate::bulk::bulk;
use crate::drive::drive;
use crate::ran::{End, Ran};
use crate::replay::replay;
use crate::saved::{check, resume};
use crate::suspend::suspend;
use line_loop::write_and_end;
use std::alloc::Global;
use vt_base::{Sink, Source, Status};

const USAGE: &[u8] = b"usage: crbsim replay, drive, suspend, resume, check or bulk\n";

/// Does what the words say, over this input and this output. `replay` reads a script and writes one reply a line.
/// `drive` reads lines `cmd HEX`, `move` and `movefail K`, and writes the response to each command in hexadecimal.
/// `suspend` reads a script, and writes the saved stream of the host at its end. `resume` reads a saved stream and then
/// a script, and writes one reply a line. `check` reads a saved stream and writes how long it is. `bulk N COUNT` reads
/// nothing: it does the drive lines that are drawn from the seed N, and writes how many of each kind there were and the
/// SHA-256 of what `drive` writes for them.
///
/// Options follow the command: of `replay`, `drive` and `suspend` `--piece P`, the most bytes of a piece, `--seed HEX`,
/// the seed of the TPM, and `--banks B`, its 1 or 2 banks; of `resume` `--piece P`. Each is given at most once, as two
/// words or as one with `=`, in any order. Without them a piece has at most 4096 bytes, the seed is zeros, and there are two
/// banks.
///
/// What `replay` and `resume` print is a run of one CRB device over one TPM that never moved, whatever messages between
/// the two hosts are lost, repeated or reordered. Lines have one run (`two_hosts::laws::runs_are_one`), so the replies
/// that are written and the world that is handed out are of the same one.
///
/// Where `replay` or `resume` is `Ok`, the world that did the lines is handed out, and where `drive` or `bulk` is, the
/// two hosts that did them. The status is `Ok` where the whole input was read and done; `Usage` where the words
/// aren't in their grammar, and then nothing is read; `Script` at the first line that isn't in the grammar; `Limit` where
/// a line has more than 8256 bytes, or where line 1,000,001 begins; `Refused` where the input isn't, or doesn't begin with, a saved stream; `NotYet`
/// where a host can't be saved since a command of it is claimed and unfinished; `ReadFault` and `WriteFault` where the
/// source or the sink failed; `Memory` where memory was lacking.
pub fn run<S: Source, K: Sink>(alloc: Global, words: &[String], source: &mut S, sink: &mut K) -> Ran
    // Where the bytes of the source and the sink are known: what is written is what the action reads in the input.
    ensures does { (action : Action) → IsAction action words.now
        → IfSome (S.left source.old) (λ input. Writes result.status (reading_of action input) (S.left source.new) (K.written sink.old) (K.written sink.new)) }

    // `bulk` reads nothing and writes its one line, or nothing for lack of memory. A sink fails only where the line is
    // longer than its promised room.
    ensures sums_up { (seed count : ℕ) → IsBulk seed count words.now → FinishesAlone Status.Ok (bulk_summary seed count) result.status
        (seen (K.written sink.old) (K.room sink.old) (K.faults sink.old)) (seen (K.written sink.new) (K.room sink.new) (K.faults sink.new)) }
    ensures needs_no_input { (seed count : ℕ) → IsBulk seed count words.now → source.new ≡ source.old }

    // Where all lines were done, the hosts that did them are handed out; with any other words or status nothing is.
    ensures hands_out { (action : Action) → IsAction action words.now
        → IfSome (S.left source.old) (λ input. EndOf action input result.status result.end) }
    ensures hands_out_on_ok { (action : Action) → IsAction action words.now → HasEnd action result.status result.end }
    ensures bulk_hands_out { (seed count : ℕ) → IsBulk seed count words.now → BulkEnd seed count result.status result.end }
    ensures usage_hands_out { IsUnknown words.now → result.end ≡ End.Nothing }

    // Each other answer has its cause.
    ensures usage { result.status ≡ Status.Usage → IsUnknown words.now }
    ensures words { IsUnknown words.now → Finishes Status.Usage usage_text result.status
        (seen (K.written sink.old) (K.room sink.old) (K.faults sink.old)) (seen (K.written sink.new) (K.room sink.new) (K.faults sink.new)) }
    ensures read_fault { result.status ≡ Status.ReadFault → Rose (S.faults source.old) (S.faults source.new) }
    ensures write_fault { result.status ≡ Status.WriteFault → Rose (K.faults sink.old) (K.faults sink.new) }

    // A source that promises not to fail gives no fault, and a sink fails only where some output is longer than its
    // promised room.
    ensures reads_if_promised { IsTrue (S.never_fails source.old) → result.status ≢ Status.ReadFault }
    ensures writes_if_promised { (action : Action) → IsAction action words.now
        → IfSome (S.left source.old) (λ input. result.status ≡ Status.WriteFault → IsCramped (reading_of action input) (K.room sink.old)) }

    // With words that aren't known nothing is read; a run that ends well read its input to the end.
    ensures unread { IsUnknown words.now → source.new ≡ source.old }
    ensures read_to_end { (action : Action) → IsAction action words.now → result.status ≡ Status.Ok → IsAtEnd (S.left source.new) }

    // Over a good input, with no fault of the source or the sink, it does its work or lacks memory.
    ensures complete { (action : Action) → IsAction action words.now → IsSomeAnd (S.left source.old) (λ input. IsGood (reading_of action input))
        → (Rose (S.faults source.old) (S.faults source.new) → ⊥) → (Rose (K.faults sink.old) (K.faults sink.new) → ⊥)
        → (result.status ≡ Status.Ok) ⊎ (result.status ≡ Status.Memory) }
{
    match task_of(words) {
        Some(Task::Read(action)) => run_action(alloc, action, source, sink),
        Some(Task::Bulk { seed, count }) => bulk(alloc, seed, count, sink),
        None => Ran {
            status: write_and_end(sink, &[], USAGE, Status::Usage),
            end: End::Nothing,
        },
    }
}

// Does what the action makes of the input.
fn run_action<S: Source, K: Sink>(
    alloc: Global,
    action: Action,
    source: &mut S,
    sink: &mut K,
) -> Ran
    requires { HasPiece action }
    ensures leaves { IfSome (S.left source.old) (λ input. Leaves result.status (reading_of action input) (S.left source.new)
        (seen (K.written sink.old) (K.room sink.old) (K.faults sink.old)) (seen (K.written sink.new) (K.room sink.new) (K.faults sink.new))) }
    ensures hands_out { IfSome (S.left source.old) (λ input. EndOf action input result.status result.end) }
    ensures hands_out_on_ok { HasEnd action result.status result.end }
    ensures causes { HasCauses result.status (S.never_fails source.old) (S.left source.new) (S.faults source.old) (S.faults source.new) (K.faults sink.old) (K.faults sink.new) }
{
    match action {
        Action::Replay { start } => replay(alloc, start, source, sink),
        Action::Drive { start } => drive(alloc, start, source, sink),
        Action::Suspend { start } => Ran {
            status: suspend(alloc, start, source, sink),
            end: End::Nothing,
        },
        Action::Resume { piece } => resume(alloc, piece, source, sink),
        Action::Check => Ran {
            status: check(alloc, source, sink),
            end: End::Nothing,
        },
    }
}
