//! What is written: gathered output, and the texts that end it.
ghost use Rattle.std.specs.Prelude.{◌≡◌, ◌≢◌, ◌<◌, ◌++◌, ◌∷◌, [], OnOk, OnErr, length, codes, false};
ghost use Rattle.vt_script.specs.Replies.{numbered};
ghost use Rattle.line_loop.specs.Output.{seen, Breaks, Finishes, Flushes, FinishesBehind};

use std::alloc::Global;
use vt_base::{Failed, Sink, Status, write_all};

/// How many bytes of output are gathered before they are written.
const CHUNK: usize = 32_768;

/// Writes the pending bytes and a last text. It gives the status, or `WriteFault`.
pub fn write_and_end<K: Sink>(sink: &mut K, pending: &[u8], text: &[u8], status: Status) -> Status
    requires { status ≢ Status.WriteFault }
    ensures writes { Finishes status (pending.now ++ text.now) result (seen (K.written sink.old) (K.room sink.old) (K.faults sink.old))
        (seen (K.written sink.new) (K.room sink.new) (K.faults sink.new)) }
{
    let Ok(()) = write_all(sink, pending) else {
        return Status::WriteFault;
    };
    let Ok(()) = write_all(sink, text) else {
        return Status::WriteFault;
    };
    status
}

/// Writes the pending bytes, if the next line isn't in hand yet: so whoever waits for them before it sends more doesn't
/// wait for good.
pub fn flush_before_read<K: Sink>(
    in_hand: bool,
    pending: &mut Vec<u8>,
    sink: &mut K,
) -> Result<(), Failed>
    ensures ok { OnOk result (Flushes (seen (K.written sink.old) (K.room sink.old) (K.faults sink.old))
        (seen (K.written sink.new) (K.room sink.new) (K.faults sink.new)) pending.old.items pending.new.items) }
    ensures none { in_hand ≡ false → OnOk result (pending.new.items ≡ []) }
    ensures err { OnErr result (Breaks (seen (K.written sink.old) (K.room sink.old) (K.faults sink.old))
        (seen (K.written sink.new) (K.room sink.new) (K.faults sink.new)) pending.old.items) }
{
    if !in_hand {
        write_all(sink, pending)?;
        pending.clear();
    }
    Ok(())
}

/// Writes the pending bytes, if they fill a chunk. So less than a chunk is pending, however long the output gets.
pub fn flush_if_full<K: Sink>(pending: &mut Vec<u8>, sink: &mut K) -> Result<(), Failed>
    ensures ok { OnOk result (Flushes (seen (K.written sink.old) (K.room sink.old) (K.faults sink.old))
        (seen (K.written sink.new) (K.room sink.new) (K.faults sink.new)) pending.old.items pending.new.items) }
    ensures small { OnOk result (length pending.new.items < 32768) }
    ensures err { OnErr result (Breaks (seen (K.written sink.old) (K.room sink.old) (K.faults sink.old))
        (seen (K.written sink.new) (K.room sink.new) (K.faults sink.new)) pending.old.items) }
{
    if pending.len() >= CHUNK {
        write_all(sink, pending)?;
        pending.clear();
    }
    Ok(())
}

/// Writes the pending bytes, and the number of a line that isn't in the grammar.
pub fn bad_line<K: Sink>(alloc: Global, number: u32, pending: &[u8], sink: &mut K) -> Status
    ensures says { FinishesBehind Status.Script pending.now (numbered (codes "bad line ") number) result (seen (K.written sink.old) (K.room sink.old) (K.faults sink.old))
        (seen (K.written sink.new) (K.room sink.new) (K.faults sink.new)) }
{
    match format!(in alloc; "bad line {number}\n") {
        Ok(text) => write_and_end(sink, pending, text.as_bytes(), Status::Script),
        Err(_) => write_and_end(sink, pending, &[], Status::Memory),
    }
}

/// Writes the pending bytes, and the number of a line that has too many bytes.
pub fn long_line<K: Sink>(alloc: Global, number: u32, pending: &[u8], sink: &mut K) -> Status
    ensures says { FinishesBehind Status.Limit pending.now (numbered (codes "long line ") number) result (seen (K.written sink.old) (K.room sink.old) (K.faults sink.old))
        (seen (K.written sink.new) (K.room sink.new) (K.faults sink.new)) }
{
    match format!(in alloc; "long line {number}\n") {
        Ok(text) => write_and_end(sink, pending, text.as_bytes(), Status::Limit),
        Err(_) => write_and_end(sink, pending, &[], Status::Memory),
    }
}

/// Writes the pending bytes, and that the input has too many lines.
pub fn too_many_lines<K: Sink>(pending: &[u8], sink: &mut K) -> Status
    ensures says { Finishes Status.Limit (pending.now ++ (codes "too many lines" ++ 10 ∷ [])) result (seen (K.written sink.old) (K.room sink.old) (K.faults sink.old))
        (seen (K.written sink.new) (K.room sink.new) (K.faults sink.new)) }
{
    write_and_end(sink, pending, b"too many lines\n", Status::Limit)
}
