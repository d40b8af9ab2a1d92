//! The texts that end a run.
ghost use Rattle.std.specs.Prelude.{◌≡◌};
ghost use Rattle.script_run.specs.Output.{seen, FinishesAlone};
ghost use Rattle.script_run.specs.Saved.{word_of, refused_text, whole_text, not_yet_text};

use line_loop::write_and_end;
use std::alloc::Global;
use vt_base::{Malformed, Sink, Status, Why};

/// Writes the number of the command that is claimed and unfinished.
pub fn not_yet<K: Sink>(alloc: Global, number: u64, sink: &mut K) -> Status
    ensures says { FinishesAlone Status.NotYet (not_yet_text number) result (seen (K.written sink.old) (K.room sink.old) (K.faults sink.old))
        (seen (K.written sink.new) (K.room sink.new) (K.faults sink.new)) }
{
    match format!(in alloc; "not yet {number}\n") {
        Ok(text) => write_and_end(sink, &[], text.as_bytes(), Status::NotYet),
        Err(_) => Status::Memory,
    }
}

/// Writes how many bytes a saved stream has.
pub fn whole<K: Sink>(alloc: Global, size: usize, sink: &mut K) -> Status
    ensures says { FinishesAlone Status.Ok (whole_text size) result (seen (K.written sink.old) (K.room sink.old) (K.faults sink.old))
        (seen (K.written sink.new) (K.room sink.new) (K.faults sink.new)) }
{
    match format!(in alloc; "saved stream {size} bytes\n") {
        Ok(text) => write_and_end(sink, &[], text.as_bytes(), Status::Ok),
        Err(_) => Status::Memory,
    }
}

/// Writes why, and where, bytes are no saved stream.
pub fn refused<K: Sink>(alloc: Global, fault: &Malformed, sink: &mut K) -> Status
    ensures says { FinishesAlone Status.Refused (refused_text fault.now) result (seen (K.written sink.old) (K.room sink.old) (K.faults sink.old))
        (seen (K.written sink.new) (K.room sink.new) (K.faults sink.new)) }
{
    let word = word_of(fault.why);
    let place = fault.place;
    match format!(in alloc; "refused {word} at {place}\n") {
        Ok(text) => write_and_end(sink, &[], text.as_bytes(), Status::Refused),
        Err(_) => Status::Memory,
    }
}

// The word of a reason.
fn word_of(why: Why) -> &'static str
    ensures { result.now ≡ word_of why }
{
    match why {
        Why::Magic => "magic",
        Why::Version => "version",
        Why::Length => "length",
        Why::Value => "value",
        Why::Cut => "cut",
        Why::Extra => "extra",
    }
}
