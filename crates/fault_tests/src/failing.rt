//! Sources, sinks and wires of which one call fails, and a run over them.
ghost use Rattle.std.specs.Prelude.{◌≤◌};

use script_run::run;
use std::alloc::{AllocError, Global};
use tpm_core::{Banks, SEED_SIZE};
use vt_base::{Bytes, Failed, MemSink, MemSource, Sink, Source, Status};
use vt_emulator::Emulator;
use vt_world::MemWires;

/// The number of the call that is to fail, where none is; the first call has the number 1.
pub(crate) const NO_CALL: u64 = 0;

/// How many bytes pass in one call, where the call isn't to be short.
pub(crate) const WHOLE: usize = 4096;

/// The most bytes of a piece that an emulator gives.
const PIECE: u32 = 4096;

/// How many bytes a sink takes in all.
const ROOM: usize = 10_000;

/// A source or a sink that passes at most so many bytes a call, and counts its calls and its bytes.
#[derive(Drop)]
pub(crate) struct InPieces<T> {
    inner: T,
    most: usize,
    calls: u64,
    bytes: usize,
}

impl<T> InPieces<T> {
    fn new(inner: T, most: usize) -> InPieces<T> {
        InPieces {
            inner,
            most,
            calls: 0,
            bytes: 0,
        }
    }
}

impl<S: Source> Source for InPieces<S> {
    ghost use Rattle.std.specs.Prelude.{None, false};

    ghost left = { λ _. None };

    ghost faults = { λ s. S.faults s.inner };

    ghost never_fails = { λ _. false };

    fn read(&mut self, into: &mut [u8]) -> Result<usize, Failed> {
        self.calls = self.calls.saturating_add(1);
        let most = into.len().min(self.most);
        let count = self.inner.read(&mut into[..most])?;
        self.bytes = self.bytes.saturating_add(count);
        Ok(count)
    }
}

impl<K: Sink> Sink for InPieces<K> {
    ghost use Rattle.std.specs.Prelude.{None};

    ghost written = { λ _. None };

    ghost faults = { λ s. K.faults s.inner };

    ghost room = { λ _. 0 };

    fn write(&mut self, bytes: &[u8]) -> Result<usize, Failed> {
        self.calls = self.calls.saturating_add(1);
        let most = bytes.len().min(self.most.max(1));
        let count = self.inner.write(&bytes[..most])?;
        self.bytes = self.bytes.saturating_add(count);
        Ok(count)
    }
}

/// A source of these bytes, whose call of this number fails.
fn source(
    alloc: Global,
    bytes: &[u8],
    most: usize,
    call: u64,
) -> Result<InPieces<MemSource>, AllocError> {
    let inner = MemSource::new(Bytes::from_slice(alloc, bytes)?, vec![in alloc; call]?);
    Ok(InPieces::new(inner, most))
}

/// A sink whose call of this number fails.
fn sink(alloc: Global, most: usize, call: u64) -> Result<InPieces<MemSink>, AllocError> {
    let inner = MemSink::new(alloc, ROOM, vec![in alloc; call]?)?;
    Ok(InPieces::new(inner, most))
}

/// Wires to an emulator with a TPM that power never came to, whose call of this number fails.
pub(crate) fn wires(alloc: Global, call: u64) -> Result<MemWires, AllocError> {
    let emulator = Emulator::new(alloc, [0; SEED_SIZE], Banks::Two, PIECE)?;
    let mut wires = MemWires::new(alloc, emulator)?;
    if call != NO_CALL {
        wires.fail_at(call);
    }
    Ok(wires)
}

/// What a run is over: words, an input, the most bytes that pass in a call, and the numbers of the read and of the write
/// that fail.
#[derive(Clone, Copy)]
pub(crate) struct Over<'a> {
    pub(crate) words: &'a [&'a str],
    pub(crate) input: &'a [u8],
    pub(crate) most: usize,
    pub(crate) read: u64,
    pub(crate) write: u64,
}

/// What came of a run.
#[derive(Drop)]
pub(crate) struct Ended {
    pub(crate) status: Status,
    sink: InPieces<MemSink>,
    /// How many reads and writes it made.
    pub(crate) reads: u64,
    pub(crate) writes: u64,
    /// How many bytes it read.
    pub(crate) taken: usize,
}

impl Ended {
    /// What it wrote.
    pub(crate) fn output(&self) -> &[u8] {
        self.sink.inner.bytes()
    }
}

// The words as strings.
fn strings(alloc: Global, words: &[&str]) -> Result<Vec<String>, AllocError> {
    let mut strings = Vec::new(alloc);
    for word in words {
        strings.push(String::from_str(alloc, word)?)?;
    }
    Ok(strings)
}

/// Runs. A run that lacks memory is no result of a test.
pub(crate) fn run_over(alloc: Global, over: &Over) -> Result<Ended, AllocError> {
    let words = strings(alloc, over.words)?;
    let mut source = source(alloc, over.input, over.most, over.read)?;
    let mut sink = sink(alloc, over.most, over.write)?;
    let ran = run(alloc, &words, &mut source, &mut sink);
    let status = ran.status;
    drop(ran);
    drop(words);
    let (reads, taken, writes) = (source.calls, source.bytes, sink.calls);
    drop(source);
    if status == Status::Memory {
        return Err(AllocError);
    }
    Ok(Ended {
        status,
        sink,
        reads,
        writes,
        taken,
    })
}

/// Whether a run over an input, with no fault, ends so and writes this.
pub(crate) fn ends(
    alloc: Global,
    word: &str,
    input: &[u8],
    status: Status,
    output: &[u8],
) -> Result<bool, AllocError> {
    let ended = run_over(
        alloc,
        &Over {
            words: &[word],
            input,
            most: WHOLE,
            read: NO_CALL,
            write: NO_CALL,
        },
    )?;
    Ok(ended.status == status && ended.output() == output)
}
