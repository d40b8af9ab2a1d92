//! Rows of runs: words, an input, which calls fail, and what must come of it.
ghost use Rattle.std.specs.Prelude.{◌≤◌};

use script_run::run;
use std::alloc::{AllocError, Global};
use std::process::Abort;
use std::test::*;
use vt_base::{Bytes, Failed, MemSink, MemSource, Source, Status};

/// Words, an input, and what must come of it: a status, and what is written.
type Run = (
    &'static [&'static str],
    &'static [u8],
    Status,
    &'static [u8],
);

/// The reads that fail, the writes that fail, how many bytes the sink takes, and what must come of it.
type FailingRun = (&'static [u64], &'static [u64], usize, Status, &'static [u8]);

/// TPM2_Startup(CLEAR) through the registers, and one step of the worker.
const CLAIMED: &[u8] = b"w 8 4 1\nw 40 4 1\nw 80 4 180\nw 84 4 c00\nw 88 4 4401\nw 4c 4 1\nwork\n";

/// The saved stream of a host on which no line was done: its TPM has two banks.
const FRESH: [u8; 101] = [
    0x43, 0x52, 0x42, 0x53, 1, 0, 0, 0, 0x5C, // the head
    0x43, 0x52, 0x42, 0x44, 1, 0, 0, 0, 0x0E, 0, 0, 0, 0, 0, 0, 0, 0, 0, 0, 0, 0, 0, 0, 0x43, 0x52,
    0x42, 0x50, 2, 0, 0, 0, 0x28, 0, 0, 0, 0, 0, 0, 0, 0, 0, 0, 0, 0, 0, 0, 0, 0, 0, 0, 0, 0, 0, 0,
    0, 0, 0, 0, 0, 0, 0, 0, 0, 0, 0, 0, 0, 0, 0, 0, 0, 1, 0x43, 0x52, 0x42, 0x56, 2, 0, 0, 0, 1, 0,
    0x43, 0x52, 0x42, 0x5A, 2, 0, 0, 0, 1, 0,
];

/// The same of a TPM with one bank.
const ONE_BANK: [u8; 101] = [
    0x43, 0x52, 0x42, 0x53, 1, 0, 0, 0, 0x5C, // the head
    0x43, 0x52, 0x42, 0x44, 1, 0, 0, 0, 0x0E, 0, 0, 0, 0, 0, 0, 0, 0, 0, 0, 0, 0, 0, 0, 0x43, 0x52,
    0x42, 0x50, 1, 0, 0, 0, 0x28, 0, 0, 0, 0, 0, 0, 0, 0, 0, 0, 0, 0, 0, 0, 0, 0, 0, 0, 0, 0, 0, 0,
    0, 0, 0, 0, 0, 0, 0, 0, 0, 0, 0, 0, 0, 0, 0, 0, 0, 1, 0x43, 0x52, 0x42, 0x56, 1, 0, 0, 0, 1, 0,
    0x43, 0x52, 0x42, 0x5A, 1, 0, 0, 0, 1, 0,
];

/// A blob of a TPM with one bank stands among those of a TPM with two.
const TWO_VERSIONS: [u8; 101] = [
    0x43, 0x52, 0x42, 0x53, 1, 0, 0, 0, 0x5C, // the head
    0x43, 0x52, 0x42, 0x44, 1, 0, 0, 0, 0x0E, 0, 0, 0, 0, 0, 0, 0, 0, 0, 0, 0, 0, 0, 0, 0x43, 0x52,
    0x42, 0x50, 2, 0, 0, 0, 0x28, 0, 0, 0, 0, 0, 0, 0, 0, 0, 0, 0, 0, 0, 0, 0, 0, 0, 0, 0, 0, 0, 0,
    0, 0, 0, 0, 0, 0, 0, 0, 0, 0, 0, 0, 0, 0, 0, 0, 0, 1, 0x43, 0x52, 0x42, 0x56, 1, 0, 0, 0, 1, 0,
    0x43, 0x52, 0x42, 0x5A, 2, 0, 0, 0, 1, 0,
];

/// A seed whose bytes differ, as it is given in words.
const SEED: &str = "000102030405060708090a0b0c0d0e0f101112131415161718191A1B1C1D1E1F";

const OPTION_OF_SEED: &str =
    "--seed=000102030405060708090a0b0c0d0e0f101112131415161718191A1B1C1D1E1F";

const SEED_OF_ZEROS: &str = "0000000000000000000000000000000000000000000000000000000000000000";

/// The saved stream of a host on which no line was done, over a TPM with that seed.
const SEEDED: [u8; 101] = [
    0x43, 0x52, 0x42, 0x53, 1, 0, 0, 0, 0x5C, // the head
    0x43, 0x52, 0x42, 0x44, 1, 0, 0, 0, 0x0E, 0, 0, 0, 0, 0, 0, 0, 0, 0, 0, 0, 0, 0, 0, 0x43, 0x52,
    0x42, 0x50, 2, 0, 0, 0, 0x28, 0, 1, 2, 3, 4, 5, 6, 7, 8, 9, 10, 11, 12, 13, 14, 15, 16, 17, 18,
    19, 20, 21, 22, 23, 24, 25, 26, 27, 28, 29, 30, 31, 0, 0, 0, 0, 0, 0, 0, 1, 0x43, 0x52, 0x42,
    0x56, 2, 0, 0, 0, 1, 0, 0x43, 0x52, 0x42, 0x5A, 2, 0, 0, 0, 1, 0,
];

/// Startup, no random bytes, a move, and 64 random bytes: a command gives at most 32.
const MOVED: &[u8] = b"cmd 80010000000c000001440000\ncmd 80010000000c0000017b0000\nmove\n\
cmd 80010000000c0000017b0040\n";

/// What is written for them: at last the first random block of the one power-on.
const MOVED_RESPONSES: &[u8] = b"80010000000a00000000\n80010000000c000000000000\n\
80010000002c00000000002044b4c8f8aeb491cea32bd1abbe83ecd26657070d0140c80d7ea9183250b571fd\n";

/// Startup, and a read of register 0 in the bank of SHA-384.
const READ_SHA384: &[u8] =
    b"cmd 80010000000c000001440000\ncmd 8001000000140000017e00000001000c03010000\n";

/// What is written for them with two banks, and with one.
const BY_TWO_BANKS: &[u8] =
    b"80010000000a00000000\n80010000004e000000000000000000000001000c03010000000000010030\
000000000000000000000000000000000000000000000000\
000000000000000000000000000000000000000000000000\n";

const BY_ONE_BANK: &[u8] = b"80010000000a00000000\n80010000000a000001c3\n";

/// What `bulk` writes for a start alone, and for one line more.
const BULK_1_0: &[u8] = b"commands 1 moves 0 sha256 \
df1a3de629b8f5a5d00ad4ac3116b3459a10c952b74405dd6e77630c43379838\n";

const BULK_1_1: &[u8] = b"commands 2 moves 0 sha256 \
f62d224f499674b80f7e86caaeebab78e5ccce119c29a52e3393fb4927f8c039\n";

const USAGE: &[u8] = b"usage: crbsim replay, drive, suspend, resume, check or bulk\n";

/// Runs in which no call fails.
const RUNS: [Run; 39] = [
    (&["replay"], b"", Status::Ok, b""),
    (
        &["replay"],
        b"r 0 4\nx\nr 0 4\n",
        Status::Script,
        b"00000081\nbad line 2\n",
    ),
    (&["replay"], b"r ffd 4", Status::Script, b"bad line 1\n"),
    (&["drive"], MOVED, Status::Ok, MOVED_RESPONSES),
    (
        &["drive"],
        b"move\nmovefail 0\n",
        Status::Script,
        b"bad line 2\n",
    ),
    (&["suspend"], b"", Status::Ok, &FRESH),
    (&["suspend", "--banks", "1"], b"", Status::Ok, &ONE_BANK),
    (
        &["check"],
        &ONE_BANK,
        Status::Ok,
        b"saved stream 101 bytes\n",
    ),
    (
        &["check"],
        &TWO_VERSIONS,
        Status::Refused,
        b"refused version at 85\n",
    ),
    (&["resume"], &ONE_BANK, Status::Ok, b""),
    (&["suspend"], CLAIMED, Status::NotYet, b"not yet 1\n"),
    (&["resume"], &FRESH, Status::Ok, b""),
    (&["check"], &FRESH, Status::Ok, b"saved stream 101 bytes\n"),
    (&["check"], b"CRBS", Status::Refused, b"refused cut at 4\n"),
    (&["play"], b"r 0 4\n", Status::Usage, USAGE),
    (&["bulk", "1", "100001"], b"", Status::Usage, USAGE),
    (&["replay", "--piece", "0"], b"", Status::Usage, USAGE),
    (&["replay", "--piece", "4097"], b"", Status::Usage, USAGE),
    (&["replay", "--piece=01"], b"", Status::Usage, USAGE),
    (
        &["replay", "--piece=1", "--piece", "1"],
        b"",
        Status::Usage,
        USAGE,
    ),
    (&["replay", "--", "x"], b"", Status::Usage, USAGE),
    (&["replay", "--seed"], b"", Status::Usage, USAGE),
    (
        &["resume", "--seed", SEED_OF_ZEROS],
        b"",
        Status::Usage,
        USAGE,
    ),
    (&["resume", "--banks", "1"], b"", Status::Usage, USAGE),
    (&["check", "--piece", "1"], b"", Status::Usage, USAGE),
    (&["drive", "--banks", "3"], b"", Status::Usage, USAGE),
    (
        &["drive", "--banks=1", "--piece=1", "--banks=1"],
        b"",
        Status::Usage,
        USAGE,
    ),
    (&["drive"], READ_SHA384, Status::Ok, BY_TWO_BANKS),
    (
        &["drive", "--banks=1"],
        READ_SHA384,
        Status::Ok,
        BY_ONE_BANK,
    ),
    (
        &["drive", "--banks", "2", "--seed", SEED, "--piece=7"],
        READ_SHA384,
        Status::Ok,
        BY_TWO_BANKS,
    ),
    (&["replay", "--banks=01"], b"", Status::Usage, USAGE),
    (&["replay", "--piece=1"], b"", Status::Ok, b""),
    (&["resume", "--piece", "4096"], &FRESH, Status::Ok, b""),
    (
        &["drive", "--seed", SEED_OF_ZEROS, "--piece=7"],
        MOVED,
        Status::Ok,
        MOVED_RESPONSES,
    ),
    (
        &["suspend", "--piece", "7", OPTION_OF_SEED],
        b"",
        Status::Ok,
        &SEEDED,
    ),
    (&["suspend", "--seed", SEED], b"", Status::Ok, &SEEDED),
    (&["suspend", "--seed", "0001"], b"", Status::Usage, USAGE),
    (&["bulk", "1", "0"], b"", Status::Ok, BULK_1_0),
    (&["bulk", "1", "1"], b"", Status::Ok, BULK_1_1),
];

/// A script of two lines, whose replies are 18 bytes.
const TWO_READS: &[u8] = b"r 0 4\nr 0 4\n";

/// Runs of that script in which a call fails. The second read is the one that finds the end of the input.
const FAILING: [FailingRun; 4] = [
    (&[1], &[], 1000, Status::ReadFault, b""),
    (&[2], &[], 1000, Status::ReadFault, b"00000081\n00000081\n"),
    (&[], &[1], 1000, Status::WriteFault, b""),
    (&[], &[], 11, Status::WriteFault, b"00000081\n00"),
];

// A list of numbers.
fn list(alloc: Global, numbers: &[u64]) -> Result<Vec<u64>, AllocError> {
    let mut list = Vec::new(alloc);
    list.extend_from_slice(numbers)?;
    Ok(list)
}

// Runs, and compares the status and what was written.
fn is_wanted(alloc: Global, run_of: &Run, faults: &FailingRun) -> Result<bool, AllocError> {
    let (given, input, status, output) = run_of;
    let (reads, writes, room, _, _) = faults;
    let mut words = Vec::new(alloc);
    for word in *given {
        words.push(String::from_str(alloc, word)?)?;
    }
    let bytes = Bytes::from_slice(alloc, input)?;
    let mut source = MemSource::new(bytes, list(alloc, reads)?);
    let mut sink = MemSink::new(alloc, *room, list(alloc, writes)?)?;
    let ran = run(alloc, &words, &mut source, &mut sink);
    let found = ran.status;
    drop(ran);
    Ok(found == *status && sink.bytes() == *output)
}

#[test]
fn runs_write_what_is_wanted(rt: HostRuntime) -> Result<(), Fail> {
    let none: FailingRun = (&[], &[], 1000, Status::Ok, b"");
    for (i, run_of) in RUNS.iter().enumerate() {
        assert!(rt; is_wanted(rt.alloc(), run_of, &none)?, "run {i}");
    }
    Ok(())
}

#[test]
fn runs_whose_calls_fail_say_so(rt: HostRuntime) -> Result<(), Fail> {
    for (i, faults) in FAILING.iter().enumerate() {
        let run_of: Run = (&["replay"], TWO_READS, faults.3, faults.4);
        assert!(rt; is_wanted(rt.alloc(), &run_of, faults)?, "run {i}");
    }
    Ok(())
}

// A source that gives at most one byte a read.
#[derive(Drop)]
struct OneByOne<S> {
    inner: S,
}

impl<S: Source> Source for OneByOne<S> {
    ghost left = { λ s. S.left s.inner };

    ghost faults = { λ s. S.faults s.inner };

    ghost never_fails = { λ s. S.never_fails s.inner };

    fn read(&mut self, into: &mut [u8]) -> Result<usize, Failed> {
        if into.is_empty() {
            return self.inner.read(into);
        }
        self.inner.read(&mut into[..1])
    }
}

// A source of lines `work` without an end.
#[derive(Drop)]
struct Endless {}

impl Source for Endless {
    ghost use Rattle.std.specs.Prelude.{None, true};

    ghost left = { λ _. None };

    ghost faults = { λ _. 0 };

    ghost never_fails = { λ _. true };

    fn read(&mut self, into: &mut [u8]) -> Result<usize, Failed> {
        if into.len() < 5 {
            return Ok(0);
        }
        into[..5].copy_from_slice(b"work\n");
        Ok(5)
    }
}

// The status of a command over a source, and what it writes.
fn run_over<S: Source>(
    alloc: Global,
    word: &str,
    source: &mut S,
    sink: &mut MemSink,
) -> Result<Status, AllocError> {
    let mut words = Vec::new(alloc);
    words.push(String::from_str(alloc, word)?)?;
    let ran = run(alloc, &words, source, sink);
    let status = ran.status;
    drop(ran);
    Ok(status)
}

// Whether a command over an input that comes byte by byte, where one read may fail, gives this.
fn gives(
    alloc: Global,
    word: &str,
    input: &[u8],
    failing: &[u64],
    status: Status,
    output: &[u8],
) -> Result<bool, AllocError> {
    let inner = MemSource::new(Bytes::from_slice(alloc, input)?, list(alloc, failing)?);
    let mut source = OneByOne { inner };
    let mut sink = MemSink::new(alloc, 1000, Vec::new(alloc))?;
    let found = run_over(alloc, word, &mut source, &mut sink)?;
    Ok(found == status && sink.bytes() == output)
}

// A saved stream, and a script right behind it.
fn stream_and_script(alloc: Global, script: &[u8]) -> Result<Vec<u8>, AllocError> {
    let mut input = Vec::new(alloc);
    input.extend_from_slice(&FRESH)?;
    input.extend_from_slice(script)?;
    Ok(input)
}

#[test]
fn replies_before_a_fault_stand(rt: HostRuntime) -> Result<(), Fail> {
    let alloc = rt.alloc();
    assert!(rt;
        gives(
            alloc,
            "replay",
            TWO_READS,
            &[],
            Status::Ok,
            b"00000081\n00000081\n"
        )?
    );
    // The tenth read would give the fourth byte of the second line.
    assert!(rt;
        gives(
            alloc,
            "replay",
            TWO_READS,
            &[10],
            Status::ReadFault,
            b"00000081\n"
        )?
    );
    Ok(())
}

#[test]
fn a_script_begins_right_behind_a_stream(rt: HostRuntime) -> Result<(), Fail> {
    let alloc = rt.alloc();
    let input = stream_and_script(alloc, b"r 0 4\nx\n")?;
    assert!(rt;
        gives(
            alloc,
            "resume",
            &input,
            &[],
            Status::Script,
            b"00000081\nbad line 2\n"
        )?
    );
    assert!(rt;
        gives(
            alloc,
            "check",
            &input,
            &[],
            Status::Refused,
            b"refused extra at 101\n"
        )?
    );
    Ok(())
}

#[test]
fn a_long_line_is_refused(rt: HostRuntime) -> Result<(), Fail> {
    let alloc = rt.alloc();
    let mut input = vec![in alloc; b'x'; 8257]?;
    assert!(rt;
        gives(
            alloc,
            "replay",
            &input,
            &[],
            Status::Limit,
            b"long line 1\n"
        )?
    );
    input.truncate(8256);
    assert!(rt;
        gives(
            alloc,
            "replay",
            &input,
            &[],
            Status::Script,
            b"bad line 1\n"
        )?
    );
    Ok(())
}

#[test]
fn a_million_lines_and_one_are_refused(rt: HostRuntime) -> Result<(), Fail> {
    let alloc = rt.alloc();
    let mut sink = MemSink::new(alloc, 1000, Vec::new(alloc))?;
    let status = run_over(alloc, "suspend", &mut Endless {}, &mut sink)?;
    assert!(rt; status == Status::Limit && sink.bytes() == b"too many lines\n".as_slice());
    Ok(())
}
