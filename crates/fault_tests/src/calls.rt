//! Each read and each write of a run fails in turn.
use crate::failing::{Ended, NO_CALL, Over, WHOLE, run_over};
use std::alloc::{AllocError, Global};
use std::test::*;
use vt_base::Status;

/// The numbers of the calls that fail, each in a run of its own, are those from 1 to this one.
const CALLS: u64 = 40;

/// The most bytes that pass in one call.
const SIZES: [usize; 3] = [1, 16, WHOLE];

/// A line of the input, or a saved stream, and what is written for it.
type Line = (&'static [u8], &'static [u8]);

/// The words of a run, the lines of its input with what is written for each, and what is written at the end of the input.
type Case = (&'static [&'static str], &'static [Line], &'static [u8]);

/// The saved stream of a host on which no line was done.
const FRESH: [u8; 101] = [
    0x43, 0x52, 0x42, 0x53, 1, 0, 0, 0, 0x5C, // the head
    0x43, 0x52, 0x42, 0x44, 1, 0, 0, 0, 0x0E, 0, 0, 0, 0, 0, 0, 0, 0, 0, 0, 0, 0, 0, 0, 0x43, 0x52,
    0x42, 0x50, 2, 0, 0, 0, 0x28, 0, 0, 0, 0, 0, 0, 0, 0, 0, 0, 0, 0, 0, 0, 0, 0, 0, 0, 0, 0, 0, 0,
    0, 0, 0, 0, 0, 0, 0, 0, 0, 0, 0, 0, 0, 0, 0, 0, 0, 1, 0x43, 0x52, 0x42, 0x56, 2, 0, 0, 0, 1, 0,
    0x43, 0x52, 0x42, 0x5A, 2, 0, 0, 0, 1, 0,
];

/// A guest starts TPM2_Startup(CLEAR), its worker does it, and the guest reads the response.
const STARTUP: [Line; 16] = [
    (b"w 8 4 1\n", b"ok\n"),
    (b"w 40 4 1\n", b"ok\n"),
    (b"w 80 4 180\n", b"ok\n"),
    (b"w 84 4 c00\n", b"ok\n"),
    (b"w 88 4 4401\n", b"ok\n"),
    (b"w 4c 4 1\n", b"ok\n"),
    (b"r 4c 4\n", b"00000001\n"),
    (b"work\n", b"claim 1\n"),
    (b"work\n", b"sent 1\n"),
    (b"work\n", b"exec 1\n"),
    (b"work\n", b"done 1\n"),
    (b"work\n", b"idle\n"),
    (b"r 4c 4\n", b"00000000\n"),
    (b"r 80 4\n", b"00000180\n"),
    (b"r 84 4\n", b"00000a00\n"),
    (b"r 88 4\n", b"00000000\n"),
];

/// Startup, no random bytes, a move, and the first random block of the one power-on.
const DRIVEN: [Line; 4] = [
    (b"cmd 80010000000c000001440000\n", b"80010000000a00000000\n"),
    (
        b"cmd 80010000000c0000017b0000\n",
        b"80010000000c000000000000\n",
    ),
    (b"move\n", b""),
    (
        b"cmd 80010000000c0000017b0040\n",
        b"80010000002c00000000002044b4c8f8aeb491cea32bd1abbe83ecd26657070d0140c80d7ea9183250b571fd\n",
    ),
];

/// A saved stream, and a script behind it.
const RESUMED: [Line; 3] = [
    (&FRESH, b""),
    (b"r 0 4\n", b"00000081\n"),
    (b"r 30 4\n", b"00025811\n"),
];

const CASES: [Case; 5] = [
    (&["replay"], &STARTUP, b""),
    (&["drive"], &DRIVEN, b""),
    (&["resume"], &RESUMED, b""),
    (&["check"], &[(&FRESH, b"")], b"saved stream 101 bytes\n"),
    (&["suspend"], &[], &FRESH),
];

// The input of a case.
fn input(alloc: Global, case: &Case) -> Result<Vec<u8>, AllocError> {
    let mut input = Vec::new(alloc);
    for (line, _) in case.1 {
        input.extend_from_slice(line)?;
    }
    Ok(input)
}

// What is written for the lines that end within so many bytes of the input.
fn replies(alloc: Global, case: &Case, taken: usize) -> Result<Vec<u8>, AllocError> {
    let mut replies = Vec::new(alloc);
    let mut end = 0usize;
    for (line, reply) in case.1 {
        end = end.saturating_add(line.len());
        if end <= taken {
            replies.extend_from_slice(reply)?;
        }
    }
    Ok(replies)
}

// What is written where no call fails.
fn output(alloc: Global, case: &Case) -> Result<Vec<u8>, AllocError> {
    let mut output = replies(alloc, case, usize::MAX)?;
    output.extend_from_slice(case.2)?;
    Ok(output)
}

// A run of a case, with calls of so many bytes, in which these calls fail.
fn tried(
    alloc: Global,
    case: &Case,
    most: usize,
    read: u64,
    write: u64,
) -> Result<Ended, AllocError> {
    let input = input(alloc, case)?;
    run_over(
        alloc,
        &Over {
            words: case.0,
            input: &input,
            most,
            read,
            write,
        },
    )
}

// Whether a run in which no call fails is as wanted; how many reads and writes it makes.
fn calls(alloc: Global, case: &Case, most: usize) -> Result<Option<(u64, u64)>, AllocError> {
    let ended = tried(alloc, case, most, NO_CALL, NO_CALL)?;
    let wanted = output(alloc, case)?;
    let is_wanted = ended.status == Status::Ok && ended.output() == wanted.as_slice();
    Ok(is_wanted.then_some((ended.reads, ended.writes)))
}

// Whether a failed read leaves the replies to the lines before it, and no other status.
fn is_read_fault(alloc: Global, case: &Case, most: usize, call: u64) -> Result<bool, AllocError> {
    let ended = tried(alloc, case, most, call, NO_CALL)?;
    let wanted = replies(alloc, case, ended.taken)?;
    Ok(
        ended.status == Status::ReadFault
            && ended.reads == call
            && ended.output() == wanted.as_slice(),
    )
}

// Whether a failed write leaves a prefix of the output, and no other status.
fn is_write_fault(alloc: Global, case: &Case, most: usize, call: u64) -> Result<bool, AllocError> {
    let ended = tried(alloc, case, most, NO_CALL, call)?;
    let wanted = output(alloc, case)?;
    Ok(
        ended.status == Status::WriteFault
            && ended.writes == call
            && wanted.starts_with(ended.output()),
    )
}

// The first call whose failure is answered otherwise: 0 where the run is another even if none fails, and for a write the
// number of the call behind those of the reads.
fn wrong_call(alloc: Global, case: &Case, most: usize) -> Result<Option<u64>, AllocError> {
    let Some((reads, writes)) = calls(alloc, case, most)? else {
        return Ok(Some(NO_CALL));
    };
    for call in 1..=CALLS.min(reads) {
        if !is_read_fault(alloc, case, most, call)? {
            return Ok(Some(call));
        }
    }
    for call in 1..=CALLS.min(writes) {
        if !is_write_fault(alloc, case, most, call)? {
            return Ok(Some(call.saturating_add(CALLS)));
        }
    }
    Ok(None)
}

// A call that fails behind the last one changes nothing.
fn is_unmet(alloc: Global, case: &Case, most: usize) -> Result<bool, AllocError> {
    let Some((reads, writes)) = calls(alloc, case, most)? else {
        return Ok(false);
    };
    let behind = (reads.saturating_add(1), writes.saturating_add(1));
    let ended = tried(alloc, case, most, behind.0, behind.1)?;
    Ok(ended.status == Status::Ok && ended.output() == output(alloc, case)?.as_slice())
}

#[test]
fn a_failed_read_or_write_leaves_a_prefix(rt: HostRuntime) -> Result<(), Fail> {
    for (i, case) in CASES.iter().enumerate() {
        for most in SIZES {
            assert_eq!(rt;
                wrong_call(rt.alloc(), case, most)?,
                None,
                "case {i} by {most}"
            );
            assert!(rt; is_unmet(rt.alloc(), case, most)?, "case {i} by {most}");
        }
    }
    Ok(())
}
