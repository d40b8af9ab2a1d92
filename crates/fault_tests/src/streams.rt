//! A saved stream is cut at each byte, and each byte of it is changed to every other value.
use crate::failing::ends;
use std::alloc::{AllocError, Global};
use std::test::*;
use vt_base::{Status, Why};

/// The saved stream of a host on which no line was done: its TPM has two banks.
const FRESH: [u8; 101] = [
    0x43, 0x52, 0x42, 0x53, 1, 0, 0, 0, 0x5C, // the head
    0x43, 0x52, 0x42, 0x44, 1, 0, 0, 0, 0x0E, 0, 0, 0, 0, 0, 0, 0, 0, 0, 0, 0, 0, 0, 0, 0x43, 0x52,
    0x42, 0x50, 2, 0, 0, 0, 0x28, 0, 0, 0, 0, 0, 0, 0, 0, 0, 0, 0, 0, 0, 0, 0, 0, 0, 0, 0, 0, 0, 0,
    0, 0, 0, 0, 0, 0, 0, 0, 0, 0, 0, 0, 0, 0, 0, 0, 0, 1, 0x43, 0x52, 0x42, 0x56, 2, 0, 0, 0, 1, 0,
    0x43, 0x52, 0x42, 0x5A, 2, 0, 0, 0, 1, 0,
];

/// Where a stream is refused.
#[derive(Clone, Copy)]
enum At {
    /// At the byte that was changed.
    Changed,
    /// At this one.
    Byte(usize),
}

/// Places of the stream, values of a byte there, and why and where such a stream is refused.
type Change = ((usize, usize), (u8, u8), Why, At);

/// By `docs/STATE.md`, one change at a time; the first row that fits decides, and a change that none fits is accepted.
const CHANGES: [Change; 26] = [
    // the head: magic, version and, once all parts are read, the length
    ((0, 3), (0, 255), Why::Magic, At::Changed),
    ((4, 4), (0, 255), Why::Version, At::Changed),
    ((5, 8), (0, 255), Why::Length, At::Byte(5)),
    // the record: its length is 14 to 3982, and then its content is longer than it says
    ((9, 12), (0, 255), Why::Magic, At::Changed),
    ((13, 13), (0, 255), Why::Version, At::Changed),
    ((14, 15), (0, 255), Why::Length, At::Byte(14)),
    ((16, 16), (0, 15), Why::Length, At::Byte(30)),
    ((16, 16), (16, 255), Why::Length, At::Byte(14)),
    ((17, 17), (0, 13), Why::Length, At::Byte(14)),
    ((17, 17), (15, 255), Why::Length, At::Byte(30)),
    // granted, cancel, a phase from 0 to 4, and a cancelled job outside Execution
    ((18, 19), (2, 255), Why::Value, At::Changed),
    ((20, 20), (5, 255), Why::Value, At::Changed),
    ((21, 21), (0, 255), Why::Value, At::Changed),
    // the number is free; the content's length
    ((30, 31), (0, 255), Why::Length, At::Byte(30)),
    // the permanent blob: of version 1 the others would have to be of version 1 too; seed and boots are free
    ((32, 35), (0, 255), Why::Magic, At::Changed),
    ((36, 36), (1, 1), Why::Version, At::Byte(85)),
    ((36, 36), (0, 255), Why::Version, At::Changed),
    ((37, 40), (0, 255), Why::Length, At::Byte(37)),
    // the volatile blob
    ((81, 84), (0, 255), Why::Magic, At::Changed),
    ((85, 85), (0, 255), Why::Version, At::Changed),
    ((86, 89), (0, 255), Why::Length, At::Byte(86)),
    ((90, 90), (0, 255), Why::Value, At::Changed),
    // the saved one
    ((91, 94), (0, 255), Why::Magic, At::Changed),
    ((95, 95), (0, 255), Why::Version, At::Changed),
    ((96, 99), (0, 255), Why::Length, At::Byte(96)),
    ((100, 100), (0, 255), Why::Value, At::Changed),
];

/// The last byte of the record.
const RECORD_END: usize = 31;

/// How many changes of the record are accepted: those of the number, of eight bytes, two flags and four phases.
const IN_RECORD: usize = 8 * 255 + 2 + 4;

/// How many of the blobs: those of the seed and of the boots, of 32 and eight bytes.
const IN_BLOBS: usize = 40 * 255;

/// What is written for a stream that is accepted by `check`.
const CHECKED: &[u8] = b"saved stream 101 bytes\n";

// Whether a change is of this row.
fn is_of(change: &Change, place: usize, value: u8) -> bool {
    let ((first, last), (least, most), _, _) = change;
    *first <= place && place <= *last && *least <= value && value <= *most
}

// Why and where the stream with this byte at this place is refused, if it is.
fn refusal(place: usize, value: u8) -> Option<(Why, usize)> {
    for change in &CHANGES {
        if is_of(change, place, value) {
            return match change.3 {
                At::Changed => Some((change.2, place)),
                At::Byte(byte) => Some((change.2, byte)),
            };
        }
    }
    None
}

// Whether a command refuses these bytes so.
fn is_refused(
    alloc: Global,
    command: &str,
    bytes: &[u8],
    (why, place): (Why, usize),
) -> Result<bool, AllocError> {
    let text = format!(in alloc; "refused {why} at {place}\n")?;
    ends(alloc, command, bytes, Status::Refused, text.as_bytes())
}

// The first count of bytes at which the stream isn't refused as cut.
fn wrong_cut(alloc: Global) -> Result<Option<usize>, AllocError> {
    for count in 0..FRESH.len() {
        let (prefix, _) = FRESH.split_at(count);
        let cut = (Why::Cut, count);
        if !is_refused(alloc, "check", prefix, cut)? || !is_refused(alloc, "resume", prefix, cut)? {
            return Ok(Some(count));
        }
    }
    Ok(None)
}

// The stream with this byte at this place.
fn changed(place: usize, value: u8) -> [u8; 101] {
    let mut bytes = FRESH;
    if let Some(slot) = bytes.get_mut(place) {
        *slot = value;
    }
    bytes
}

// Whether `check` answers a changed stream as the table says; whether it is to be accepted.
fn is_checked(alloc: Global, place: usize, value: u8) -> Result<(bool, bool), AllocError> {
    let bytes = changed(place, value);
    match refusal(place, value) {
        Some(fault) => Ok((is_refused(alloc, "check", &bytes, fault)?, false)),
        None => Ok((ends(alloc, "check", &bytes, Status::Ok, CHECKED)?, true)),
    }
}

// Whether `resume` does.
fn is_resumed(alloc: Global, place: usize, value: u8) -> Result<bool, AllocError> {
    let bytes = changed(place, value);
    match refusal(place, value) {
        Some(fault) => is_refused(alloc, "resume", &bytes, fault),
        None => ends(alloc, "resume", &bytes, Status::Ok, b""),
    }
}

// The first value of this byte, other than its own, that is answered otherwise; how many are accepted.
fn wrong_value(alloc: Global, place: usize) -> Result<(Option<u8>, usize), AllocError> {
    let mut accepted = 0usize;
    for value in 0..=u8::MAX {
        if FRESH.get(place) == Some(&value) {
            continue;
        }
        let (is_right, is_accepted) = is_checked(alloc, place, value)?;
        if !is_right {
            return Ok((Some(value), accepted));
        }
        accepted = accepted.saturating_add(usize::from(is_accepted));
    }
    Ok((None, accepted))
}

// The first of these places with a value that is answered otherwise; how many changes are accepted.
fn wrong_places(
    alloc: Global,
    first: usize,
    last: usize,
) -> Result<(Option<(usize, u8)>, usize), AllocError> {
    let mut accepted = 0usize;
    for place in first..=last {
        let (wrong, more) = wrong_value(alloc, place)?;
        if let Some(value) = wrong {
            return Ok((Some((place, value)), accepted));
        }
        accepted = accepted.saturating_add(more);
    }
    Ok((None, accepted))
}

// The first byte that `resume` answers otherwise where its lowest bit is changed, and then where all bits are.
fn wrong_resumption(alloc: Global) -> Result<Option<usize>, AllocError> {
    for (place, byte) in FRESH.iter().enumerate() {
        if !is_resumed(alloc, place, byte ^ 1)? || !is_resumed(alloc, place, !byte)? {
            return Ok(Some(place));
        }
    }
    Ok(None)
}

#[test]
fn a_cut_stream_is_refused_at_its_end(rt: HostRuntime) -> Result<(), Fail> {
    assert_eq!(rt; wrong_cut(rt.alloc())?, None);
    assert!(rt; ends(rt.alloc(), "check", &FRESH, Status::Ok, CHECKED)?);
    assert!(rt; ends(rt.alloc(), "resume", &FRESH, Status::Ok, b"")?);
    Ok(())
}

#[test]
fn changes_of_head_and_record_are_answered_by_the_table(rt: HostRuntime) -> Result<(), Fail> {
    assert_eq!(rt; wrong_places(rt.alloc(), 0, RECORD_END)?, (None, IN_RECORD));
    Ok(())
}

#[test]
fn changes_of_blobs_are_answered_by_the_table(rt: HostRuntime) -> Result<(), Fail> {
    assert_eq!(rt;
        wrong_places(rt.alloc(), RECORD_END + 1, 100)?,
        (None, IN_BLOBS)
    );
    Ok(())
}

#[test]
fn a_changed_stream_is_resumed_as_it_is_checked(rt: HostRuntime) -> Result<(), Fail> {
    assert_eq!(rt; wrong_resumption(rt.alloc())?, None);
    Ok(())
}
