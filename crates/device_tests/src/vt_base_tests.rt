ghost use Rattle.std.proofs.Common.{lit≤};
ghost use Rattle.std.proofs.Math.Nat.{min-le_right};
ghost use Rattle.std.specs.Prelude.{min, slice_index};
ghost use Rattle.vt_base.specs.Layout.{Ends, Field};

use std::alloc::{AllocError, Global};
use std::test::*;
use vt_base::*;

#[test]
fn each_status_has_its_number(rt: HostRuntime) {
    let numbers = [
        Status::Ok.number(),
        Status::Usage.number(),
        Status::Script.number(),
        Status::ReadFault.number(),
        Status::WriteFault.number(),
        Status::Memory.number(),
        Status::Limit.number(),
        Status::Refused.number(),
        Status::NotYet.number(),
    ];
    assert_eq!(rt; numbers, [0, 2, 3, 4, 5, 6, 7, 8, 9]);
}

// Whether a buffer of zeros holds what is put in it, and zeros once it is cleared.
fn is_written_and_cleared(buf: &mut Buf) -> bool {
    buf.hold(&[7, 8]);
    buf.set(BUFFER_LENGTH - 1, 9);
    let written = buf.bytes().len() == 3968
        && buf.bytes().starts_with(&[7, 8, 0])
        && buf.get(3967) == 9;
    buf.clear();
    written && buf.get(0) == 0 && buf.get(3967) == 0
}

#[test]
fn a_buffer_is_written_and_cleared(rt: HostRuntime) -> Result<(), Fail> {
    let mut buf = Buf::new(rt.alloc())?;
    assert!(rt; is_written_and_cleared(&mut buf));
    Ok(())
}

#[test]
fn bytes_are_changed_in_place_and_cut(rt: HostRuntime) -> Result<(), Fail> {
    let mut bytes = Bytes::from_slice(rt.alloc(), &[1, 2, 3])?;
    bytes.as_mut_slice().reverse();
    bytes.cut(2);
    assert_eq!(rt; bytes.as_slice(), [3, 2].as_slice());
    Ok(())
}

// What a read of three bytes gives, and the bytes then.
fn read_three(source: &mut MemSource, into: &mut [u8; 3]) -> (Result<usize, Failed>, [u8; 3]) {
    (source.read(into), *into)
}

// Four such reads.
fn reads(source: &mut MemSource) -> [(Result<usize, Failed>, [u8; 3]); 4] {
    let mut into = [0; 3];
    let first = read_three(source, &mut into);
    let second = read_three(source, &mut into);
    let third = read_three(source, &mut into);
    [first, second, third, read_three(source, &mut into)]
}

#[test]
fn a_source_fails_in_mid_stream_and_goes_on(rt: HostRuntime) -> Result<(), Fail> {
    let bytes = Bytes::from_slice(rt.alloc(), &[1, 2, 3, 4, 5])?;
    let mut source = MemSource::new(bytes, Vec::from_slice(rt.alloc(), &[2])?);
    let read = [
        (Ok(3), [1, 2, 3]),
        (Err(Failed), [1, 2, 3]),
        (Ok(2), [4, 5, 3]),
        (Ok(0), [4, 5, 3]),
    ];
    assert!(rt; reads(&mut source) == read);
    Ok(())
}

// What writes give into a sink of four bytes whose second write fails.
fn writes(sink: &mut MemSink) -> [Result<usize, Failed>; 5] {
    let first = sink.write(&[1, 2]);
    let second = sink.write(&[3]);
    let third = sink.write(&[3, 4, 5]);
    let fourth = sink.write(&[5]);
    [first, second, third, fourth, sink.write(&[])]
}

#[test]
fn a_sink_fails_in_mid_stream_and_goes_on(rt: HostRuntime) -> Result<(), Fail> {
    let failing = Vec::from_slice(rt.alloc(), &[2])?;
    let mut sink = MemSink::new(rt.alloc(), 4, failing)?;
    let written = [Ok(2), Err(Failed), Ok(2), Err(Failed), Ok(0)];
    assert!(rt; writes(&mut sink) == written && sink.bytes() == [1, 2, 3, 4].as_slice());
    Ok(())
}

#[test]
fn calls_are_counted_from_one(rt: HostRuntime) -> Result<(), Fail> {
    let mut schedule = FaultSchedule::new(Vec::from_slice(rt.alloc(), &[0, 3, 1])?);
    assert_eq!(rt;
        [
            schedule.call(),
            schedule.call(),
            schedule.call(),
            schedule.call()
        ],
        [Err(Failed), Ok(()), Err(Failed), Ok(())]
    );
    assert_eq!(rt; schedule.fault(), Failed);
    Ok(())
}

fn read_of(input: &Input) -> (&str, usize) {
    match input {
        Input::Whole(bytes) => ("whole", bytes.len()),
        Input::TooLong => ("too long", 0),
        Input::Fault => ("fault", 0),
        Input::Memory => ("memory", 0),
    }
}

// The bytes of the input, the limit, the read that fails, and what is reported; more than a chunk takes a second read.
const INPUTS: [(usize, usize, u64, (&str, usize)); 7] = [
    (0, 0, 0, ("whole", 0)),
    (5, 5, 0, ("whole", 5)),
    (5, 4, 0, ("too long", 0)),
    (5000, 5000, 0, ("whole", 5000)),
    (5000, 4999, 0, ("too long", 0)),
    (5000, 5000, 2, ("fault", 0)),
    (5000, 5000, 4, ("whole", 5000)),
];

// Whether an input of so many bytes is reported so.
fn is_decoded(
    alloc: Global,
    count: usize,
    limit: usize,
    fails: u64,
    wanted: (&str, usize),
) -> Result<bool, AllocError> {
    let all = [3; 5000];
    let bytes = Bytes::from_slice(alloc, all.get(..count).unwrap_or(&[]))?;
    let mut source = MemSource::new(bytes, Vec::from_slice(alloc, &[fails])?);
    Ok(read_of(&read_all(alloc, &mut source, limit)) == wanted)
}

#[test]
fn an_input_is_read_to_its_end(rt: HostRuntime) -> Result<(), Fail> {
    for (count, limit, fails, wanted) in INPUTS {
        let read_of = is_decoded(rt.alloc(), count, limit, fails, wanted)?;
        assert!(rt; read_of, "{count} bytes, limit {limit}");
    }
    Ok(())
}

#[test]
fn all_bytes_are_written(rt: HostRuntime) -> Result<(), Fail> {
    let mut sink = MemSink::new(rt.alloc(), 3, Vec::new(rt.alloc()))?;
    let written = [write_all(&mut sink, &[1, 2]), write_all(&mut sink, &[3, 4])];
    assert!(rt; written == [Ok(()), Err(Failed)] && sink.bytes() == [1, 2, 3].as_slice());
    Ok(())
}

// Whether a writer with room for four bytes takes three, then one of two, and no more.
fn takes_four() -> bool {
    let mut room = [0; 4];
    let mut sink = StdSink::new(&mut room[..]);
    let written = [
        write_all(&mut sink, &[1, 2, 3]),
        write_all(&mut sink, &[4, 5]),
    ];
    written == [Ok(()), Err(Failed)] && room == [1, 2, 3, 4]
}

#[test]
fn std_adapters_read_and_write_the_same_bytes(rt: HostRuntime) {
    let bytes = [1, 2, 3];
    let input = read_all(rt.alloc(), &mut StdSource::new(&bytes[..]), 3);
    assert!(rt; read_of(&input) == ("whole", 3));
    assert!(rt; takes_four());
}

// The value of a field, and how many bytes are left.
fn value_and_left<T>(read: Result<(T, &[u8]), Missing>) -> Result<(T, usize), Missing> {
    let (value, rest) = read?;
    Ok((value, rest.len()))
}

// Whether nine bytes are read as fields of each size, and two are too few for the longest.
fn fields_are_read() -> bool {
    let bytes = [1, 2, 3, 4, 5, 6, 7, 8, 9];
    value_and_left(byte_of(&bytes)) == Ok((1, 8))
        && value_and_left(short_of(&bytes)) == Ok((0x0102, 7))
        && value_and_left(number_of(&bytes)) == Ok((0x0102_0304, 5))
        && value_and_left(long_of(&bytes)) == Ok((0x0102_0304_0506_0708, 1))
        && value_and_left(long_of(&[1, 2])) == Err(Missing(6))
        && field_of(&bytes, 7) == Ok((&[1, 2, 3, 4, 5, 6, 7], &[8, 9]))
}

#[test]
fn fields_are_read_or_missing(rt: HostRuntime) {
    assert!(rt; fields_are_read());
}

/// A word: a byte that says how many bytes follow, at most 3 whatever it says.
#[derive(Drop)]
struct Words;

impl Grammar for Words {
    type End = u8;

    ghost layout = { λ _. Field 1 (λ count. Field (min (slice_index count 0) 3) (λ _. Ends (slice_index count 0))) };

    ghost room = { λ _. 4 };

    fn parse(&self, bytes: &[u8]) -> Result<u8, Missing> {
        let (count, rest) = byte_of(bytes)?;
        field_of(rest, usize::from(count).min(3))?;
        Ok(count)
    }

    ghost within = { λ _. (lit≤ tt, λ count. (min-le_right (slice_index count 0) 3, λ _. tt)) };
}

// A piece, how many of its bytes are taken, and how the word ends.
const WORDS: [([u8; 5], usize, Option<u8>); 3] = [
    ([2, 10, 11, 0, 7], 3, Some(2)),
    ([0, 7, 12, 13, 14], 1, Some(0)),
    ([7, 12, 13, 14, 1], 4, Some(7)),
];

#[test]
fn a_word_is_read_from_one_piece(rt: HostRuntime) {
    for (piece, used, end) in WORDS {
        let mut held = ByteBuf::<4>::new();
        assert!(rt; held.feed(&Words, &piece) == (used, end), "{used}");
    }
}

// Whether four bytes are taken one by one, the last as the end of a word, which is forgotten then.
fn is_fed_singly() -> bool {
    let mut held = ByteBuf::<4>::new();
    let (1, None) = held.feed(&Words, &[3]) else {
        return false;
    };
    let (1, None) = held.feed(&Words, &[10]) else {
        return false;
    };
    let (1, None) = held.feed(&Words, &[11]) else {
        return false;
    };
    let is_whole = held.feed(&Words, &[12]) == (1, Some(3))
        && held.as_slice() == [3, 10, 11, 12].as_slice();
    held.clear();
    is_whole && held.as_slice().is_empty()
}

#[test]
fn a_word_is_read_byte_by_byte(rt: HostRuntime) {
    assert!(rt; is_fed_singly());
}
