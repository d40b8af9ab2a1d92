//! Streams byte by byte, and what is refused, against a reader that takes the rules one after the other. The expected
//! bytes come from the tables of fields, and not from this crate.

ghost use Rattle.std.specs.Prelude.{◌≡◌, true, IfOk};

use crb_machine::Device;
use crb_port::PlainPort;
use crb_regs::Phase;
use device_record::{RECORD_ROOM, write_record};
use saved_stream::*;
use state_blobs::{LARGEST_BLOB, piece};
use std::alloc::{AllocError, Global};
use std::process::Abort;
use std::test::*;
use tpm_core::{Banks, Tpm};
use vt_base::{Buf, Kind, Malformed, Why};

/// The stream of a device after a reset over a TPM with one bank and a seed of zeros that power came to once.
const FRESH: [u8; 101] = [
    0x43, 0x52, 0x42, 0x53, 1, 0, 0, 0, 0x5C, // the head
    0x43, 0x52, 0x42, 0x44, 1, 0, 0, 0, 0x0E, 0, 0, 0, 0, 0, 0, 0, 0, 0, 0, 0, 0, 0, 0, 0x43, 0x52,
    0x42, 0x50, 1, 0, 0, 0, 0x28, 0, 0, 0, 0, 0, 0, 0, 0, 0, 0, 0, 0, 0, 0, 0, 0, 0, 0, 0, 0, 0, 0,
    0, 0, 0, 0, 0, 0, 0, 0, 0, 0, 0, 0, 0, 0, 0, 0, 0, 1, 0x43, 0x52, 0x42, 0x56, 1, 0, 0, 0, 1, 0,
    0x43, 0x52, 0x42, 0x5A, 1, 0, 0, 0, 1, 0,
];

/// Where the versions of the three blobs stand.
const VERSIONS: [usize; 3] = [36, 85, 95];

/// The same stream of a TPM with two banks.
fn fresh_of_two() -> [u8; 101] {
    let mut bytes = FRESH;
    for place in VERSIONS {
        changed(&mut bytes, (place, 2));
    }
    bytes
}

/// TPM2_Startup(CLEAR).
const STARTUP: [u8; 12] = [0x80, 1, 0, 0, 0, 12, 0, 0, 1, 0x44, 0, 0];

/// TPM2_Shutdown(STATE).
const SHUTDOWN: [u8; 12] = [0x80, 1, 0, 0, 0, 12, 0, 0, 1, 0x45, 0, 1];

fn powered(banks: Banks) -> Tpm {
    let mut tpm = Tpm::manufacture([0; 32], banks);
    tpm.power_on();
    tpm
}

/// A started TPM whose state is saved.
fn kept(alloc: Global, banks: Banks) -> Result<Tpm, AllocError> {
    let mut tpm = powered(banks);
    let mut into = Buf::new(alloc)?;
    tpm.execute(&STARTUP, &mut into);
    tpm.execute(&SHUTDOWN, &mut into);
    Ok(tpm)
}

/// A device after a reset that is held.
fn held(rt: &impl Abort, alloc: Global) -> Result<Device<PlainPort>, Fail>
    ensures { IfOk result (λ d. d.held ≡ true) }
{
    let mut device = Device::new(alloc, PlainPort::new())?;
    assert!(rt; device.stop().is_ok());
    Ok(device)
}

/// The stream of a device and a TPM.
fn written(alloc: Global, device: &Device<PlainPort>, tpm: &Tpm) -> Result<Vec<u8>, AllocError> {
    let mut stream = Vec::new(alloc);
    if !device.is_held() || device.phase() == Phase::Lost {
        return Ok(stream);
    }
    let mut record = [0; RECORD_ROOM];
    let count = write_record(device, &mut record);
    let mut blobs = [[0; LARGEST_BLOB]; 3];
    let mut counts = [0; 3];
    for (i, kind) in [Kind::Permanent, Kind::Volatile, Kind::Saved]
        .into_iter()
        .enumerate()
    {
        if let Some(got) = piece(tpm, kind, 0, &mut blobs[i]) {
            counts[i] = got.length as usize;
        }
    }
    let [permanent, volatile, saved] = &blobs;
    write_stream(
        record.get(..count).unwrap_or(&[]),
        permanent.get(..counts[0]).unwrap_or(&[]),
        volatile.get(..counts[1]).unwrap_or(&[]),
        saved.get(..counts[2]).unwrap_or(&[]),
        &mut stream,
    )?;
    Ok(stream)
}

/// What is wrong, and where.
type Fault = (Why, usize);

fn byte(bytes: &[u8], at: &mut usize) -> Result<u8, Fault> {
    let Some(byte) = bytes.get(*at) else {
        return Err((Why::Cut, bytes.len()));
    };
    *at = at.saturating_add(1);
    Ok(*byte)
}

fn number(bytes: &[u8], at: &mut usize, count: u64) -> Result<u64, Fault> {
    let mut n = 0u64;
    for _ in 0..count {
        n = n
            .wrapping_mul(256)
            .wrapping_add(u64::from(byte(bytes, at)?));
    }
    Ok(n)
}

/// A byte that is this one, or for this reason none.
fn mark(bytes: &[u8], at: &mut usize, wanted: u8, why: Why) -> Result<(), Fault> {
    let place = *at;
    if byte(bytes, at)? != wanted {
        return Err((why, place));
    }
    Ok(())
}

/// A byte of at most this value.
fn value(bytes: &[u8], at: &mut usize, most: u8) -> Result<u8, Fault> {
    let place = *at;
    let value = byte(bytes, at)?;
    if value > most {
        return Err((Why::Value, place));
    }
    Ok(value)
}

/// A magic that ends in this letter, a version of at most this, and a length.
fn header(bytes: &[u8], at: &mut usize, letter: u8, latest: u8) -> Result<(u8, u64), Fault> {
    for wanted in [b'C', b'R', b'B', letter] {
        mark(bytes, at, wanted, Why::Magic)?;
    }
    let place = *at;
    let version = byte(bytes, at)?;
    if version == 0 || version > latest {
        return Err((Why::Version, place));
    }
    let size = number(bytes, at, 4)?;
    Ok((version, size))
}

fn record(bytes: &[u8], at: &mut usize) -> Result<(), Fault> {
    let start = *at;
    let (_, size) = header(bytes, at, b'D', 1)?;
    if size < 14 || size > 3982 {
        return Err((Why::Length, start.saturating_add(5)));
    }
    value(bytes, at, 1)?;
    value(bytes, at, 1)?;
    let phase = value(bytes, at, 4)?;
    let place = *at;
    if value(bytes, at, 1)? == 1 && phase != 3 {
        return Err((Why::Value, place));
    }
    number(bytes, at, 8)?;
    let place = *at;
    let count = number(bytes, at, 2)?;
    if count.saturating_add(14) != size {
        return Err((Why::Length, place));
    }
    if count > 0 && phase == 0 {
        return Err((Why::Value, place));
    }
    let mut last = 1;
    for _ in 0..count {
        last = byte(bytes, at)?;
    }
    if last == 0 {
        return Err((Why::Value, at.saturating_sub(1)));
    }
    Ok(())
}

/// A blob with the first length or with that of its version; its version, and whether a flag of 1 stands at the start of
/// its body.
fn blob(bytes: &[u8], at: &mut usize, letter: u8, lengths: [u64; 3]) -> Result<(u8, bool), Fault> {
    let start = *at;
    let (version, size) = header(bytes, at, letter, 2)?;
    let longer = if version == 1 { lengths[1] } else { lengths[2] };
    if size != lengths[0] && size != longer {
        return Err((Why::Length, start.saturating_add(5)));
    }
    let place = *at;
    let flag = byte(bytes, at)?;
    if letter != b'P' && flag != u8::from(size != 1) {
        return Err((Why::Value, place));
    }
    number(bytes, at, size.saturating_sub(1))?;
    Ok((version, flag == 1))
}

/// So many bytes from these two places on are the same, or the first of the second that isn't is at fault.
fn agree(bytes: &[u8], running: usize, kept: usize, count: usize) -> Result<(), Fault> {
    for i in 0..count {
        let place = kept.saturating_add(i);
        if bytes.get(place) != bytes.get(running.saturating_add(i)) {
            return Err((Why::Value, place));
        }
    }
    Ok(())
}

/// The rules of a stream, one after the other.
fn parsed(bytes: &[u8]) -> Result<(), Fault> {
    let mut at = 0;
    let (_, size) = header(bytes, &mut at, b'S', 1)?;
    record(bytes, &mut at)?;
    let (version, _) = blob(bytes, &mut at, b'P', [40, 40, 40])?;
    let volatile = at;
    let (of_volatile, started) = blob(bytes, &mut at, b'V', [1, 781, 1933])?;
    let saved = at;
    let (of_saved, kept) = blob(bytes, &mut at, b'Z', [1, 517, 1285])?;
    if size != (at as u64).saturating_sub(9) {
        return Err((Why::Length, 5));
    }
    if of_volatile != version {
        return Err((Why::Version, volatile.saturating_add(4)));
    }
    if of_saved != version {
        return Err((Why::Version, saved.saturating_add(4)));
    }
    if started && kept {
        let (running, state) = (volatile.saturating_add(18), saved.saturating_add(10));
        agree(bytes, running, state, 516)?;
        if version == 2 {
            let (running, state) = (volatile.saturating_add(790), saved.saturating_add(526));
            agree(bytes, running, state, 768)?;
        }
    }
    if at < bytes.len() {
        return Err((Why::Extra, at));
    }
    Ok(())
}

/// How bytes are read as a stream, unless what was read is written as other bytes.
fn read(
    alloc: Global,
    device: &mut Device<PlainPort>,
    bytes: &[u8],
) -> Result<Option<Result<(), Fault>>, AllocError> {
    if !device.is_held() {
        return Ok(None);
    }
    match read_stream(alloc, bytes, device)? {
        Ok(tpm) => {
            let again = written(alloc, device, &tpm)?;
            Ok((again.as_slice() == bytes).then_some(Ok(())))
        }
        Err(fault) => Ok(Some(Err((fault.why, fault.place as usize)))),
    }
}

/// Whether bytes are read so, and as the rules say.
fn is_read(
    alloc: Global,
    device: &mut Device<PlainPort>,
    bytes: &[u8],
    wanted: Result<(), Fault>,
) -> Result<bool, AllocError> {
    Ok(read(alloc, device, bytes)? == Some(wanted) && parsed(bytes) == wanted)
}

#[test]
fn a_fresh_stream_both_ways(rt: HostRuntime) -> Result<(), Fail> {
    let mut device = held(&rt, rt.alloc())?;
    let stream = written(rt.alloc(), &device, &powered(Banks::One))?;
    assert!(rt; stream.as_slice() == FRESH.as_slice());
    assert!(rt; is_read(rt.alloc(), &mut device, &FRESH, Ok(()))?);
    let stream = written(rt.alloc(), &device, &powered(Banks::Two))?;
    let fresh = fresh_of_two();
    assert!(rt; stream.as_slice() == fresh.as_slice());
    assert!(rt; is_read(rt.alloc(), &mut device, &fresh, Ok(()))?);
    Ok(())
}

#[test]
fn a_stream_is_written_behind_what_is_there(rt: HostRuntime) -> Result<(), Fail> {
    let mut stream = vec![in rt.alloc(); 7, 8]?;
    write_stream(&[1], &[], &[2, 3], &[], &mut stream)?;
    assert!(rt;
        stream.as_slice() == [7, 8, 0x43, 0x52, 0x42, 0x53, 1, 0, 0, 0, 3, 1, 2, 3].as_slice()
    );
    Ok(())
}

/// How many bytes the first prefix has that isn't cut at its end.
fn wrong_prefix(
    alloc: Global,
    device: &mut Device<PlainPort>,
) -> Result<Option<usize>, AllocError> {
    for n in 0..FRESH.len() {
        let prefix = FRESH.get(..n).unwrap_or(&[]);
        if !is_read(alloc, device, prefix, Err((Why::Cut, n)))? {
            return Ok(Some(n));
        }
    }
    Ok(None)
}

/// The first place, and the bits changed there, that is read otherwise than by the rules.
fn wrong_change(
    alloc: Global,
    device: &mut Device<PlainPort>,
    fresh: &[u8; 101],
) -> Result<Option<(usize, u8)>, AllocError> {
    for place in 0..FRESH.len() {
        for bits in [1, 2, 3, 4, 0x0F, 0x80, 0xFF] {
            let mut bytes = *fresh;
            bytes[place] ^= bits;
            if read(alloc, device, &bytes)? != Some(parsed(&bytes)) {
                return Ok(Some((place, bits)));
            }
        }
    }
    Ok(None)
}

#[test]
fn each_prefix_is_refused_as_cut(rt: HostRuntime) -> Result<(), Fail> {
    let mut device = held(&rt, rt.alloc())?;
    assert_eq!(rt; wrong_prefix(rt.alloc(), &mut device)?, None);
    Ok(())
}

#[test]
fn each_byte_changed(rt: HostRuntime) -> Result<(), Fail> {
    let mut device = held(&rt, rt.alloc())?;
    assert_eq!(rt; wrong_change(rt.alloc(), &mut device, &FRESH)?, None);
    let fresh = fresh_of_two();
    assert_eq!(rt; wrong_change(rt.alloc(), &mut device, &fresh)?, None);
    Ok(())
}

/// Two places of the fresh stream, the bytes that stand there, how many bytes there are, with zeros at the end, and the
/// fault.
const REFUSALS: [((usize, u8), (usize, u8), usize, Why, usize); 19] = [
    ((3, 0x44), (0, 0x43), 101, Why::Magic, 3),
    ((4, 2), (8, 0), 101, Why::Version, 4),
    // late: the length, once all parts are whole
    ((8, 0x5D), (0, 0x43), 101, Why::Length, 5),
    ((5, 1), (0, 0x43), 101, Why::Length, 5),
    ((8, 0x5D), (0, 0x43), 102, Why::Length, 5),
    ((8, 0x5D), (0, 0x43), 100, Why::Cut, 100),
    // then the versions, that of the volatile blob first
    ((36, 2), (95, 2), 101, Why::Version, 85),
    ((85, 2), (95, 2), 101, Why::Version, 85),
    ((95, 2), (0, 0x43), 102, Why::Version, 95),
    ((85, 2), (8, 0x5D), 101, Why::Length, 5),
    ((0, 0x43), (0, 0x43), 102, Why::Extra, 101),
    ((0, 0x43), (0, 0x43), 108, Why::Extra, 101),
    // early: the parts
    ((8, 0x5D), (17, 0x0D), 101, Why::Length, 14),
    ((8, 0x5D), (20, 5), 101, Why::Value, 20),
    ((32, 0x44), (0, 0x43), 101, Why::Magic, 32),
    ((40, 0x29), (8, 0), 101, Why::Length, 37),
    ((36, 3), (85, 2), 101, Why::Version, 36),
    ((90, 2), (100, 1), 101, Why::Value, 90),
    ((100, 1), (0, 0x43), 102, Why::Value, 100),
];

/// Another byte at a place.
fn changed(bytes: &mut [u8], (place, byte): (usize, u8)) {
    if let Some(slot) = bytes.get_mut(place) {
        *slot = byte;
    }
}

/// The first of the refusals that is read otherwise.
fn wrong_refusal(
    alloc: Global,
    device: &mut Device<PlainPort>,
) -> Result<Option<usize>, AllocError> {
    for (row, (first, second, count, why, place)) in REFUSALS.iter().enumerate() {
        let mut bytes = [0; 110];
        bytes[..101].copy_from_slice(&FRESH);
        changed(&mut bytes, *first);
        changed(&mut bytes, *second);
        let prefix = bytes.get(..*count).unwrap_or(&[]);
        if !is_read(alloc, device, prefix, Err((*why, *place)))? {
            return Ok(Some(row));
        }
    }
    Ok(None)
}

/// Whether a record with one content byte of 0 is refused by that byte before the length of the stream is looked at,
/// and read where the byte is another.
fn is_judged_by_its_last_byte(
    alloc: Global,
    device: &mut Device<PlainPort>,
) -> Result<bool, AllocError> {
    let mut bytes = [0; 102];
    bytes[..32].copy_from_slice(&FRESH[..32]);
    bytes[33..].copy_from_slice(&FRESH[32..]);
    bytes[8] = 0x5D;
    bytes[17] = 0x0F;
    bytes[20] = 1;
    bytes[31] = 1;
    let refused = is_read(alloc, device, &bytes, Err((Why::Value, 32)))?;
    bytes[32] = 9;
    Ok(refused && is_read(alloc, device, &bytes, Ok(()))?)
}

#[test]
fn a_malformed_stream_is_refused_at_its_place(rt: HostRuntime) -> Result<(), Fail> {
    let mut device = held(&rt, rt.alloc())?;
    assert_eq!(rt; wrong_refusal(rt.alloc(), &mut device)?, None);
    assert!(rt; is_judged_by_its_last_byte(rt.alloc(), &mut device)?);
    Ok(())
}

/// The stream of a device after a reset over a TPM whose state is saved.
fn kept_stream(
    alloc: Global,
    device: &Device<PlainPort>,
    banks: Banks,
) -> Result<Vec<u8>, AllocError> {
    let tpm = kept(alloc, banks)?;
    written(alloc, device, &tpm)
}

/// The first of these places, the last of them first, at which another byte is reported otherwise than as the first place
/// that differs; 0 where the stream isn't read as it is, or has another length.
fn wrong_disagreement(
    alloc: Global,
    device: &mut Device<PlainPort>,
    stream: &mut Vec<u8>,
    size: usize,
    places: &[usize],
) -> Result<Option<usize>, AllocError> {
    if stream.len() != size || !is_read(alloc, device, stream, Ok(()))? {
        return Ok(Some(0));
    }
    for place in places {
        changed(stream, (*place, 0x40));
        if !is_read(alloc, device, stream, Err((Why::Value, *place)))? {
            return Ok(Some(*place));
        }
    }
    Ok(None)
}

/// Places of the counter and of registers in the saved blob of such a stream.
const STATE_OF_ONE: [usize; 5] = [1396, 1000, 885, 884, 881];

/// The same with two banks; the first three are of registers by SHA-384.
const STATE_OF_TWO: [usize; 6] = [3316, 3000, 2549, 2548, 2037, 2033];

#[test]
fn a_saved_state_that_disagrees(rt: HostRuntime) -> Result<(), Fail> {
    let mut device = held(&rt, rt.alloc())?;
    for (banks, size, places) in [
        (Banks::One, 1397, STATE_OF_ONE.as_slice()),
        (Banks::Two, 3317, STATE_OF_TWO.as_slice()),
    ] {
        let mut stream = kept_stream(rt.alloc(), &device, banks)?;
        let wrong = wrong_disagreement(rt.alloc(), &mut device, &mut stream, size, places)?;
        assert_eq!(rt; wrong, None);
    }
    Ok(())
}

/// Whether a byte behind such a stream comes later than a disagreement, and another length earlier.
fn is_in_order(
    alloc: Global,
    device: &mut Device<PlainPort>,
    stream: &mut Vec<u8>,
) -> Result<bool, AllocError> {
    let extra = is_read(alloc, device, stream, Err((Why::Extra, 1397)))?;
    changed(stream, (881, 0x40));
    let value = is_read(alloc, device, stream, Err((Why::Value, 881)))?;
    changed(stream, (8, 0));
    Ok(extra && value && is_read(alloc, device, stream, Err((Why::Length, 5)))?)
}

#[test]
fn a_disagreement_in_its_order(rt: HostRuntime) -> Result<(), Fail> {
    let mut device = held(&rt, rt.alloc())?;
    let mut stream = kept_stream(rt.alloc(), &device, Banks::One)?;
    stream.push(0)?;
    assert!(rt; is_in_order(rt.alloc(), &mut device, &mut stream)?);
    Ok(())
}

/// How many bytes of the fresh stream are there, and how many are asked for then: at the fields, in their midst, and at
/// the end.
const ASKED: [(usize, u32); 15] = [
    (0, 9),
    (9, 9),
    (18, 14),
    (32, 9),
    (41, 40),
    (81, 9),
    (90, 1),
    (91, 9),
    (100, 1),
    (101, 0),
    (1, 8),
    (8, 1),
    (10, 8),
    (20, 12),
    (99, 1),
];

/// A place of the fresh stream and the bits that are changed there, and how many bytes are asked for once the header or
/// body is whole: none where a header is refused; the length of the head isn't looked at.
const CHANGED: [(usize, u8, u32); 11] = [
    (0, 1, 0),
    (4, 1, 0),
    (8, 1, 9),
    (12, 1, 0),
    (16, 1, 270),
    (17, 0x70, 126),
    (17, 3, 0),
    (36, 3, 40),
    (85, 2, 0),
    (40, 1, 0),
    (90, 1, 9),
];

/// Whether so many bytes are asked for behind the changed header or body, and one before its last byte.
fn is_asked_for(place: usize, bits: u8, count: u32) -> bool {
    let mut bytes = FRESH;
    changed(&mut bytes, (place, FRESH.get(place).unwrap_or(&0) ^ bits));
    let end = [9usize, 18, 41, 90, 91]
        .into_iter()
        .find(|end| *end > place);
    let end = end.unwrap_or(0);
    wanted(bytes.get(..end).unwrap_or(&[])) == count
        && wanted(bytes.get(..end.saturating_sub(1)).unwrap_or(&[])) == 1
}

#[test]
fn wanted_gives_the_bytes_missing_of_a_part(rt: HostRuntime) {
    for (there, count) in ASKED {
        assert!(rt;
            wanted(FRESH.get(..there).unwrap_or(&[])) == count,
            "{there}"
        );
    }
    for (place, bits, count) in CHANGED {
        assert!(rt; is_asked_for(place, bits, count), "{place}");
    }
    let mut longer = [0; 102];
    longer[..101].copy_from_slice(&FRESH);
    assert!(rt; wanted(&longer) == 0);
}
