//! Records of devices byte by byte, and what is refused, against a reader that takes the rules one after the other. The
//! bytes of the records come from the table of fields, and not from this crate.

ghost use Rattle.std.specs.Prelude.{◌≡◌, true, IfOk};

use crb_machine::{Device, HeldState};
use crb_port::PlainPort;
use crb_regs::{Access, Phase, Regs};
use device_record::*;
use std::alloc::Global;
use std::process::Abort;
use std::test::*;
use vt_base::{BUFFER_LENGTH, Malformed, Why};

/// A write of the guest: its place, size and value.
type Write = (u32, u8, u64);

const REQUEST: Write = (0x08, 4, 1);

const READY: Write = (0x40, 4, 1);

const FRONT: Write = (0x80, 2, 0x8001);

const START: Write = (0x4C, 4, 1);

const CANCEL: Write = (0x48, 4, 1);

/// The record of a device after a reset.
const FRESH: [u8; 23] = [
    0x43, 0x52, 0x42, 0x44, 1, 0, 0, 0, 0x0E, 0, 0, 0, 0, 0, 0, 0, 0, 0, 0, 0, 0, 0, 0,
];

/// Of one with the first two bytes of a command.
const RECEPTION: [u8; 25] = [
    0x43, 0x52, 0x42, 0x44, 1, 0, 0, 0, 0x10, 1, 0, 2, 0, 0, 0, 0, 0, 0, 0, 0, 0, 0, 2, 1, 0x80,
];

/// Of one whose first job waits and is cancelled.
const EXECUTION: [u8; 25] = [
    0x43, 0x52, 0x42, 0x44, 1, 0, 0, 0, 0x10, 1, 1, 3, 1, 0, 0, 0, 0, 0, 0, 0, 1, 0, 2, 1, 0x80,
];

/// A device that is held after these writes of its guest.
fn held_after(rt: &impl Abort, alloc: Global, writes: &[Write]) -> Result<Device<PlainPort>, Fail>
    ensures { IfOk result (λ d. d.held ≡ true) }
{
    let mut device = Device::new(alloc, PlainPort::new())?;
    for &(offset, size, value) in writes {
        assert!(rt; !device.is_held());
        if let Some(access) = Access::new(offset, size, Some(value)) {
            device.write(&access);
        }
    }
    assert!(rt; !device.is_held());
    assert!(rt; device.stop().is_ok());
    Ok(device)
}

/// Whether the record of the device is these bytes.
fn writes(device: &Device<PlainPort>, record: &[u8]) -> bool {
    if !device.is_held() || device.phase() == Phase::Lost {
        return false;
    }
    let mut into = [0; RECORD_ROOM];
    let count = write_record(device, &mut into);
    into.get(..count) == Some(record)
}

/// Whether a device has this record, and another device has it once it was loaded.
fn both_ways(device: &Device<PlainPort>, other: &mut Device<PlainPort>, record: &[u8]) -> bool {
    writes(device, record)
        && check_record(record) == Ok(())
        && other.is_held()
        && load_record(other, record) == Ok(())
        && writes(other, record)
}

/// The writes of a guest, and the record of its device then.
const RECORDS: [(&[Write], &[u8]); 3] = [
    (&[], &FRESH),
    (&[REQUEST, READY, FRONT], &RECEPTION),
    (&[REQUEST, READY, FRONT, START, CANCEL], &EXECUTION),
];

#[test]
fn records_are_written_and_loaded_back(rt: HostRuntime) -> Result<(), Fail> {
    let mut other = held_after(&rt, rt.alloc(), &[])?;
    for (guest, record) in RECORDS {
        let device = held_after(&rt, rt.alloc(), guest)?;
        assert!(rt; both_ways(&device, &mut other, record));
    }
    Ok(())
}

/// Whether the record of a device with the largest values is taken by another, which goes on then.
fn is_largest(device: &mut Device<PlainPort>, other: &mut Device<PlainPort>) -> bool {
    let mut content = [0xA5; BUFFER_LENGTH];
    content[0] = 0;
    let mut record = [0; RECORD_ROOM];
    if !device.is_held() || !other.is_held() {
        return false;
    }
    device.set_state(&HeldState {
        regs: Regs {
            granted: false,
            cancel: false,
            phase: Phase::Completion,
        },
        cancelled: false,
        number: u64::MAX,
        content: &content,
    });
    if device.phase() == Phase::Lost || write_record(device, &mut record) != 3991 {
        return false;
    }
    let written = record.get(5..9) == Some([0, 0, 0x0F, 0x8E].as_slice())
        && record.get(13..23)
            == Some([255, 255, 255, 255, 255, 255, 255, 255, 0x0F, 0x80].as_slice());
    if !written || load_record(other, record.get(..3991).unwrap_or(&[])) != Ok(()) {
        return false;
    }
    let taken = other.is_held() && other.state().content == content.as_slice();
    if taken {
        other.go_on();
    }
    taken && !other.is_held()
}

#[test]
fn the_largest_record_has_3991_bytes(rt: HostRuntime) -> Result<(), Fail> {
    let mut device = held_after(&rt, rt.alloc(), &[])?;
    let mut other = held_after(&rt, rt.alloc(), &[])?;
    assert!(rt; is_largest(&mut device, &mut other));
    Ok(())
}

/// The rules of the fields up to the job's flag, one after the other.
fn fault_in_front(bytes: &[u8]) -> Option<(Why, usize)> {
    let cut = Some((Why::Cut, bytes.len()));
    for (place, letter) in [0x43, 0x52, 0x42, 0x44].iter().enumerate() {
        match bytes.get(place) {
            Some(byte) if byte == letter => {}
            Some(_) => return Some((Why::Magic, place)),
            None => return cut,
        }
    }
    match bytes.get(4) {
        Some(1) => {}
        Some(_) => return Some((Why::Version, 4)),
        None => return cut,
    }
    if bytes.len() < 9 {
        return cut;
    }
    let length = u32::from_be_bytes([bytes[5], bytes[6], bytes[7], bytes[8]]);
    if length < 14 || length > 14 + 3968 {
        return Some((Why::Length, 5));
    }
    for (place, largest) in [(9, 1), (10, 1), (11, 4), (12, 1)] {
        match bytes.get(place) {
            Some(byte) if *byte <= largest => {}
            Some(_) => return Some((Why::Value, place)),
            None => return cut,
        }
    }
    if bytes.get(12) == Some(&1) && bytes.get(11) != Some(&3) {
        return Some((Why::Value, 12));
    }
    None
}

/// The rules of what stands behind.
fn fault_behind(bytes: &[u8]) -> Option<(Why, usize)> {
    let cut = Some((Why::Cut, bytes.len()));
    if bytes.len() < 23 {
        return cut;
    }
    let length = u32::from_be_bytes([bytes[5], bytes[6], bytes[7], bytes[8]]);
    let n = u16::from_be_bytes([bytes[21], bytes[22]]);
    if u32::from(n) + 14 != length {
        return Some((Why::Length, 21));
    }
    if n > 0 && bytes[11] == 0 {
        return Some((Why::Value, 21));
    }
    let n = usize::from(n);
    if bytes.len() < 23 + n {
        return cut;
    }
    if n > 0 && bytes[22 + n] == 0 {
        return Some((Why::Value, 22 + n));
    }
    if bytes.len() > 23 + n {
        return Some((Why::Extra, 23 + n));
    }
    None
}

/// Whether a device takes these bytes, or refuses them, as the rules say.
fn agrees(device: &mut Device<PlainPort>, bytes: &[u8]) -> bool {
    if !device.is_held() {
        return false;
    }
    let fault = load_record(device, bytes).err();
    match fault_in_front(bytes).or_else(|| fault_behind(bytes)) {
        Some((why, place)) => {
            fault.is_some_and(|fault: Malformed| fault.why == why && fault.place as usize == place)
        }
        None => fault.is_none(),
    }
}

/// Changes each byte of a record in turn to each value, and tries each prefix of that and with a byte behind it: the
/// first place, value and end that are checked otherwise than by the rules.
fn first_mismatch(device: &mut Device<PlainPort>, record: &[u8]) -> Option<(usize, u8, usize)> {
    for place in 0..record.len() {
        for value in 0..=255_u8 {
            let mut bytes = [0; 26];
            if let Some(prefix) = bytes.get_mut(..record.len()) {
                prefix.copy_from_slice(record);
            }
            if let Some(byte) = bytes.get_mut(place) {
                *byte = value;
            }
            for end in 0..=record.len() + 1 {
                match bytes.get(..end) {
                    Some(prefix) if agrees(device, prefix) => {}
                    _ => return Some((place, value, end)),
                }
            }
        }
    }
    None
}

#[test]
fn a_changed_byte_or_a_cut_is_refused_at_its_place(rt: HostRuntime) -> Result<(), Fail> {
    let mut device = held_after(&rt, rt.alloc(), &[])?;
    for record in [FRESH.as_slice(), &RECEPTION, &EXECUTION] {
        assert_eq!(rt; first_mismatch(&mut device, record), None);
    }
    Ok(())
}
