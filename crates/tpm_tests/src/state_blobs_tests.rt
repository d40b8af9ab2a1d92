//! Blobs of TPMs byte by byte, and what gathers refuse. The expected bytes come from the table of fields and from
//! worked values of registers, and not from this crate.

ghost use Rattle.std.specs.Prelude.{◌≡◌, ◌<◌, IfOk, IfSome, length};

use state_blobs::*;
use std::alloc::{AllocError, Global};
use std::test::*;
use tpm_core::{Banks, Tpm};
use vt_base::{Buf, Kind, Malformed, Why};

/// The permanent blob of a TPM with a seed of zeros that power came to once.
pub(crate) const PERMANENT: [u8; 49] = [
    0x43, 0x52, 0x42, 0x50, 1, 0, 0, 0, 0x28, 0, 0, 0, 0, 0, 0, 0, 0, 0, 0, 0, 0, 0, 0, 0, 0, 0, 0,
    0, 0, 0, 0, 0, 0, 0, 0, 0, 0, 0, 0, 0, 0, 0, 0, 0, 0, 0, 0, 0, 1,
];

/// The volatile blob of a TPM that isn't started.
pub(crate) const STOPPED: [u8; 10] = [0x43, 0x52, 0x42, 0x56, 1, 0, 0, 0, 1, 0];

/// The blob of no saved state.
pub(crate) const NO_STATE: [u8; 10] = [0x43, 0x52, 0x42, 0x5a, 1, 0, 0, 0, 1, 0];

/// What stands before the registers in the volatile blob of a started TPM that drew nothing and extended one digest.
const RUNNING: [u8; 22] = [
    0x43, 0x52, 0x42, 0x56, 1, 0, 0, 3, 0x0d, 1, 0, 0, 0, 0, 0, 0, 0, 0, 0, 0, 0, 1,
];

/// What stands before the registers in the blob of its saved state.
const SAVED: [u8; 14] = [0x43, 0x52, 0x42, 0x5a, 1, 0, 0, 2, 5, 1, 0, 0, 0, 1];

/// The SHA-256 of 64 zero bytes: a register of zeros after an extend by a digest of zeros.
pub(crate) const EXTENDED: [u8; 32] = [
    0xf5, 0xa5, 0xfd, 0x42, 0xd1, 0x6a, 0x20, 0x30, 0x27, 0x98, 0xef, 0x6e, 0xd3, 0x09, 0x97, 0x9b,
    0x43, 0x00, 0x3d, 0x23, 0x20, 0xd9, 0xf0, 0xe8, 0xea, 0x98, 0x31, 0xa9, 0x27, 0x59, 0xfb, 0x4b,
];

/// TPM2_Startup(CLEAR).
pub(crate) const STARTUP: [u8; 12] = [0x80, 1, 0, 0, 0, 12, 0, 0, 1, 0x44, 0, 0];

/// TPM2_PCR_Extend of register 0, before its digest of 32 zeros.
const EXTEND: [u8; 33] = [
    0x80, 2, 0, 0, 0, 0x41, 0, 0, 1, 0x82, 0, 0, 0, 0, 0, 0, 0, 9, 0x40, 0, 0, 9, 0, 0, 1, 0, 0, 0,
    0, 0, 1, 0, 0x0b,
];

/// TPM2_Shutdown(STATE).
pub(crate) const SHUTDOWN: [u8; 12] = [0x80, 1, 0, 0, 0, 12, 0, 0, 1, 0x45, 0, 1];

pub(crate) fn powered(banks: Banks) -> Tpm {
    let mut tpm = Tpm::manufacture([0; 32], banks);
    tpm.power_on();
    tpm
}

/// A started TPM with one bank whose register 0 was extended by zeros, and whose state is saved.
fn running(alloc: Global) -> Result<Tpm, Fail> {
    let mut tpm = powered(Banks::One);
    let mut into = Buf::new(alloc)?;
    tpm.execute(&STARTUP, &mut into);
    let mut extend = [0; 65];
    extend[..33].copy_from_slice(&EXTEND);
    tpm.execute(&extend, &mut into);
    tpm.execute(&SHUTDOWN, &mut into);
    Ok(tpm)
}

/// A gather that took these bytes, unless it refuses them.
fn gathered(alloc: Global, kind: Kind, bytes: &[u8]) -> Result<Option<Gather>, AllocError>
    ensures { IfOk result (λ made. IfSome made (λ gather. gather.kind ≡ kind)) }
{
    let mut gather = Gather::new(alloc, kind)?;
    let is_taken = gather.push(bytes).is_ok();
    Ok(is_taken.then_some(gather))
}

/// Whether a TPM gives a blob whole, with nothing written behind it, and none past its end.
pub(crate) fn is_given_whole(tpm: &Tpm, kind: Kind, blob: &[u8]) -> bool
    requires { length blob.now < 60 }
{
    let total = blob.len() as u32;
    let mut into = [0xEE; 60];
    let whole = Piece {
        total,
        length: total,
    };
    let end = Piece { total, length: 0 };
    let given = piece(tpm, kind, 0, &mut into) == Some(whole)
        && into.get(..blob.len()) == Some(blob)
        && into.iter().skip(blob.len()).all(|b| *b == 0xEE);
    given
        && piece(tpm, kind, total, &mut into) == Some(end)
        && piece(tpm, kind, total.saturating_add(1), &mut into) == None
        && piece(tpm, kind, u32::MAX, &mut into) == None
        && into.get(..blob.len()) == Some(blob)
}

/// Whether a TPM gives a blob byte by byte.
pub(crate) fn is_given_singly(tpm: &Tpm, kind: Kind, blob: &[u8]) -> bool
    requires { length blob.now < 60 }
{
    let total = blob.len() as u32;
    for (offset, byte) in blob.iter().enumerate() {
        let mut one = [0xEE];
        let given = piece(tpm, kind, offset as u32, &mut one);
        if given != Some(Piece { total, length: 1 }) || one[0] != *byte {
            return false;
        }
    }
    true
}

/// Whether a gather takes a blob whole, and byte by byte with empty pieces between.
pub(crate) fn is_gathered(gather: &mut Gather, blob: &[u8]) -> bool {
    if gather.push(blob) != Ok(true) || !gather.is_whole() || gather.len() != blob.len() {
        return false;
    }
    gather.clear();
    if !gather.is_empty() {
        return false;
    }
    for i in 0..blob.len() {
        let is_last = i + 1 == blob.len();
        if gather.push(&[]) != Ok(false) || gather.push(&blob[i..i + 1]) != Ok(is_last) {
            return false;
        }
    }
    gather.push(&[]) == Ok(true)
}

/// The blobs of a TPM that power came to once.
const BLOBS: [(Kind, &[u8]); 3] = [
    (Kind::Permanent, &PERMANENT),
    (Kind::Volatile, &STOPPED),
    (Kind::Saved, &NO_STATE),
];

#[test]
fn pieces_of_a_new_tpm_join_to_its_blobs(rt: HostRuntime) -> Result<(), Fail> {
    let tpm = powered(Banks::One);
    for (kind, blob) in BLOBS {
        assert!(rt; blob.len() < 60);
        assert!(rt; is_given_whole(&tpm, kind, blob), "{kind:?}");
        assert!(rt; is_given_singly(&tpm, kind, blob), "{kind:?}");
        let mut gather = Gather::new(rt.alloc(), kind)?;
        assert!(rt; is_gathered(&mut gather, blob), "{kind:?}");
    }
    Ok(())
}

/// From a place on there are so many of this byte.
pub(crate) fn are(bytes: &[u8], from: usize, count: usize, byte: u8) -> bool {
    bytes.iter().skip(from).take(count).all(|b| *b == byte)
}

/// The volatile blob of a started TPM, and that of its saved state, as the TPM gives them.
#[derive(Clone, Copy)]
pub(crate) struct StartedBlobs {
    pub(crate) volatile: [u8; 790],
    pub(crate) saved: [u8; 526],
}

fn given(tpm: &Tpm) -> Option<StartedBlobs> {
    let mut volatile = [0; 790];
    let mut saved = [0; 526];
    let all = Piece {
        total: 790,
        length: 790,
    };
    let all_saved = Piece {
        total: 526,
        length: 526,
    };
    let is_whole = piece(tpm, Kind::Volatile, 0, &mut volatile) == Some(all)
        && piece(tpm, Kind::Saved, 0, &mut saved) == Some(all_saved);
    is_whole.then_some(StartedBlobs { volatile, saved })
}

/// Those of the TPM that is running.
pub(crate) fn given_by_running(alloc: Global) -> Result<StartedBlobs, Fail> {
    let tpm = running(alloc)?;
    Ok(given(&tpm).ok_or("the blobs")?)
}

fn are_of_running(blobs: &StartedBlobs) -> bool {
    let volatile = &blobs.volatile;
    let saved = &blobs.saved;
    volatile.get(..22) == Some(RUNNING.as_slice())
        && volatile.get(22..54) == Some(EXTENDED.as_slice())
        && are(volatile, 54, 512, 0)
        && are(volatile, 566, 192, 0xFF)
        && are(volatile, 758, 32, 0)
        && saved.get(..14) == Some(SAVED.as_slice())
        && saved.get(14..46) == Some(EXTENDED.as_slice())
        && are(saved, 46, 480, 0)
}

#[test]
fn blobs_of_a_started_tpm(rt: HostRuntime) -> Result<(), Fail> {
    let blobs = given_by_running(rt.alloc())?;
    assert!(rt; are_of_running(&blobs));
    Ok(())
}

/// Whether the TPM that is made of these blobs has the values and the blobs of the one that is running.
fn is_made_of(other: &Tpm, blobs: &StartedBlobs) -> bool {
    let parts = other.parts();
    let mut permanent = [0; 49];
    let all = Piece {
        total: 49,
        length: 49,
    };
    let same = match given(other) {
        Some(again) => again.volatile == blobs.volatile && again.saved == blobs.saved,
        None => false,
    };
    same && piece(other, Kind::Permanent, 0, &mut permanent) == Some(all)
        && permanent == PERMANENT
        && parts.seed == [0; 32]
        && parts.boots == 1
        && parts.draws == 0
        && parts.banks == Banks::One
        && parts.started
        && parts.counter == 1
        && parts.saved.is_some()
        && parts.pcr[0] == EXTENDED
        && parts.pcr[17] == [0xFF; 32]
}

/// What comes of gathers that took these bytes, unless one refuses them.
pub(crate) fn assembled(
    alloc: Global,
    permanent: &[u8],
    volatile: &[u8],
    saved: &[u8],
) -> Result<Option<Result<Tpm, BlobFault>>, AllocError> {
    let Some(p) = gathered(alloc, Kind::Permanent, permanent)? else {
        return Ok(None);
    };
    let Some(v) = gathered(alloc, Kind::Volatile, volatile)? else {
        return Ok(None);
    };
    let Some(z) = gathered(alloc, Kind::Saved, saved)? else {
        return Ok(None);
    };
    Ok(Some(assemble(&p, &v, &z)))
}

#[test]
fn a_tpm_from_its_blobs(rt: HostRuntime) -> Result<(), Fail> {
    let blobs = given_by_running(rt.alloc())?;
    let made = assembled(rt.alloc(), &PERMANENT, &blobs.volatile, &blobs.saved)?;
    assert!(rt; matches!(&made, Some(Ok(other)) if is_made_of(other, &blobs)));
    Ok(())
}

/// Whether a gather takes so many bytes one by one and refuses the next; what was refused isn't kept.
fn is_refused_singly(gather: &mut Gather, bytes: &[u8], fault: Malformed) -> bool {
    for i in 0..bytes.len() {
        match gather.push(&bytes[i..i + 1]) {
            Ok(_) if gather.len() == i + 1 => {}
            Err(found) => return found == fault && gather.len() == i,
            Ok(_) => return false,
        }
    }
    false
}

/// Whether these bytes are refused so, pushed whole and byte by byte.
pub(crate) fn is_refused(gather: &mut Gather, bytes: &[u8], fault: Malformed) -> bool {
    gather.push(bytes) == Err(fault)
        && gather.is_empty()
        && !gather.is_whole()
        && is_refused_singly(gather, bytes, fault)
}

/// Bytes that are refused, why and where.
const REFUSALS: [(Kind, &str, Why, u32); 21] = [
    // each byte of a magic, also that of another kind
    (Kind::Permanent, "4452425001", Why::Magic, 0),
    (Kind::Permanent, "4353425001", Why::Magic, 1),
    (Kind::Volatile, "435243", Why::Magic, 2),
    (Kind::Permanent, "4352425601", Why::Magic, 3),
    (Kind::Saved, "4352425602", Why::Magic, 3),
    // the version, before a length that is wrong too
    (Kind::Permanent, "435242500300000000", Why::Version, 4),
    (Kind::Saved, "4352425a00", Why::Version, 4),
    // the length, checked when it is whole
    (Kind::Permanent, "435242500100000029", Why::Length, 5),
    (Kind::Permanent, "4352425001ff000028", Why::Length, 5),
    (Kind::Volatile, "435242560100000000", Why::Length, 5),
    (Kind::Volatile, "435242560100000205", Why::Length, 5),
    (Kind::Volatile, "43524256010000030e", Why::Length, 5),
    (Kind::Saved, "4352425a010000030d", Why::Length, 5),
    (Kind::Saved, "4352425a010000000209", Why::Length, 5),
    // the flag
    (Kind::Volatile, "43524256010000000101", Why::Value, 9),
    (Kind::Volatile, "43524256010000030d00", Why::Value, 9),
    (Kind::Volatile, "43524256010000000102", Why::Value, 9),
    (Kind::Saved, "4352425a01000002050207", Why::Value, 9),
    (Kind::Saved, "4352425a01000000010107", Why::Value, 9),
    // bytes behind the blob
    (Kind::Saved, "4352425a01000000010000", Why::Extra, 10),
    (Kind::Volatile, "435242560100000001000707", Why::Extra, 10),
];

/// Whether bytes that are reported in hexadecimal are refused so.
fn refuses(alloc: Global, kind: Kind, text: &str, fault: Malformed) -> Result<bool, AllocError> {
    let Ok(bytes) = hex::decode(alloc, text) else {
        return Ok(false);
    };
    let mut gather = Gather::new(alloc, kind)?;
    Ok(is_refused(&mut gather, &bytes, fault))
}

/// The bytes of the first row that isn't refused so.
fn wrong_refusal(alloc: Global) -> Result<Option<&'static str>, AllocError> {
    for (kind, text, why, place) in REFUSALS {
        if !refuses(alloc, kind, text, Malformed { why, place })? {
            return Ok(Some(text));
        }
    }
    Ok(None)
}

#[test]
fn a_malformed_blob_is_refused_at_its_place(rt: HostRuntime) -> Result<(), Fail> {
    assert_eq!(rt; wrong_refusal(rt.alloc())?, None);
    Ok(())
}

/// The permanent blob with a byte behind it.
const LONG: [u8; 50] = [
    0x43, 0x52, 0x42, 0x50, 1, 0, 0, 0, 0x28, 0, 0, 0, 0, 0, 0, 0, 0, 0, 0, 0, 0, 0, 0, 0, 0, 0, 0,
    0, 0, 0, 0, 0, 0, 0, 0, 0, 0, 0, 0, 0, 0, 0, 0, 0, 0, 0, 0, 0, 1, 0,
];

#[test]
fn a_byte_behind_the_longest_permanent_blob(rt: HostRuntime) -> Result<(), Fail> {
    let fault = Malformed {
        why: Why::Extra,
        place: 49,
    };
    let mut gather = Gather::new(rt.alloc(), Kind::Permanent)?;
    assert!(rt; is_refused(&mut gather, &LONG, fault));
    Ok(())
}

/// Whether these bytes have this fault, or none.
pub(crate) fn has_fault(
    alloc: Global,
    permanent: &[u8],
    volatile: &[u8],
    saved: &[u8],
    wanted: Option<BlobFault>,
) -> Result<bool, AllocError> {
    let made = assembled(alloc, permanent, volatile, saved)?;
    Ok(match made {
        Some(made) => made.err() == wanted,
        None => false,
    })
}

pub(crate) fn at(kind: Kind, why: Why, place: u32) -> Option<BlobFault> {
    Some(BlobFault {
        kind,
        fault: Malformed { why, place },
    })
}

/// How many bytes of each blob there are, and which of them ends too soon.
const CUTS: [(usize, usize, usize, Option<Kind>, u32); 11] = [
    (49, 790, 526, None, 0),
    (49, 0, 0, None, 0),
    (49, 0, 526, None, 0),
    (49, 790, 0, None, 0),
    (0, 1, 1, Some(Kind::Permanent), 0),
    (1, 790, 526, Some(Kind::Permanent), 1),
    (48, 1, 526, Some(Kind::Permanent), 48),
    (49, 1, 1, Some(Kind::Volatile), 1),
    (49, 789, 526, Some(Kind::Volatile), 789),
    (49, 790, 1, Some(Kind::Saved), 1),
    (49, 0, 525, Some(Kind::Saved), 525),
];

/// The first bytes.
fn prefix(bytes: &[u8], count: usize) -> &[u8] {
    bytes.get(..count).unwrap_or(bytes)
}

/// The first row of the cuts that has another fault.
fn wrong_cut(alloc: Global, blobs: &StartedBlobs) -> Result<Option<usize>, AllocError> {
    for (row, (p, v, z, cut, place)) in CUTS.iter().enumerate() {
        let wanted = match cut {
            Some(kind) => at(*kind, Why::Cut, *place),
            None => None,
        };
        let volatile = prefix(&blobs.volatile, *v);
        let saved = prefix(&blobs.saved, *z);
        if !has_fault(alloc, prefix(&PERMANENT, *p), volatile, saved, wanted)? {
            return Ok(Some(row));
        }
    }
    Ok(None)
}

#[test]
fn faults_in_their_order(rt: HostRuntime) -> Result<(), Fail> {
    let blobs = given_by_running(rt.alloc())?;
    assert_eq!(rt; wrong_cut(rt.alloc(), &blobs)?, None);
    let cut = at(Kind::Volatile, Why::Cut, 9);
    assert!(rt;
        has_fault(
            rt.alloc(),
            &PERMANENT,
            prefix(&STOPPED, 9),
            &blobs.saved,
            cut
        )?
    );
    assert!(rt; has_fault(rt.alloc(), &PERMANENT, &STOPPED, &NO_STATE, None)?);
    Ok(())
}

/// Whether each blob that is cut at this place is reported as cut there.
fn are_cut_at(alloc: Global, blobs: &StartedBlobs, place: usize) -> Result<bool, AllocError>
    requires { place < 790 }
{
    let volatile = prefix(&blobs.volatile, place);
    let cut = at(Kind::Volatile, Why::Cut, place as u32);
    if !has_fault(alloc, &PERMANENT, volatile, &blobs.saved, cut)? {
        return Ok(false);
    }
    let saved = prefix(&blobs.saved, place);
    let cut = at(Kind::Saved, Why::Cut, place as u32);
    if place < 526 && !has_fault(alloc, &PERMANENT, &blobs.volatile, saved, cut)? {
        return Ok(false);
    }
    let permanent = prefix(&PERMANENT, place);
    let cut = at(Kind::Permanent, Why::Cut, place as u32);
    Ok(place >= 49 || has_fault(alloc, permanent, &blobs.volatile, &blobs.saved, cut)?)
}

/// The first place at which a cut is reported otherwise.
fn wrong_place(alloc: Global, blobs: &StartedBlobs) -> Result<Option<usize>, AllocError> {
    for place in 1..790 {
        if !are_cut_at(alloc, blobs, place)? {
            return Ok(Some(place));
        }
    }
    Ok(None)
}

#[test]
fn a_cut_blob_is_refused_at_each_place(rt: HostRuntime) -> Result<(), Fail> {
    let blobs = given_by_running(rt.alloc())?;
    assert_eq!(rt; wrong_place(rt.alloc(), &blobs)?, None);
    Ok(())
}

/// The first of these places at which a saved state that differs isn't reported so, or is reported without registers
/// that stand.
fn wrong_disagreement(alloc: Global, blobs: &StartedBlobs) -> Result<Option<usize>, AllocError> {
    // The first and the last byte of the counter, and bytes of registers 0, 1 and 15.
    for place in [10, 13, 14, 45, 46, 525] {
        let mut saved = blobs.saved;
        saved[place] ^= 0x80;
        // A later byte that differs too isn't reported.
        saved[525] |= 1;
        let wanted = at(Kind::Saved, Why::Value, place as u32);
        let is_fault = has_fault(alloc, &PERMANENT, &blobs.volatile, &saved, wanted)?
            && has_fault(alloc, &PERMANENT, &STOPPED, &saved, None)?
            && has_fault(alloc, &PERMANENT, &[], &saved, None)?;
        if !is_fault {
            return Ok(Some(place));
        }
    }
    Ok(None)
}

#[test]
fn saved_states_that_disagree(rt: HostRuntime) -> Result<(), Fail> {
    let blobs = given_by_running(rt.alloc())?;
    assert_eq!(rt; wrong_disagreement(rt.alloc(), &blobs)?, None);
    Ok(())
}

#[test]
fn text_of_a_fault(rt: HostRuntime) -> Result<(), Fail> {
    let fault = BlobFault {
        kind: Kind::Volatile,
        fault: Malformed {
            why: Why::Value,
            place: 9,
        },
    };
    let text = "the volatile blob is malformed at byte 9";
    assert_eq!(rt; format!(in rt.alloc(); "{fault}")?.as_str(), text);
    Ok(())
}
