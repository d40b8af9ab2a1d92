//! Blobs of TPMs with two banks: version 2 beside version 1. The expected bytes come from the table of fields and from
//! worked values of registers, and not from this crate.

ghost use Rattle.std.specs.Prelude.{◌≡◌};
ghost use Rattle.vt_base.specs.declared.types.Kind.TheVariants.{Permanent, Volatile, Saved};

use crate::state_blobs_tests::{
    EXTENDED, NO_STATE, PERMANENT, SHUTDOWN, STARTUP, STOPPED, StartedBlobs, are, assembled, at,
    given_by_running, has_fault, is_gathered, is_given_singly, is_given_whole, is_refused, powered,
};
use state_blobs::*;
use std::alloc::{AllocError, Global};
use std::test::*;
use tpm_core::{Banks, Tpm};
use vt_base::{Buf, Kind, Malformed, Why};

/// The permanent blob of a TPM with two banks and a seed of zeros that power came to once.
const PERMANENT_OF_TWO: [u8; 49] = [
    0x43, 0x52, 0x42, 0x50, 2, 0, 0, 0, 0x28, 0, 0, 0, 0, 0, 0, 0, 0, 0, 0, 0, 0, 0, 0, 0, 0, 0, 0,
    0, 0, 0, 0, 0, 0, 0, 0, 0, 0, 0, 0, 0, 0, 0, 0, 0, 0, 0, 0, 0, 1,
];

/// The volatile blob of one that isn't started.
const STOPPED_OF_TWO: [u8; 10] = [0x43, 0x52, 0x42, 0x56, 2, 0, 0, 0, 1, 0];

/// The blob of no saved state.
const NO_STATE_OF_TWO: [u8; 10] = [0x43, 0x52, 0x42, 0x5a, 2, 0, 0, 0, 1, 0];

/// What stands before the registers in the volatile blob of one that is started, drew nothing and extended two digests.
const RUNNING_OF_TWO: [u8; 22] = [
    0x43, 0x52, 0x42, 0x56, 2, 0, 0, 7, 0x8d, 1, 0, 0, 0, 0, 0, 0, 0, 0, 0, 0, 0, 2,
];

/// What stands before the registers in the blob of its saved state.
const SAVED_OF_TWO: [u8; 14] = [0x43, 0x52, 0x42, 0x5a, 2, 0, 0, 5, 5, 1, 0, 0, 0, 2];

/// The SHA-384 of 96 zero bytes: a register of zeros after an extend by a digest of zeros.
const EXTENDED_384: [u8; 48] = [
    0xf5, 0x7b, 0xb7, 0xed, 0x82, 0xc6, 0xae, 0x4a, 0x29, 0xe6, 0xc9, 0x87, 0x93, 0x38, 0xc5, 0x92,
    0xc7, 0xd4, 0x2a, 0x39, 0x13, 0x55, 0x83, 0xe8, 0xcc, 0xbe, 0x39, 0x40, 0xf2, 0x34, 0x4b, 0x0e,
    0xb6, 0xeb, 0x85, 0x03, 0xdb, 0x0f, 0xfd, 0x6a, 0x39, 0xdd, 0xd0, 0x0c, 0xd0, 0x7d, 0x83, 0x17,
];

/// TPM2_PCR_Extend of register 0 by two digests, before the first of them.
const EXTEND_TWO: [u8; 33] = [
    0x80, 2, 0, 0, 0, 0x73, 0, 0, 1, 0x82, 0, 0, 0, 0, 0, 0, 0, 9, 0x40, 0, 0, 9, 0, 0, 1, 0, 0, 0,
    0, 0, 2, 0, 0x0b,
];

/// A started TPM with two banks, whose register 0 was extended by zeros in both, and whose state is saved.
fn running_of_two(alloc: Global) -> Result<Tpm, Fail> {
    let mut tpm = powered(Banks::Two);
    let mut into = Buf::new(alloc)?;
    tpm.execute(&STARTUP, &mut into);
    // The first digest has 32 zeros; the second is by SHA-384 and has 48.
    let mut extend = [0; 115];
    extend[..33].copy_from_slice(&EXTEND_TWO);
    extend[66] = 0x0c;
    tpm.execute(&extend, &mut into);
    tpm.execute(&SHUTDOWN, &mut into);
    Ok(tpm)
}

/// The blobs of a TPM with two banks that power came to once.
const BLOBS_OF_TWO: [(Kind, &[u8]); 3] = [
    (Kind::Permanent, &PERMANENT_OF_TWO),
    (Kind::Volatile, &STOPPED_OF_TWO),
    (Kind::Saved, &NO_STATE_OF_TWO),
];

#[test]
fn pieces_of_a_new_tpm_with_two_banks(rt: HostRuntime) -> Result<(), Fail> {
    let tpm = powered(Banks::Two);
    for (kind, blob) in BLOBS_OF_TWO {
        assert!(rt; blob.len() < 60);
        assert!(rt; is_given_whole(&tpm, kind, blob), "{kind:?}");
        assert!(rt; is_given_singly(&tpm, kind, blob), "{kind:?}");
        let mut gather = Gather::new(rt.alloc(), kind)?;
        assert!(rt; is_gathered(&mut gather, blob), "{kind:?}");
    }
    Ok(())
}

/// The volatile blob of a started TPM with two banks, and that of its saved state, as the TPM gives them.
#[derive(Clone, Copy)]
struct BlobsOfTwo {
    volatile: [u8; 1942],
    saved: [u8; 1294],
}

fn given_of_two(tpm: &Tpm) -> Option<BlobsOfTwo> {
    let mut volatile = [0; 1942];
    let mut saved = [0; 1294];
    let all = Piece {
        total: 1942,
        length: 1942,
    };
    let all_saved = Piece {
        total: 1294,
        length: 1294,
    };
    let is_whole = piece(tpm, Kind::Volatile, 0, &mut volatile) == Some(all)
        && piece(tpm, Kind::Saved, 0, &mut saved) == Some(all_saved);
    is_whole.then_some(BlobsOfTwo { volatile, saved })
}

/// Those of the TPM that is running.
fn given_by_two(alloc: Global) -> Result<BlobsOfTwo, Fail> {
    let tpm = running_of_two(alloc)?;
    Ok(given_of_two(&tpm).ok_or("the blobs")?)
}

/// The registers by SHA-384 stand behind all those by SHA-256.
fn are_of_two(blobs: &BlobsOfTwo) -> bool {
    let volatile = &blobs.volatile;
    let saved = &blobs.saved;
    volatile.get(..22) == Some(RUNNING_OF_TWO.as_slice())
        && volatile.get(22..54) == Some(EXTENDED.as_slice())
        && are(volatile, 54, 512, 0)
        && are(volatile, 566, 192, 0xFF)
        && are(volatile, 758, 32, 0)
        && volatile.get(790..838) == Some(EXTENDED_384.as_slice())
        && are(volatile, 838, 768, 0)
        && are(volatile, 1606, 288, 0xFF)
        && are(volatile, 1894, 48, 0)
        && saved.get(..14) == Some(SAVED_OF_TWO.as_slice())
        && saved.get(14..46) == Some(EXTENDED.as_slice())
        && are(saved, 46, 480, 0)
        && saved.get(526..574) == Some(EXTENDED_384.as_slice())
        && are(saved, 574, 720, 0)
}

#[test]
fn blobs_of_a_started_tpm_with_two_banks(rt: HostRuntime) -> Result<(), Fail> {
    let blobs = given_by_two(rt.alloc())?;
    assert!(rt; are_of_two(&blobs));
    Ok(())
}

/// Whether the TPM that is made of these blobs has the values and the blobs of the one that is running.
fn is_made_of_two(other: &Tpm, blobs: &BlobsOfTwo) -> bool {
    let parts = other.parts();
    let same = match given_of_two(other) {
        Some(again) => again.volatile == blobs.volatile && again.saved == blobs.saved,
        None => false,
    };
    same && parts.banks == Banks::Two
        && parts.counter == 2
        && parts.pcr[0] == EXTENDED
        && parts.pcr384[0] == EXTENDED_384
        && parts.pcr384[17] == [0xFF; 48]
}

#[test]
fn a_tpm_with_two_banks_from_its_blobs(rt: HostRuntime) -> Result<(), Fail> {
    let blobs = given_by_two(rt.alloc())?;
    let made = assembled(rt.alloc(), &PERMANENT_OF_TWO, &blobs.volatile, &blobs.saved)?;
    assert!(rt; matches!(&made, Some(Ok(other)) if is_made_of_two(other, &blobs)));
    Ok(())
}

/// Bytes that only another version could begin with, why they are refused and where.
const REFUSALS_OF_TWO: [(Kind, &[u8], Why, u32); 8] = [
    (Kind::Volatile, b"CRBV\x03\0\0\x07\x8d", Why::Version, 4),
    (Kind::Saved, b"CRBZ\x00\0\0\0\x01", Why::Version, 4),
    (Kind::Volatile, b"CRBV\x01\0\0\x07\x8d", Why::Length, 5),
    (Kind::Volatile, b"CRBV\x02\0\0\x03\x0d", Why::Length, 5),
    (Kind::Saved, b"CRBZ\x01\0\0\x05\x05", Why::Length, 5),
    (Kind::Saved, b"CRBZ\x02\0\0\x02\x05", Why::Length, 5),
    (Kind::Permanent, b"CRBP\x02\0\0\0\x29", Why::Length, 5),
    (Kind::Volatile, b"CRBV\x02\0\0\x07\x8d\0", Why::Value, 9),
];

/// The first row that isn't refused so.
fn wrong_refusal_of_two(alloc: Global) -> Result<Option<usize>, AllocError> {
    for (row, (kind, bytes, why, place)) in REFUSALS_OF_TWO.iter().enumerate() {
        let mut gather = Gather::new(alloc, *kind)?;
        let fault = Malformed {
            why: *why,
            place: *place,
        };
        if !is_refused(&mut gather, bytes, fault) {
            return Ok(Some(row));
        }
    }
    Ok(None)
}

#[test]
fn lengths_by_the_version(rt: HostRuntime) -> Result<(), Fail> {
    assert_eq!(rt; wrong_refusal_of_two(rt.alloc())?, None);
    Ok(())
}

/// The blobs of both running TPMs.
#[derive(Clone, Copy)]
struct Both {
    one: StartedBlobs,
    two: BlobsOfTwo,
}

/// Which version of each blob there is, 0 for none, and whose version isn't that of the permanent one.
const VERSIONS: [(usize, usize, usize, Option<Kind>); 8] = [
    (2, 2, 2, None),
    (2, 0, 0, None),
    (1, 2, 2, Some(Kind::Volatile)),
    (2, 1, 1, Some(Kind::Volatile)),
    (1, 2, 0, Some(Kind::Volatile)),
    (1, 1, 2, Some(Kind::Saved)),
    (2, 2, 1, Some(Kind::Saved)),
    (1, 0, 2, Some(Kind::Saved)),
];

fn permanent_of(version: usize) -> &'static [u8] {
    if version == 2 {
        &PERMANENT_OF_TWO
    } else {
        &PERMANENT
    }
}

fn volatile_of(blobs: &Both, version: usize) -> &[u8] {
    match version {
        0 => &[],
        1 => &blobs.one.volatile,
        _ => &blobs.two.volatile,
    }
}

fn saved_of(blobs: &Both, version: usize) -> &[u8] {
    match version {
        0 => &[],
        1 => &blobs.one.saved,
        _ => &blobs.two.saved,
    }
}

/// The first row of the versions that has another fault.
fn wrong_version(alloc: Global, blobs: &Both) -> Result<Option<usize>, AllocError> {
    for (row, (p, v, z, other)) in VERSIONS.iter().enumerate() {
        let wanted = match other {
            Some(kind) => at(*kind, Why::Version, 4),
            None => None,
        };
        let volatile = volatile_of(blobs, *v);
        let saved = saved_of(blobs, *z);
        if !has_fault(alloc, permanent_of(*p), volatile, saved, wanted)? {
            return Ok(Some(row));
        }
    }
    Ok(None)
}

#[test]
fn versions_against_the_permanent_blob(rt: HostRuntime) -> Result<(), Fail> {
    let one = given_by_running(rt.alloc())?;
    let two = given_by_two(rt.alloc())?;
    let blobs = Both { one, two };
    assert_eq!(rt; wrong_version(rt.alloc(), &blobs)?, None);
    let cut = at(Kind::Saved, Why::Cut, 5);
    let begun = blobs.two.saved.get(..5).unwrap_or(&[]);
    assert!(rt; has_fault(rt.alloc(), &PERMANENT, &blobs.two.volatile, begun, cut)?);
    let stopped = at(Kind::Volatile, Why::Version, 4);
    assert!(rt; has_fault(rt.alloc(), &PERMANENT, &STOPPED_OF_TWO, &NO_STATE, stopped)?);
    assert!(rt; has_fault(rt.alloc(), &PERMANENT_OF_TWO, &STOPPED, &NO_STATE, stopped)?);
    Ok(())
}

/// The first of these places at which a saved state that differs isn't reported so.
fn wrong_disagreement_of_two(
    alloc: Global,
    blobs: &BlobsOfTwo,
) -> Result<Option<usize>, AllocError> {
    // The counter, the last byte of the bank of SHA-256, and the first and the last byte of that of SHA-384.
    for place in [13, 525, 526, 1293] {
        let mut saved = blobs.saved;
        saved[place] ^= 0x80;
        // A later byte that differs too isn't reported.
        saved[1293] |= 1;
        let wanted = at(Kind::Saved, Why::Value, place as u32);
        if !has_fault(alloc, &PERMANENT_OF_TWO, &blobs.volatile, &saved, wanted)? {
            return Ok(Some(place));
        }
    }
    Ok(None)
}

#[test]
fn saved_states_that_disagree_in_a_bank(rt: HostRuntime) -> Result<(), Fail> {
    let blobs = given_by_two(rt.alloc())?;
    assert_eq!(rt; wrong_disagreement_of_two(rt.alloc(), &blobs)?, None);
    Ok(())
}

/// What a gather had of a blob with two banks isn't in the TPM of one bank that is gathered next.
#[test]
fn nothing_of_a_blob_that_was_cleared(rt: HostRuntime) -> Result<(), Fail> {
    let one = given_by_running(rt.alloc())?;
    let two = given_by_two(rt.alloc())?;
    let mut permanent = Gather::new(rt.alloc(), Kind::Permanent)?;
    let mut volatile = Gather::new(rt.alloc(), Kind::Volatile)?;
    let saved = Gather::new(rt.alloc(), Kind::Saved)?;
    let was_whole = volatile.push(&two.volatile);
    volatile.clear();
    let is_whole = volatile.push(&one.volatile);
    let has_seed = permanent.push(&PERMANENT);
    assert!(rt; was_whole == Ok(true) && is_whole == Ok(true) && has_seed == Ok(true));
    assert!(rt; permanent.kind() == Kind::Permanent && volatile.kind() == Kind::Volatile);
    let made = is_of_one_bank(&permanent, &volatile, &saved);
    assert!(rt; made);
    Ok(())
}

fn is_of_one_bank(permanent: &Gather, volatile: &Gather, saved: &Gather) -> bool
    requires permanent { permanent.now.kind ≡ Permanent }
    requires volatile { volatile.now.kind ≡ Volatile }
    requires saved { saved.now.kind ≡ Saved }
{
    let Ok(tpm) = assemble(permanent, volatile, saved) else {
        return false;
    };
    let parts = tpm.parts();
    parts.banks == Banks::One && parts.pcr[0] == EXTENDED && parts.pcr384 == [[0; 48]; 24]
}
