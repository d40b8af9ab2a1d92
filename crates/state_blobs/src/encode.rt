//! A blob, byte by byte from the values of a TPM. So a piece needs no copy of the blob.

ghost use Rattle.std.specs.Prelude.{◌≡◌, ◌<◌, ◌≤◌, length, slice_index};
ghost use Rattle.tpm_core.specs.Steps.{IsValid};
ghost use Rattle.state_blobs.specs.Encodings.{body_of, permanent_body, volatile_body, saved_body, header_of, encode_blob};

use crate::blobs::{magic, saved_length, version_of, volatile_length};
use crate::counted::counted_byte;
use crate::format::{
    BOOTS_PLACE, DRAWS_PLACE, FLAG_ALONE, HEADER_SIZE, KEPT_PLACE, PERMANENT_LENGTH, RUNNING_PLACE,
};
use crate::numbers::long_byte;
use tpm_core::{Banks, TpmParts};
use vt_base::Kind;

/// How many bytes of body the blob of a kind has.
fn body_length(parts: &TpmParts, kind: Kind) -> u32
    requires { IsValid parts.now }
    ensures length { result ≡ length (body_of kind parts.now) }
    ensures within_limit { result ≤ 1933 }
{
    match kind {
        Kind::Permanent => PERMANENT_LENGTH,
        Kind::Volatile if parts.started => volatile_length(parts.banks),
        Kind::Saved if parts.saved.is_some() => saved_length(parts.banks),
        Kind::Volatile | Kind::Saved => FLAG_ALONE,
    }
}

/// How many bytes the blob of a kind has.
#[tactic(auto, unfolding(crate::specs::Encodings::encode_blob))]
pub fn encoded_length(parts: &TpmParts, kind: Kind) -> u32
    requires { IsValid parts.now }
    ensures length { result ≡ length (encode_blob kind parts.now) }
    ensures within_limit { result ≤ 1942 }
{
    HEADER_SIZE as u32 + body_length(parts, kind)
}

/// The byte at a place of the blob of a kind.
#[tactic(auto, unfolding(crate::specs::Encodings::encode_blob))]
pub fn byte_at(parts: &TpmParts, kind: Kind, i: usize) -> u8
    requires fit { IsValid parts.now }
    requires there { i < length (encode_blob kind parts.now) }
    ensures { result ≡ slice_index (encode_blob kind parts.now) i }
{
    if i < HEADER_SIZE {
        return header(kind, parts.banks, body_length(parts, kind))[i];
    }
    match kind {
        Kind::Permanent => permanent_byte(parts, i - HEADER_SIZE),
        Kind::Volatile => volatile_byte(parts, i - HEADER_SIZE),
        Kind::Saved => saved_byte(parts, i - HEADER_SIZE),
    }
}

fn header(kind: Kind, banks: Banks, count: u32) -> [u8; HEADER_SIZE]
    ensures { result ≡ header_of kind banks count }
{
    let [m0, m1, m2, m3] = magic(kind);
    let [n0, n1, n2, n3] = count.to_be_bytes();
    [m0, m1, m2, m3, version_of(banks), n0, n1, n2, n3]
}

fn permanent_byte(parts: &TpmParts, i: usize) -> u8
    requires { i < length (permanent_body parts.now) }
    ensures { result ≡ slice_index (permanent_body parts.now) i }
{
    if i < BOOTS_PLACE {
        parts.seed[i]
    } else {
        long_byte(parts.boots, i - BOOTS_PLACE)
    }
}

fn volatile_byte(parts: &TpmParts, i: usize) -> u8
    requires { i < length (volatile_body parts.now) }
    ensures { result ≡ slice_index (volatile_body parts.now) i }
{
    if !parts.started {
        0
    } else if i < DRAWS_PLACE {
        1
    } else if i < RUNNING_PLACE {
        long_byte(parts.draws, i - DRAWS_PLACE)
    } else {
        counted_byte(parts.counter, &parts.pcr, &parts.pcr384, i - RUNNING_PLACE)
    }
}

fn saved_byte(parts: &TpmParts, i: usize) -> u8
    requires { i < length (saved_body parts.now.banks parts.now.saved) }
    ensures { result ≡ slice_index (saved_body parts.now.banks parts.now.saved) i }
{
    match &parts.saved {
        None => 0,
        Some(_) if i < KEPT_PLACE => 1,
        Some(state) => counted_byte(state.counter, &state.pcr, &state.pcr384, i - KEPT_PLACE),
    }
}
