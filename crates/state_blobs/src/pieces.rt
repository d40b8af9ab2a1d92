//! Pieces of a TPM's blobs.

ghost use Rattle.std.specs.Prelude.{◌≡◌, ◌≤◌, ◌<◌, ◌+◌, ◌-◌, ◌++◌, ◌↔◌, length, drop, min, IfSome, IsNone, IfNone};
ghost use Rattle.state_blobs.specs.Encodings.{encode_blob, slice, IsBlob};
ghost use Rattle.tpm_core.specs.Steps.{IsValid};

use crate::encode::{byte_at, encoded_length};
use crate::types::Piece;
use tpm_core::{Tpm, TpmParts};
use vt_base::Kind;

/// Writes the part of a TPM's blob that begins at `offset` to the start of `into`, as much as there is and has room.
/// Where the offset is greater than the number of the blob's bytes there is none, and `into` stays as it was.
pub fn piece(tpm: &Tpm, kind: Kind, offset: u32, into: &mut [u8]) -> Option<Piece>
    ensures none { IsNone result ↔ (length (encode_blob kind tpm.now) < offset) }
    ensures kept { IfNone result (into.new ≡ into.old) }
    ensures total { IfSome result (λ p. p.total ≡ length (encode_blob kind tpm.now)) }
    ensures length { IfSome result (λ p. p.length ≡ min (length into.old) (length (encode_blob kind tpm.now) - offset)) }
    ensures bytes { IfSome result (λ p. into.new ≡ slice (encode_blob kind tpm.now) offset p.length ++ drop p.length into.old) }
    ensures blob { IsBlob kind (encode_blob kind tpm.now) }
{
    let parts = tpm.parts();
    let total = encoded_length(parts, kind);
    if offset > total {
        return None;
    }
    let length = into.len().min((total - offset) as usize);
    write_part(parts, kind, offset as usize, &mut into[..length]);
    Some(Piece {
        total,
        length: length as u32,
    })
}

fn write_part(parts: &TpmParts, kind: Kind, offset: usize, into: &mut [u8])
    requires fit { IsValid parts.now }
    requires there { offset + length into.old ≤ length (encode_blob kind parts.now) }
    requires within_limit { offset + length into.old ≤ 1942 }
    ensures { into.new ≡ slice (encode_blob kind parts.now) offset (length into.old) }
{
    for i in 0..into.len() {
        into[i] = byte_at(parts, kind, offset + i);
    }
}
