//! The blobs of a TPM over wires in memory.
ghost use Rattle.std.specs.Prelude.{◌≡◌, ◌≤◌, ℕ, None, take, drop, length};
ghost use Rattle.tpm_core.specs.declared.parts.TpmParts.{TpmParts};
ghost use Rattle.tpm_core.specs.Steps.{IsValid};
ghost use Rattle.state_blobs.specs.Encodings.{encode_blob};
ghost use Rattle.ctrl_model.specs.Emulator.{switched_on};
ghost use Rattle.vt_seat.specs.Wires.{fresh_wires};
ghost use Rattle.vt_seat.specs.Blobs.{HasRest, IsReadable, IsAwaiting, given_blob};

use crate::wires::MemWires;
use ctrl_client::{get_piece, init, put_piece};
use state_blobs::{LARGEST_BLOB, piece};
use tpm_core::Tpm;
use vt_base::Kind;

/// Asks for what a blob has from a place on, piece by piece, and puts it to the start of `into`. Gives how many bytes
/// that is.
pub(crate) fn fetch(wires: &mut MemWires, kind: Kind, from: u32, into: &mut [u8]) -> usize
    requires has_rest { (t : TpmParts) × IsReadable wires.old t × HasRest kind t from (length into.old) }
    ensures bytes { (t : TpmParts) → IsReadable wires.old t → HasRest kind t from (length into.old)
        → take result into.new ≡ drop from (encode_blob kind t) }
    ensures within { result ≤ length into.new }
    ensures room { length into.new ≡ length into.old }
    ensures link { wires.new.link ≡ wires.old.link }
    ensures calls_to_fault { wires.new.calls_to_fault ≡ None }
    ensures faults { wires.new.faults ≡ wires.old.faults }
{
    state_blobs::laws::blobs_are_prefix_free();
    let Ok(got) = get_piece(wires, kind, from, into) else {
        unreachable!()
    };
    let count = got.length as usize;
    if count == (got.total - from) as usize {
        return count;
    }
    let (_, rest) = into.split_at_mut(count);
    count + fetch(wires, kind, from + got.length, rest)
}

/// Gives the blobs of a TPM to an emulator that is off and has none, and switches it on: it has this TPM then.
pub(crate) fn switch_on(wires: &mut MemWires, tpm: &Tpm)
    requires fit { IsValid tpm.now }
    requires fresh { (piece : ℕ) × (wires.old ≡ fresh_wires None piece) }
    ensures link { (piece : ℕ) → wires.old ≡ fresh_wires None piece → wires.new.link ≡ record wires.old.link { emulator = switched_on tpm.now wires.old.link.emulator } }
    ensures calls_to_fault { wires.new.calls_to_fault ≡ None }
    ensures faults { wires.new.faults ≡ wires.old.faults }
{
    put_blob(wires, tpm, Kind::Permanent);
    put_blob(wires, tpm, Kind::Volatile);
    put_blob(wires, tpm, Kind::Saved);
    state_blobs::laws::tpms_are_assembled_once();
    let Ok(()) = init(wires, 0) else {
        unreachable!()
    };
}

// Gives the blob of a kind to an emulator that is off and has no byte of it.
fn put_blob(wires: &mut MemWires, tpm: &Tpm, kind: Kind)
    requires fit { IsValid tpm.now }
    requires awaiting { IsAwaiting kind wires.old }
    ensures link { wires.new.link ≡ given_blob kind tpm.now wires.old.link }
    ensures calls_to_fault { wires.new.calls_to_fault ≡ None }
    ensures faults { wires.new.faults ≡ wires.old.faults }
{
    state_blobs::laws::blobs_are_prefix_free();
    let mut blob = [0; LARGEST_BLOB];
    let Some(got) = piece(tpm, kind, 0, &mut blob) else {
        unreachable!()
    };
    let Ok(()) = put_piece(wires, kind, &blob[..got.length as usize]) else {
        unreachable!()
    };
}
