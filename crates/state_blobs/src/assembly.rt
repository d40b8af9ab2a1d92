//! A TPM from three gathers.

ghost use Rattle.std.specs.Prelude.{◌≡◌, ◌<◌, ◌==◌, true, slice_index, IfOk, IfErr, OnOk, OnErr, IfSome, IfNone};
ghost use Rattle.tpm_core.specs.declared.parts.TpmParts.{TpmParts};
ghost use Rattle.tpm_core.specs.Answers.{kept};
ghost use Rattle.tpm_core.specs.Steps.{IsValid};
ghost use Rattle.state_blobs.specs.Numbers.{version_of};
ghost use Rattle.state_blobs.specs.Encodings.{IsBlob};
ghost use Rattle.state_blobs.specs.Partial.{kept_in, AreValid};
ghost use Rattle.state_blobs.specs.Refusals.{FirstDiffersAt};
ghost use Rattle.state_blobs.specs.Assembly.{EncodesVolatile, EncodesSaved, IsNoneOrBlob, IsUnfinished, IsOfVersion, IsOfOtherVersion, IsNoneOrOfVersion, version_in, version_fault, cut_at, IsAssembled, Disagrees, IsFault};
ghost use Rattle.state_blobs.specs.Reading.{parts_with};
ghost use Rattle.vt_base.specs.declared.types.Kind.TheVariants.{Permanent, Volatile, Saved};

use crate::blobs::saved_length;
use crate::body_fields::{Fields, kept_byte};
use crate::format::{HEADER_SIZE, KEPT_PLACE, VERSION_PLACE};
use crate::gather::Gather;
use crate::read::{Running, has_values, permanent_of, running_of, saved_of};
use crate::types::BlobFault;
use tpm_core::{
    Banks, PCR_COUNT, SEED_SIZE, SHA256_DIGEST_SIZE, SHA384_DIGEST_SIZE, SavedParts, Tpm, TpmParts,
};
use vt_base::{Kind, Malformed, Why};

/// The TPM whose blobs were gathered, or the first of these faults:
///
/// - the permanent blob isn't complete;
/// - the volatile blob is begun and not complete, or the saved one is;
/// - the volatile blob has another version than the permanent one, or the saved one has;
/// - the TPM is started, and its registers aren't those of the saved state.
///
/// With an empty `v` the TPM isn't started, with an empty `z` it has no saved state.
pub fn assemble(p: &Gather, v: &Gather, z: &Gather) -> Result<Tpm, BlobFault>
    requires permanent { p.now.kind ≡ Permanent }
    requires volatile { v.now.kind ≡ Volatile }
    requires saved { z.now.kind ≡ Saved }
    ensures ok { IfOk result (λ tpm. IsAssembled p.now.begun v.now.begun z.now.begun tpm) }
    ensures fault { IfErr result (λ fault. IsFault p.now.begun v.now.begun z.now.begun fault) }
{
    p.check_whole()?;
    check_none_or_whole(v)?;
    check_none_or_whole(z)?;
    check_version(p, v)?;
    check_version(p, z)?;
    joined(p, v, z)
}

/// Refuses a blob that is begun and isn't whole.
fn check_none_or_whole(gather: &Gather) -> Result<(), BlobFault>
    ensures blob { OnOk result (IsNoneOrBlob gather.now.kind gather.now.begun) }
    ensures fault { IfErr result (λ fault. fault ≡ cut_at gather.now.kind gather.now.begun) }
    ensures cut { OnErr result (IsUnfinished gather.now.kind gather.now.begun) }
{
    if gather.is_empty() {
        return Ok(());
    }
    gather.check_whole()
}

/// Refuses a blob that is begun and has another version than the permanent one: it is of a TPM with other banks.
fn check_version(permanent: &Gather, gather: &Gather) -> Result<(), BlobFault>
    requires permanent { IsBlob permanent.now.kind permanent.now.begun }
    requires blob { IsNoneOrBlob gather.now.kind gather.now.begun }
    ensures same { OnOk result (IsNoneOrOfVersion gather.now.kind (version_in permanent.now.begun) gather.now.begun) }
    ensures fault { IfErr result (λ fault. fault ≡ version_fault gather.now.kind) }
    ensures other { OnErr result (IsOfOtherVersion gather.now.kind (version_in permanent.now.begun) gather.now.begun) }
{
    if gather.is_empty() {
        return Ok(());
    }
    if gather.version() == permanent.version() {
        return Ok(());
    }
    Err(BlobFault {
        kind: gather.kind(),
        fault: Malformed {
            why: Why::Version,
            place: VERSION_PLACE as u32,
        },
    })
}

fn joined(p: &Gather, v: &Gather, z: &Gather) -> Result<Tpm, BlobFault>
    requires kinds { (p.now.kind ≡ Permanent) × (v.now.kind ≡ Volatile) × (z.now.kind ≡ Saved) }
    requires permanent { IsBlob Permanent p.now.begun }
    requires volatile { IsNoneOrOfVersion Volatile (version_in p.now.begun) v.now.begun }
    requires saved { IsNoneOrOfVersion Saved (version_in p.now.begun) z.now.begun }
    ensures ok { IfOk result (λ tpm. IsAssembled p.now.begun v.now.begun z.now.begun tpm) }
    ensures fault { IfErr result (λ fault. IsFault p.now.begun v.now.begun z.now.begun fault) }
{
    if let Some(place) = disagreement(p.banks(), v, z) {
        return Err(BlobFault {
            kind: Kind::Saved,
            fault: Malformed {
                why: Why::Value,
                place,
            },
        });
    }
    let (seed, banks, boots) = permanent_of(p);
    let parts = parts_with(seed, banks, boots, running_of(v), saved_of(z));
    Ok(Tpm::of_parts(parts))
}

#[tactic(auto, unfolding(tpm_core::specs::Banks::blank_bank))]
fn parts_with(
    seed: [u8; SEED_SIZE],
    banks: Banks,
    boots: u64,
    running: Option<Running>,
    saved: Option<SavedParts>,
) -> TpmParts
    ensures { result ≡ parts_with seed banks boots running saved }
{
    match running {
        None => TpmParts {
            seed,
            banks,
            boots,
            draws: 0,
            started: false,
            pcr: [[0; SHA256_DIGEST_SIZE]; PCR_COUNT],
            pcr384: [[0; SHA384_DIGEST_SIZE]; PCR_COUNT],
            counter: 0,
            saved,
        },
        Some(running) => {
            let (pcr, pcr384) = (running.pcr, running.pcr384);
            TpmParts {
                seed,
                banks,
                boots,
                draws: running.draws,
                started: true,
                pcr,
                pcr384,
                counter: running.counter,
                saved,
            }
        }
    }
}

/// If the TPM is started and there is a saved state: the first byte in which the saved blob differs from that of the TPM's
/// counter and registers.
fn disagreement(banks: Banks, volatile: &Gather, saved: &Gather) -> Option<u32>
    requires kinds { (volatile.now.kind ≡ Volatile) × (saved.now.kind ≡ Saved) }
    requires volatile { IsNoneOrOfVersion Volatile (version_of banks) volatile.now.begun }
    requires saved { IsNoneOrOfVersion Saved (version_of banks) saved.now.begun }
    ensures place { IfSome result (λ place. Disagrees place volatile.now.begun saved.now.begun) }
    ensures there { IfSome result (λ place. IsOfVersion Volatile (version_of banks) volatile.now.begun × IsOfVersion Saved (version_of banks) saved.now.begun) }
    ensures agrees { IfNone result ((v z : TpmParts) → IsValid v → EncodesVolatile volatile.now.begun v → IsValid z → EncodesSaved saved.now.begun z
        → v.started ≡ true → IfSome z.saved (λ state. state ≡ kept v)) }
{
    if !has_values(volatile) || !has_values(saved) {
        return None;
    }
    differing(banks, volatile, saved)
}

/// The same where there are both.
fn differing(banks: Banks, volatile: &Gather, saved: &Gather) -> Option<u32>
    requires kinds { (volatile.now.kind ≡ Volatile) × (saved.now.kind ≡ Saved) }
    requires volatile { IsOfVersion Volatile (version_of banks) volatile.now.begun }
    requires saved { IsOfVersion Saved (version_of banks) saved.now.begun }
    requires started { (slice_index volatile.now.begun 9 == 1) ≡ true }
    requires there { (slice_index saved.now.begun 9 == 1) ≡ true }
    ensures place { IfSome result (λ place. Disagrees place volatile.now.begun saved.now.begun) }
    ensures agrees { IfNone result ((v z : TpmParts) → IsValid v → EncodesVolatile volatile.now.begun v → IsValid z → EncodesSaved saved.now.begun z
        → v.started ≡ true → IfSome z.saved (λ state. state ≡ kept v)) }
{
    let i = first_difference(banks, saved.fields(), volatile.fields())?;
    Some((HEADER_SIZE + KEPT_PLACE + i) as u32)
}

/// The first byte in which a saved state differs from the counter and the first registers of a started TPM.
fn first_difference(banks: Banks, saved: &Fields, running: &Fields) -> Option<usize>
    requires saved { AreValid saved.now }
    requires running { AreValid running.now }
    ensures place { IfSome result (λ i. FirstDiffersAt i (kept_in banks saved.now) (kept_in banks running.now)) }
    ensures below { IfSome result (λ i. i < 1284) }
    ensures same { IfNone result (kept_in banks saved.now ≡ kept_in banks running.now) }
{
    for i in 0..saved_length(banks) as usize - KEPT_PLACE {
        if kept_byte(banks, saved, i) != kept_byte(banks, running, i) {
            return Some(i);
        }
    }
    None
}
