//! The values that whole blobs have.

ghost use Rattle.std.specs.Prelude.{◌≡◌, ◌⊎◌, ◌==◌, slice_index};
ghost use Rattle.tpm_core.specs.declared.algorithm.Algorithm.TheVariants.{Sha384};
ghost use Rattle.tpm_core.specs.declared.algorithm.Banks.{Banks};
ghost use Rattle.tpm_core.specs.declared.parts.TpmParts.{TpmParts};
ghost use Rattle.tpm_core.specs.Steps.{IsValid};
ghost use Rattle.state_blobs.specs.Encodings.{encode_blob, IsBlob};
ghost use Rattle.state_blobs.specs.Reading.{running_in};
ghost use Rattle.state_blobs.specs.Assembly.{EncodesVolatile, EncodesSaved, IsNoneOrBlob};
ghost use Rattle.vt_base.specs.declared.types.Kind.TheVariants.{Permanent, Volatile, Saved};

use crate::counted::{kept_registers, registers_if_two};
use crate::format::FLAG_PLACE;
use crate::gather::Gather;
use tpm_core::{
    Banks, KEPT_PCR_COUNT, PCR_COUNT, SEED_SIZE, SHA256_DIGEST_SIZE, SHA384_DIGEST_SIZE, SavedParts,
};

/// What a started TPM has, and loses with its power.
#[derive(Drop)]
pub struct Running {
    pub draws: u64,
    pub counter: u32,
    pub pcr: [[u8; SHA256_DIGEST_SIZE]; PCR_COUNT],
    pub pcr384: [[u8; SHA384_DIGEST_SIZE]; PCR_COUNT],
}

/// The seed, the banks and the count of boots of a permanent blob.
pub fn permanent_of(gather: &Gather) -> ([u8; SEED_SIZE], Banks, u64)
    requires kind { gather.now.kind ≡ Permanent }
    requires blob { IsBlob Permanent gather.now.begun }
    ensures seed { (v : TpmParts) → IsValid v → gather.now.begun ≡ encode_blob Permanent v → result.0 ≡ v.seed }
    ensures banks { (v : TpmParts) → IsValid v → gather.now.begun ≡ encode_blob Permanent v → result.1 ≡ v.banks }
    ensures boots { (v : TpmParts) → IsValid v → gather.now.begun ≡ encode_blob Permanent v → result.2 ≡ v.boots }
{
    let fields = gather.fields();
    (fields.seed, gather.banks(), fields.boots)
}

/// What a volatile blob says of a started TPM, where it is of one.
pub fn running_of(gather: &Gather) -> Option<Running>
    requires kind { gather.now.kind ≡ Volatile }
    requires blob { IsNoneOrBlob Volatile gather.now.begun }
    ensures { (v : TpmParts) → IsValid v → EncodesVolatile gather.now.begun v → result ≡ running_in v }
{
    if !has_values(gather) {
        return None;
    }
    let banks = gather.banks();
    let fields = gather.fields();
    Some(Running {
        draws: fields.draws,
        counter: fields.counter,
        pcr: fields.pcr,
        pcr384: registers_if_two(banks, &fields.pcr384),
    })
}

/// The saved state of its blob, where there is one.
pub fn saved_of(gather: &Gather) -> Option<SavedParts>
    requires kind { gather.now.kind ≡ Saved }
    requires blob { IsNoneOrBlob Saved gather.now.begun }
    ensures { (v : TpmParts) → IsValid v → EncodesSaved gather.now.begun v → result ≡ v.saved }
{
    if !has_values(gather) {
        return None;
    }
    let banks = gather.banks();
    let fields = gather.fields();
    Some(SavedParts {
        counter: fields.counter,
        pcr: kept_registers(&fields.pcr),
        pcr384: registers_if_two(banks, &kept_registers(&fields.pcr384)),
    })
}

/// Whether values stand behind the flag of a blob that is there.
pub fn has_values(gather: &Gather) -> bool
    requires { (gather.now.kind ≡ Volatile) ⊎ (gather.now.kind ≡ Saved) }
    ensures { result ≡ (slice_index gather.now.begun 9 == 1) }
{
    gather.len() > FLAG_PLACE && gather.fields().flag == 1
}
