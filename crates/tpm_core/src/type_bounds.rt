//! What the types of the values make sure of.

ghost use Rattle.std.specs.Prelude.{◌≡◌, length, IfSome};
ghost use Rattle.tpm_core.specs.declared.algorithm.Algorithm.TheVariants.{Sha256, Sha384};
ghost use Rattle.tpm_core.specs.Steps.{HaveWidth, IsKept, IsConsistent, IsValid};

use crate::algorithm::{SHA256_DIGEST_SIZE, SHA384_DIGEST_SIZE};
use crate::parts::{KEPT_PCR_COUNT, PCR_COUNT, SEED_SIZE, SavedParts, TpmParts};

/// Values that agree with one another are fit.
#[tactic(auto, using(crate::proofs::Bounds::parts_are_valid))]
pub fn parts_are_valid(parts: &TpmParts)
    requires { IsConsistent parts.now }
    ensures { IsValid parts.now }
{
    let _boots = parts.boots;
    let _draws = parts.draws;
    let _counter = parts.counter;
    seed_is_valid(&parts.seed);
    bank_is_counted(&parts.pcr);
    sha256_values_are_valid(&parts.pcr);
    bank_is_counted(&parts.pcr384);
    sha384_values_are_valid(&parts.pcr384);
    saved_is_valid(&parts.saved);
}

fn seed_is_valid(seed: &[u8; SEED_SIZE])
    ensures { length seed.now ≡ 32 }
{}

fn saved_is_valid(saved: &Option<SavedParts>)
    ensures { IfSome saved.now IsKept }
{
    if let Some(state) = saved {
        state_is_valid(state);
    }
}

#[tactic(auto, using(crate::proofs::Bounds::state_is_kept))]
fn state_is_valid(state: &SavedParts)
    ensures { IsKept state.now }
{
    let _counter = state.counter;
    kept_values_are_counted(&state.pcr);
    sha256_values_are_valid(&state.pcr);
    kept_values_are_counted(&state.pcr384);
    sha384_values_are_valid(&state.pcr384);
}

fn bank_is_counted<const N: usize>(bank: &[[u8; N]; PCR_COUNT])
    ensures { length bank.now ≡ 24 }
{}

fn kept_values_are_counted<const N: usize>(values: &[[u8; N]; KEPT_PCR_COUNT])
    ensures { length values.now ≡ 16 }
{}

// The width of values is known of their type where it is a number.

fn sha256_values_are_valid(values: &[[u8; SHA256_DIGEST_SIZE]])
    ensures { HaveWidth Sha256 (length values.now) values.now }
{}

fn sha384_values_are_valid(values: &[[u8; SHA384_DIGEST_SIZE]])
    ensures { HaveWidth Sha384 (length values.now) values.now }
{}
