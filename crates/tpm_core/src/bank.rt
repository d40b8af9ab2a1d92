//! A bank: the values of 24 registers, each as long as a digest.

ghost use Rattle.std.specs.Prelude.{◌≡◌, ◌<◌, take, ◌∷◌, []};
ghost use Rattle.tpm_core.specs.Algorithms.{digest_size, digests_by};
ghost use Rattle.tpm_core.specs.Banks.{is_dynamic, each_register, start_value, restored_value, hashed};
ghost use Rattle.tpm_core.specs.Steps.{bank_after_extend};

use crate::algorithm::{Algorithm, Banks, Measurement, digest_of};
use crate::parts::{FIRST_DYNAMIC_PCR, KEPT_PCR_COUNT, LAST_DYNAMIC_PCR, PCR_COUNT};

/// Whether a register is one of those that only other localities than the guest's reset and extend.
pub fn is_dynamic(register: usize) -> bool
    ensures { result ≡ is_dynamic register }
{
    (FIRST_DYNAMIC_PCR..=LAST_DYNAMIC_PCR).contains(&register)
}

fn start_value<const N: usize>(i: usize) -> [u8; N]
    ensures { result ≡ start_value N i }
{
    if is_dynamic(i) { [0xFF; N] } else { [0; N] }
}

/// The bank after a start that clears.
pub fn cleared<const N: usize>() -> [[u8; N]; PCR_COUNT]
    ensures { result ≡ each_register (start_value N) }
{
    let mut bank = [[0; N]; PCR_COUNT];
    for i in 0..PCR_COUNT {
        bank[i] = start_value::<N>(i);
    }
    bank
}

fn restored_value<const N: usize>(kept: &[[u8; N]; KEPT_PCR_COUNT], i: usize) -> [u8; N]
    ensures { result ≡ restored_value N kept.now i }
{
    if i < KEPT_PCR_COUNT {
        kept[i]
    } else {
        start_value::<N>(i)
    }
}

/// The bank after a start that brings the kept values back.
pub fn restored<const N: usize>(kept: &[[u8; N]; KEPT_PCR_COUNT]) -> [[u8; N]; PCR_COUNT]
    ensures { result ≡ each_register (restored_value N kept.now) }
{
    let mut bank = [[0; N]; PCR_COUNT];
    for i in 0..PCR_COUNT {
        bank[i] = restored_value(kept, i);
    }
    bank
}

/// The values of a bank that a shutdown keeps.
pub fn kept_values<const N: usize>(bank: &[[u8; N]; PCR_COUNT]) -> [[u8; N]; KEPT_PCR_COUNT]
    ensures { result ≡ take 16 bank.now }
{
    let mut values = [[0; N]; KEPT_PCR_COUNT];
    for i in 0..KEPT_PCR_COUNT {
        values[i] = bank[i];
    }
    values
}

/// A register's value after those of these digests that are of the algorithm.
#[tactic(auto, unfolding(crate::specs::Algorithms::digests_by))]
fn hashed<const N: usize>(
    algorithm: Algorithm,
    old: &[u8; N],
    measurements: &[Measurement],
) -> [u8; N]
    requires { N ≡ digest_size algorithm }
    ensures { result ≡ hashed algorithm old.now (digests_by algorithm measurements.now) }
{
    let mut value = *old;
    for measurement in measurements {
        value = next_value(algorithm, &value, measurement);
    }
    value
}

#[tactic(auto, unfolding(crate::specs::Algorithms::digests_by))]
fn next_value<const N: usize>(
    algorithm: Algorithm,
    old: &[u8; N],
    measurement: &Measurement,
) -> [u8; N]
    requires { N ≡ digest_size algorithm }
    ensures { result ≡ hashed algorithm old.now (digests_by algorithm (measurement.now ∷ [])) }
{
    if measurement.is_by(algorithm) {
        digest_of(algorithm, old, measurement.digest())
    } else {
        *old
    }
}

/// Extends a register of a bank by those of these digests that are of its algorithm, if the TPM has the bank.
pub fn extend_bank<const N: usize>(
    banks: Banks,
    algorithm: Algorithm,
    bank: &mut [[u8; N]; PCR_COUNT],
    register: usize,
    measurements: &[Measurement],
)
    requires size { N ≡ digest_size algorithm }
    requires register { register < 24 }
    ensures { bank.new ≡ bank_after_extend banks algorithm bank.old register measurements.now }
{
    if algorithm.is_in(banks) {
        bank[register] = hashed(algorithm, &bank[register], measurements);
    }
}
