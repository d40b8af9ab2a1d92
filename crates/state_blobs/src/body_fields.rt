//! The fields of a blob's body, which take the bytes that are read.

ghost use Rattle.std.specs.Prelude.{◌≡◌, ◌<◌, ◌≤◌, length, slice_index, slice_set};
ghost use Rattle.vt_base.specs.declared.types.Kind.TheVariants.{Permanent, Volatile, Saved};
ghost use Rattle.tpm_core.specs.declared.algorithm.Banks.TheVariants.{Two};
ghost use Rattle.state_blobs.specs.Partial.{counted_in, body_in, kept_in, AreValid};

use crate::counted::{
    counted_byte, set_register_byte, sha256_registers_are_valid, sha384_registers_are_valid,
};
use crate::format::{BOOTS_PLACE, COUNTER_SIZE, DRAWS_PLACE, KEPT_PLACE, RUNNING_PLACE};
use crate::numbers::{long_with, number_with};
use tpm_core::{
    Banks, KEPT_PCR_COUNT, PCR_COUNT, SEED_SIZE, SHA256_DIGEST_SIZE, SHA384_DIGEST_SIZE,
};
use vt_base::Kind;

/// The fields of a body. One that the kind of blob doesn't have, or that wasn't read yet, may have any value.
#[derive(Drop)]
pub struct Fields {
    pub seed: [u8; SEED_SIZE],
    pub boots: u64,
    /// Whether values follow it: those of a started TPM, or of a saved state.
    pub flag: u8,
    pub draws: u64,
    pub counter: u32,
    /// The registers of the bank of SHA-256; of a saved state the first of them.
    pub pcr: [[u8; SHA256_DIGEST_SIZE]; PCR_COUNT],
    /// The same of the bank of SHA-384.
    pub pcr384: [[u8; SHA384_DIGEST_SIZE]; PCR_COUNT],
}

/// Changes a byte of the body.
pub fn set_byte(fields: &mut Fields, kind: Kind, i: usize, byte: u8)
    requires valid { AreValid fields.old }
    requires there { i < length (body_in kind fields.old) }
    ensures body { body_in kind fields.new ≡ slice_set (body_in kind fields.old) i byte }
    ensures valid { AreValid fields.new }
{
    match kind {
        Kind::Permanent => set_permanent_byte(fields, i, byte),
        Kind::Volatile => set_volatile_byte(fields, i, byte),
        Kind::Saved => set_saved_byte(fields, i, byte),
    }
    fields_are_valid(fields);
}

/// A byte of the counter and the registers that a shutdown keeps.
pub fn kept_byte(banks: Banks, fields: &Fields, i: usize) -> u8
    requires { i < length (kept_in banks fields.now) }
    ensures { result ≡ slice_index (kept_in banks fields.now) i }
{
    let (kept, kept384) = (
        &fields.pcr[..KEPT_PCR_COUNT],
        &fields.pcr384[..KEPT_PCR_COUNT],
    );
    counted_byte(fields.counter, kept, kept384, i)
}

fn set_permanent_byte(fields: &mut Fields, i: usize, byte: u8)
    requires valid { AreValid fields.old }
    requires there { i < length (body_in Permanent fields.old) }
    ensures { body_in Permanent fields.new ≡ slice_set (body_in Permanent fields.old) i byte }
{
    if i < BOOTS_PLACE {
        fields.seed[i] = byte;
    } else {
        fields.boots = long_with(fields.boots, i - BOOTS_PLACE, byte);
    }
}

fn set_volatile_byte(fields: &mut Fields, i: usize, byte: u8)
    requires valid { AreValid fields.old }
    requires there { i < length (body_in Volatile fields.old) }
    ensures { body_in Volatile fields.new ≡ slice_set (body_in Volatile fields.old) i byte }
{
    if i < DRAWS_PLACE {
        fields.flag = byte;
    } else if i < RUNNING_PLACE {
        fields.draws = long_with(fields.draws, i - DRAWS_PLACE, byte);
    } else {
        set_counted_byte(fields, PCR_COUNT, i - RUNNING_PLACE, byte);
    }
}

fn set_saved_byte(fields: &mut Fields, i: usize, byte: u8)
    requires valid { AreValid fields.old }
    requires there { i < length (body_in Saved fields.old) }
    ensures { body_in Saved fields.new ≡ slice_set (body_in Saved fields.old) i byte }
{
    if i < KEPT_PLACE {
        fields.flag = byte;
    } else {
        set_counted_byte(fields, KEPT_PCR_COUNT, i - KEPT_PLACE, byte);
    }
}

/// Changes a byte of the counter and of so many registers of each bank.
fn set_counted_byte(fields: &mut Fields, count: usize, i: usize, byte: u8)
    requires valid { AreValid fields.old }
    requires count { count ≤ 24 }
    requires there { i < length (counted_in Two count fields.old) }
    ensures bytes { counted_in Two count fields.new ≡ slice_set (counted_in Two count fields.old) i byte }
    ensures flag { fields.new.flag ≡ fields.old.flag }
    ensures draws { fields.new.draws ≡ fields.old.draws }
{
    let first = COUNTER_SIZE + SHA256_DIGEST_SIZE * count;
    if i < COUNTER_SIZE {
        fields.counter = number_with(fields.counter, i, byte);
    } else if i < first {
        set_register_byte(&mut fields.pcr, i - COUNTER_SIZE, byte);
    } else {
        set_register_byte(&mut fields.pcr384, i - first, byte);
    }
}

/// What the types of the fields make sure of.
#[tactic(auto, using(crate::proofs::Places::fields_are_valid))]
pub fn fields_are_valid(fields: &Fields)
    ensures { AreValid fields.now }
{
    let _boots = fields.boots;
    let _draws = fields.draws;
    let _counter = fields.counter;
    seed_is_valid(&fields.seed);
    bank_is_counted(&fields.pcr);
    sha256_registers_are_valid(&fields.pcr);
    bank_is_counted(&fields.pcr384);
    sha384_registers_are_valid(&fields.pcr384);
}

fn seed_is_valid(seed: &[u8; SEED_SIZE])
    ensures { length seed.now ≡ 32 }
{}

fn bank_is_counted<const N: usize>(bank: &[[u8; N]; PCR_COUNT])
    ensures { length bank.now ≡ 24 }
{}
