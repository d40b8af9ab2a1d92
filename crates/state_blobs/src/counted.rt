//! A counter with the registers of all banks behind it, byte by byte: the part of a body that each bank makes longer.

ghost use Rattle.std.specs.Prelude.{◌≡◌, ◌<◌, ◌≤◌, ◌++◌, length, take, slice_index, slice_set};
ghost use Rattle.std.specs.List.{concat};
ghost use Rattle.tpm_core.specs.declared.algorithm.Algorithm.TheVariants.{Sha384};
ghost use Rattle.state_blobs.specs.Running.{AreRegisters, all_counted, registers_if_there};

use crate::format::COUNTER_SIZE;
use tpm_core::{Banks, KEPT_PCR_COUNT, PCR_COUNT, SHA256_DIGEST_SIZE, SHA384_DIGEST_SIZE};

/// A byte of a counter and its registers.
pub fn counted_byte(
    counter: u32,
    pcr: &[[u8; SHA256_DIGEST_SIZE]],
    pcr384: &[[u8; SHA384_DIGEST_SIZE]],
    i: usize,
) -> u8
    requires count { length pcr.now ≤ 24 }
    requires there { i < length (all_counted counter pcr.now pcr384.now) }
    ensures { result ≡ slice_index (all_counted counter pcr.now pcr384.now) i }
{
    if i < COUNTER_SIZE {
        return counter.to_be_bytes()[i];
    }
    bank_byte(pcr, pcr384, i - COUNTER_SIZE)
}

/// A byte of the registers of both banks.
fn bank_byte(pcr: &[[u8; SHA256_DIGEST_SIZE]], pcr384: &[[u8; SHA384_DIGEST_SIZE]], k: usize) -> u8
    requires count { length pcr.now ≤ 24 }
    requires there { k < length (concat pcr.now ++ concat pcr384.now) }
    ensures { result ≡ slice_index (concat pcr.now ++ concat pcr384.now) k }
{
    sha256_registers_are_valid(pcr);
    let first = SHA256_DIGEST_SIZE * pcr.len();
    if k < first {
        register_byte(pcr, k)
    } else {
        register_byte(pcr384, k - first)
    }
}

/// A byte of registers of one size, one after the other.
fn register_byte<const N: usize>(registers: &[[u8; N]], k: usize) -> u8
    requires size { AreRegisters N registers.now }
    requires there { k < length (concat registers.now) }
    ensures { result ≡ slice_index (concat registers.now) k }
{
    registers[k / N][k % N]
}

/// Changes a byte of registers of one size.
pub fn set_register_byte<const N: usize>(registers: &mut [[u8; N]], k: usize, byte: u8)
    requires size { AreRegisters N registers.old }
    requires there { k < length (concat registers.old) }
    ensures bytes { concat registers.new ≡ slice_set (concat registers.old) k byte }
    ensures count { length registers.new ≡ length registers.old }
    ensures size { AreRegisters N registers.new }
{
    registers[k / N][k % N] = byte;
}

/// The registers of a bank that a shutdown keeps.
pub fn kept_registers<const N: usize>(bank: &[[u8; N]; PCR_COUNT]) -> [[u8; N]; KEPT_PCR_COUNT]
    ensures { result ≡ take 16 bank.now }
{
    let mut kept = [[0; N]; KEPT_PCR_COUNT];
    kept.copy_from_slice(&bank[..KEPT_PCR_COUNT]);
    kept
}

/// Registers of the bank that only a TPM with two banks has: zeros where there is one bank.
pub fn registers_if_two<const M: usize>(
    banks: Banks,
    registers: &[[u8; SHA384_DIGEST_SIZE]; M],
) -> [[u8; SHA384_DIGEST_SIZE]; M]
    ensures { result ≡ registers_if_there banks Sha384 M registers.now }
{
    match banks {
        Banks::One => [[0; SHA384_DIGEST_SIZE]; M],
        Banks::Two => *registers,
    }
}

/// Registers of the bank of SHA-256 have 32 bytes each: their type says so, where its width is a number.
pub fn sha256_registers_are_valid(registers: &[[u8; SHA256_DIGEST_SIZE]])
    ensures { AreRegisters 32 registers.now }
{}

/// Those of the bank of SHA-384 have 48.
pub fn sha384_registers_are_valid(registers: &[[u8; SHA384_DIGEST_SIZE]])
    ensures { AreRegisters 48 registers.now }
{}
