//! The values of a TPM.

use crate::algorithm::{Banks, SHA256_DIGEST_SIZE, SHA384_DIGEST_SIZE};
use std::fmt;

/// How many bytes a seed has.
pub const SEED_SIZE: usize = 32;

/// How many registers a bank has.
pub const PCR_COUNT: usize = 24;

/// How many registers of a bank a shutdown keeps, from the first on.
pub const KEPT_PCR_COUNT: usize = 16;

/// The first of the registers that only other localities than the guest's reset and extend.
pub const FIRST_DYNAMIC_PCR: usize = 17;

/// The last of them.
pub const LAST_DYNAMIC_PCR: usize = 22;

/// What a shutdown keeps for a start to bring back.
#[derive(Clone, Copy, Debug, PartialEq, Eq)]
pub struct SavedParts {
    /// How many digests registers were extended by, modulo 2^32.
    pub counter: u32,
    /// The first registers of the bank of SHA-256.
    pub pcr: [[u8; SHA256_DIGEST_SIZE]; KEPT_PCR_COUNT],
    /// The first registers of the bank of SHA-384: zeros where there is no such bank.
    pub pcr384: [[u8; SHA384_DIGEST_SIZE]; KEPT_PCR_COUNT],
}

/// The values of a TPM. Where it isn't started, the registers and the counter are zeros and `draws` is 0.
#[derive(Drop)]
pub struct TpmParts {
    /// What its random bytes are made from.
    pub seed: [u8; SEED_SIZE],
    /// Which banks it has.
    pub banks: Banks,
    /// How often power came on, modulo 2^64.
    pub boots: u64,
    /// How often random bytes were drawn since power came on, modulo 2^64.
    pub draws: u64,
    /// Whether it was started since power came on.
    pub started: bool,
    /// The bank of SHA-256.
    pub pcr: [[u8; SHA256_DIGEST_SIZE]; PCR_COUNT],
    /// The bank of SHA-384: zeros where there is no such bank.
    pub pcr384: [[u8; SHA384_DIGEST_SIZE]; PCR_COUNT],
    /// How many digests registers were extended by, modulo 2^32.
    pub counter: u32,
    /// What the latest shutdown kept, where nothing has made it stale.
    pub saved: Option<SavedParts>,
}

// The seed is a secret and isn't shown.
impl fmt::Debug for TpmParts {
    fn fmt<W: fmt::Write>(&self, f: &mut fmt::Formatter<W>) -> fmt::Result {
        let (boots, draws, started, counter) = (self.boots, self.draws, self.started, self.counter);
        let saved = self.saved.is_some();
        write!(
            f,
            "TpmParts {{ boots: {boots}, draws: {draws}, started: {started}, counter: {counter}, saved: {saved}, .. }}"
        )
    }
}
