//! The TPM alone: so many extends of one register, or the hashes in them without the TPM.

use sha2::{Digest, Sha256};
use std::alloc::{AllocError, Global};
use tpm_core::{Banks, Tpm};
use vt_base::Buf;

/// TPM2_Startup(CLEAR).
const STARTUP: [u8; 12] = [0x80, 0x01, 0, 0, 0, 12, 0, 0, 0x01, 0x44, 0, 0];

/// TPM2_PCR_Extend of register 0 by one SHA-256 digest of zeros, under an empty password.
const EXTEND: [u8; 33] = [
    0x80, 0x02, 0, 0, 0, 65, 0, 0, 0x01, 0x82, 0, 0, 0, 0, 0, 0, 0, 9, 0x40, 0, 0, 9, 0, 0, 1, 0,
    0, 0, 0, 0, 1, 0, 0x0B,
];

const DIGEST: [u8; 32] = [0; 32];

/// Register 0 after so many extends of a new TPM that was started.
pub(crate) fn extended(alloc: Global, count: u32) -> Result<[u8; 32], AllocError> {
    let mut tpm = Tpm::manufacture([0; 32], Banks::One);
    tpm.power_on();
    let mut response = Buf::new(alloc)?;
    Ok(extends(&mut tpm, &mut response, count))
}

fn extends(tpm: &mut Tpm, response: &mut Buf, count: u32) -> [u8; 32] {
    let mut command = [0; 65];
    let (head, digest) = command.split_at_mut(33);
    head.copy_from_slice(&EXTEND);
    digest.copy_from_slice(&DIGEST);
    tpm.execute(&STARTUP, response);
    for _ in 0..count {
        tpm.execute(&command, response);
    }
    tpm.parts().pcr[0]
}

/// The same value, hashed without a TPM.
pub(crate) fn hashed(count: u32) -> [u8; 32] {
    let mut value = [0; 32];
    for _ in 0..count {
        let mut hasher = Sha256::new();
        hasher.update(&value[..]);
        hasher.update(&DIGEST[..]);
        value = hasher.finalize();
    }
    value
}
