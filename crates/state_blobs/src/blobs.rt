//! What each kind of blob has in its header, and as its flag. One more bank is a row more in each `match` on the banks.

ghost use Rattle.std.specs.Prelude.{◌≡◌};
ghost use Rattle.state_blobs.specs.Numbers.{version_of, banks_named, volatile_length, saved_length};
ghost use Rattle.state_blobs.specs.Encodings.{magic_of, is_length, flag_for, flag_fits};

use crate::format::{
    FLAG_ALONE, ONE_BANK_VERSION, PERMANENT_LENGTH, SAVED_LENGTH, TWO_BANKS_SAVED_LENGTH,
    TWO_BANKS_VERSION, TWO_BANKS_VOLATILE_LENGTH, VOLATILE_LENGTH,
};
use tpm_core::Banks;
use vt_base::Kind;

/// The magic of a kind.
pub fn magic(kind: Kind) -> [u8; 4]
    ensures { result ≡ magic_of kind }
{
    match kind {
        Kind::Permanent => *b"CRBP",
        Kind::Volatile => *b"CRBV",
        Kind::Saved => *b"CRBZ",
    }
}

/// The version of the blobs of a TPM with these banks.
pub fn version_of(banks: Banks) -> u8
    ensures { result ≡ version_of banks }
{
    match banks {
        Banks::One => ONE_BANK_VERSION,
        Banks::Two => TWO_BANKS_VERSION,
    }
}

/// The banks of a TPM whose blobs have this version.
pub fn banks_named(version: u8) -> Option<Banks>
    ensures { result ≡ banks_named version }
{
    match version {
        ONE_BANK_VERSION => Some(Banks::One),
        TWO_BANKS_VERSION => Some(Banks::Two),
        _ => None,
    }
}

/// How many bytes of body the volatile blob of a started TPM has.
pub fn volatile_length(banks: Banks) -> u32
    ensures { result ≡ volatile_length banks }
{
    match banks {
        Banks::One => VOLATILE_LENGTH,
        Banks::Two => TWO_BANKS_VOLATILE_LENGTH,
    }
}

/// How many bytes of body the blob of a saved state has.
pub fn saved_length(banks: Banks) -> u32
    ensures { result ≡ saved_length banks }
{
    match banks {
        Banks::One => SAVED_LENGTH,
        Banks::Two => TWO_BANKS_SAVED_LENGTH,
    }
}

/// Whether so many bytes may follow the header of a blob of this kind, of a TPM with these banks.
pub fn is_length(kind: Kind, banks: Banks, count: u32) -> bool
    ensures { result ≡ is_length kind banks count }
{
    match kind {
        Kind::Permanent => count == PERMANENT_LENGTH,
        Kind::Volatile => count == FLAG_ALONE || count == volatile_length(banks),
        Kind::Saved => count == FLAG_ALONE || count == saved_length(banks),
    }
}

/// The flag of a body of so many bytes.
fn flag_for(count: u32) -> u8
    ensures { result ≡ flag_for count }
{
    if count == FLAG_ALONE { 0 } else { 1 }
}

/// Whether the first byte of a body of so many bytes may be this one.
pub fn flag_fits(kind: Kind, count: u32, flag: u8) -> bool
    ensures { result ≡ flag_fits kind count flag }
{
    match kind {
        Kind::Permanent => true,
        Kind::Volatile | Kind::Saved => flag == flag_for(count),
    }
}
