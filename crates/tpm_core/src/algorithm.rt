//! Hash algorithms, which of them a TPM has a bank of, and digests that say which algorithm they are of. One more bank is
//! a row more in each `match` here.

ghost use Rattle.std.specs.Prelude.{◌≡◌, ◌++◌};
ghost use Rattle.sha2.specs.Sha256.{sha256};
ghost use Rattle.sha2.specs.Sha512.{sha384};
ghost use Rattle.tpm_core.specs.Algorithms.{digest_size, digest_of};

use crate::codes::{ALG_SHA256, ALG_SHA384};
use sha2::{Digest, Sha256, Sha384};

/// How many bytes a digest by SHA-256 has.
pub const SHA256_DIGEST_SIZE: usize = 32;

/// How many bytes a digest by SHA-384 has.
pub const SHA384_DIGEST_SIZE: usize = 48;

/// A hash algorithm that a bank may have.
#[derive(Clone, Copy, Debug, PartialEq, Eq)]
pub enum Algorithm {
    Sha256,
    Sha384,
}

/// How many banks a TPM has: chosen when it is made, and the same from then on.
#[derive(Clone, Copy, Debug, PartialEq, Eq)]
pub enum Banks {
    /// One bank, by SHA-256.
    One,
    /// Two banks, by SHA-256 and by SHA-384.
    Two,
}

impl Algorithm {
    ghost use Rattle.tpm_core.specs.Algorithms.{identifier_of, algorithm_named, algorithm_of, has_bank};

    /// Whether a TPM with these banks has one of it.
    pub fn is_in(self, banks: Banks) -> bool
        ensures { result ≡ has_bank banks self }
    {
        match self {
            Algorithm::Sha256 => true,
            Algorithm::Sha384 => match banks {
                Banks::One => false,
                Banks::Two => true,
            },
        }
    }

    /// The algorithm that has this identifier, if there is a bank of it.
    pub fn known(banks: Banks, identifier: u16) -> Option<Algorithm>
        ensures { result ≡ algorithm_of banks identifier }
    {
        match Algorithm::from_identifier(identifier) {
            Some(algorithm) if algorithm.is_in(banks) => Some(algorithm),
            _ => None,
        }
    }

    fn from_identifier(identifier: u16) -> Option<Algorithm>
        ensures { result ≡ algorithm_named identifier }
    {
        match identifier {
            ALG_SHA256 => Some(Algorithm::Sha256),
            ALG_SHA384 => Some(Algorithm::Sha384),
            _ => None,
        }
    }

    /// Its identifier.
    pub fn identifier(self) -> u16
        ensures { result ≡ identifier_of self }
    {
        match self {
            Algorithm::Sha256 => ALG_SHA256,
            Algorithm::Sha384 => ALG_SHA384,
        }
    }
}

/// A digest, and the algorithm that it is of.
#[derive(Clone, Copy, Debug, PartialEq, Eq)]
pub enum Measurement {
    Sha256([u8; SHA256_DIGEST_SIZE]),
    Sha384([u8; SHA384_DIGEST_SIZE]),
}

impl Measurement {
    ghost use Rattle.tpm_core.specs.Algorithms.{algorithm_by, digest_in, is_by};

    /// The algorithm that it is of.
    pub fn algorithm(&self) -> Algorithm
        ensures { result ≡ algorithm_by self.now }
    {
        match self {
            Measurement::Sha256(_) => Algorithm::Sha256,
            Measurement::Sha384(_) => Algorithm::Sha384,
        }
    }

    /// Its bytes.
    pub fn digest(&self) -> &[u8]
        ensures { result.now ≡ digest_in self.now }
    {
        match self {
            Measurement::Sha256(digest) => digest,
            Measurement::Sha384(digest) => digest,
        }
    }

    /// Whether it is of the algorithm.
    pub fn is_by(&self, algorithm: Algorithm) -> bool
        ensures { result ≡ is_by algorithm self.now }
    {
        self.algorithm().identifier() == algorithm.identifier()
    }
}

/// The digest by an algorithm of two pieces taken as one message.
pub fn digest_of<const N: usize>(algorithm: Algorithm, first: &[u8], second: &[u8]) -> [u8; N]
    requires { N ≡ digest_size algorithm }
    ensures { result ≡ digest_of algorithm (first.now ++ second.now) }
{
    let mut digest = [0; N];
    match algorithm {
        Algorithm::Sha256 => digest.copy_from_slice(&sha256_of(first, second)),
        Algorithm::Sha384 => digest.copy_from_slice(&sha384_of(first, second)),
    }
    digest
}

/// The digest by SHA-256 of two pieces taken as one message.
pub fn sha256_of(first: &[u8], second: &[u8]) -> [u8; SHA256_DIGEST_SIZE]
    ensures { result ≡ sha256 (first.now ++ second.now) }
{
    let mut hasher = Sha256::new();
    hasher.update(first);
    hasher.update(second);
    hasher.finalize()
}

fn sha384_of(first: &[u8], second: &[u8]) -> [u8; SHA384_DIGEST_SIZE]
    ensures { result ≡ sha384 (first.now ++ second.now) }
{
    let mut hasher = Sha384::new();
    hasher.update(first);
    hasher.update(second);
    hasher.finalize()
}
