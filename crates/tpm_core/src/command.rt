//! What a command asks for.

ghost use Rattle.std.specs.Prelude.{◌≡◌, ◌<◌, ◌≤◌, length, IfSome};

use crate::algorithm::{Algorithm, Measurement};
use crate::array_vec::ArrayVec;
use std::marker::Model;

/// How many entries a list of a command has at most.
pub const LIST_SIZE: usize = 16;

/// How many bytes a map of the registers of a bank has.
pub const SELECT_SIZE: usize = 3;

/// A map of the registers of a bank.
#[derive(Clone, Copy, Debug, PartialEq, Eq)]
pub struct Selection {
    pub algorithm: Algorithm,
    pub bits: [u8; SELECT_SIZE],
}

/// Which register is extended in each bank, if any, and by which digests.
#[derive(Drop)]
pub struct Extension {
    register: Option<usize>,
    measurements: ArrayVec<Measurement, LIST_SIZE>,
}

impl Model for Extension {
    ghost use Rattle.std.specs.Prelude.{◌<◌, ℕ, List, Option, IfSome};
    ghost use Rattle.tpm_core.specs.declared.algorithm.Measurement.{Measurement};

    ghost Value = { Option ℕ × List Measurement };

    ghost view = { λ e. (e.register, e.measurements) };

    ghost invariant = { λ e. IfSome e.register (λ i. i < 24) };
}

impl Extension {
    /// An extension.
    pub fn new(register: Option<usize>, measurements: ArrayVec<Measurement, LIST_SIZE>) -> Extension
        requires { IfSome register (λ i. i < 24) }
        ensures { result ≡ (register, measurements) }
    {
        Extension {
            register,
            measurements,
        }
    }

    /// The register, if any.
    pub fn register(&self) -> Option<usize>
        ensures value { result ≡ self.now.0 }
        ensures small { IfSome result (λ i. i < 24) }
    {
        self.register
    }

    /// The digests.
    pub fn measurements(&self) -> &[Measurement]
        ensures items { result.now ≡ self.now.1 }
        ensures within_limit { length self.now.1 ≤ 16 }
    {
        self.measurements.as_slice()
    }
}

/// How the TPM is started or shut down.
#[derive(Clone, Copy, Debug, PartialEq, Eq)]
pub enum Mode {
    /// Values begin anew.
    Clear,
    /// Values are kept, or brought back.
    State,
}

/// A command that passed each check.
#[derive(Drop)]
pub enum Command {
    Startup(Mode),
    Shutdown(Mode),
    /// How many bytes are asked for.
    GetRandom(u16),
    PcrRead(ArrayVec<Selection, LIST_SIZE>),
    PcrExtend(Extension),
}
