//! How a run begins.
ghost use Rattle.std.specs.Prelude.{◌≡◌, [], IfOk};
ghost use Rattle.two_hosts.specs.Hosts.{first_hosts};
ghost use Rattle.two_seats.specs.Both.{FollowsBoth};
ghost use Rattle.script_run.specs.Calls.{HasDriven};
ghost use Rattle.script_run.specs.Start.{base_of, default_start};
ghost use Rattle.script_run.specs.Words.{IsPiece};

use crb_port::PlainPort;
use ctrl_model::LARGEST_PIECE;
use std::alloc::{AllocError, Global};
use tpm_core::{Banks, SEED_SIZE};
use vt_world::{Pair, World};

/// How a run begins.
#[derive(Clone, Copy, Debug, PartialEq, Eq)]
pub struct Start {
    /// The seed of the TPM.
    pub seed: [u8; SEED_SIZE],
    /// Which banks the TPM has.
    pub banks: Banks,
    /// The most bytes of a piece of a record or of a blob, from 1 to 4096.
    pub piece: u32,
}

impl Start {
    /// The start of a run whose words have no options: a seed of zeros, two banks, and the longest pieces.
    #[tactic(auto, unfolding(crate::specs::Start::default_start))]
    pub(crate) fn without_options() -> Start
        ensures { result ≡ default_start }
    {
        Start {
            seed: [0; SEED_SIZE],
            banks: Banks::Two,
            piece: LARGEST_PIECE as u32,
        }
    }

    /// Two hosts that sent no message: A is a device after a reset, whose TPM has the seed and the banks and was
    /// powered on once, and B has no guest.
    #[tactic(auto, unfolding(crate::specs::Start::base_of))]
    pub(crate) fn world(&self, alloc: Global) -> Result<World, AllocError>
        requires { IsPiece self.now.piece }
        ensures { IfOk result (FollowsBoth (base_of self.now) self.now.piece (first_hosts (base_of self.now))) }
    {
        World::new(alloc, self.seed, self.banks, self.piece)
    }

    /// The same two hosts, between which a guest moves from hand to hand.
    #[tactic(auto, unfolding(crate::specs::Start::base_of))]
    pub(crate) fn pair(&self, alloc: Global) -> Result<Pair<PlainPort>, AllocError>
        requires { IsPiece self.now.piece }
        ensures { IfOk result (HasDriven self.now []) }
    {
        Pair::fresh(alloc, self.seed, self.banks, self.piece)
    }
}
