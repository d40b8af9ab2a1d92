//! The blobs that are gathered for another TPM.

ghost use Rattle.std.specs.Prelude.{◌≡◌, ◌++◌, [], not, IfOk, IfErr, OnOk, OnErr};
ghost use Rattle.ctrl_model.specs.Emulator.{no_gathers, gather_of, with_gather, is_nil, is_nothing};
ghost use Rattle.state_blobs.specs.Assembly.{IsAssembled, IsFault};
ghost use Rattle.state_blobs.specs.Refusals.{IsRefused};
ghost use Rattle.vt_emulator.specs.CoreStates.{counting};
ghost use Rattle.vt_base.specs.declared.types.Malformed.{Malformed};

use state_blobs::{BlobFault, Gather, assemble};
use std::alloc::{AllocError, Global};
use std::marker::Model;
use tpm_core::Tpm;
use vt_base::{Kind, Malformed};

/// A gather for each kind of blob.
#[derive(Drop)]
pub(crate) struct Blobs {
    permanent: Gather,
    volatile: Gather,
    saved: Gather,
    // The volatile blob of a TPM whose volatile state is deleted: nothing is ever gathered here.
    deleted: Gather,
}

impl Model for Blobs {
    ghost use Rattle.ctrl_model.specs.Emulator.{Gathers};
    ghost use Rattle.vt_emulator.specs.CoreStates.{AreInPlace};

    ghost Value = { Gathers };

    ghost view = { λ b. record { permanent = b.permanent.begun; volatile = b.volatile.begun; saved = b.saved.begun } };

    ghost invariant = { λ b. AreInPlace b.permanent b.volatile b.saved b.deleted };
}

impl Blobs {
    /// Nothing of any blob.
    pub(crate) fn new(alloc: Global) -> Result<Blobs, AllocError>
        ensures { IfOk result (λ b. b ≡ no_gathers) }
    {
        Ok(Blobs {
            permanent: Gather::new(alloc, Kind::Permanent)?,
            volatile: Gather::new(alloc, Kind::Volatile)?,
            saved: Gather::new(alloc, Kind::Saved)?,
            deleted: Gather::new(alloc, Kind::Volatile)?,
        })
    }

    /// Whether nothing of any blob is there.
    pub(crate) fn is_empty(&self) -> bool
        ensures { result ≡ is_nothing self.now }
    {
        self.permanent.is_empty() && self.volatile.is_empty() && self.saved.is_empty()
    }

    /// Whether there is a byte of the volatile blob.
    pub(crate) fn has_volatile(&self) -> bool
        ensures { result ≡ not (is_nil self.now.volatile) }
    {
        !self.volatile.is_empty()
    }

    /// Forgets all bytes.
    pub(crate) fn clear(&mut self)
        ensures { self.new ≡ no_gathers }
    {
        self.permanent.clear();
        self.volatile.clear();
        self.saved.clear();
    }

    /// Takes a piece of a blob, whole or not at all.
    pub(crate) fn push(&mut self, kind: Kind, bytes: &[u8]) -> Result<(), Malformed>
        ensures ok { OnOk result (self.new ≡ with_gather kind (gather_of kind self.old ++ bytes.now) self.old) }
        ensures good { OnOk result ((fault : Malformed) → IsRefused kind fault (gather_of kind self.old ++ bytes.now) → ⊥) }
        ensures refused { IfErr result (λ fault. IsRefused kind fault (gather_of kind self.old ++ bytes.now)) }
        ensures err { OnErr result (self.new ≡ self.old) }
    {
        match kind {
            Kind::Permanent => push_to(&mut self.permanent, bytes),
            Kind::Volatile => push_to(&mut self.volatile, bytes),
            Kind::Saved => push_to(&mut self.saved, bytes),
        }
    }

    /// The TPM whose blobs these are, with the volatile one or without.
    pub(crate) fn assemble(&self, deleted: bool) -> Result<Tpm, BlobFault>
        ensures ok { IfOk result (λ t. IsAssembled self.now.permanent (counting deleted self.now.volatile) self.now.saved t) }
        ensures fault { IfErr result (λ fault. IsFault self.now.permanent (counting deleted self.now.volatile) self.now.saved fault) }
    {
        if deleted {
            assemble(&self.permanent, &self.deleted, &self.saved)
        } else {
            assemble(&self.permanent, &self.volatile, &self.saved)
        }
    }
}

fn push_to(gather: &mut Gather, bytes: &[u8]) -> Result<(), Malformed>
    ensures ok { OnOk result (gather.new ≡ record gather.old { begun = gather.old.begun ++ bytes.now; whole = gather.new.whole }) }
    ensures good { OnOk result ((fault : Malformed) → IsRefused gather.old.kind fault (gather.old.begun ++ bytes.now) → ⊥) }
    ensures refused { IfErr result (λ fault. IsRefused gather.old.kind fault (gather.old.begun ++ bytes.now)) }
    ensures err { OnErr result (gather.new ≡ gather.old) }
{
    state_blobs::laws::blobs_are_prefix_free();
    gather.push(bytes)?;
    Ok(())
}
