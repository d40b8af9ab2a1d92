//! A blob gathered from pieces.

ghost use Rattle.std.specs.Prelude.{◌≡◌, ◌<◌, ◌≤◌, ◌-◌, ◌++◌, ◌↔◌, length, take, drop, [], false, IsTrue, IfOk, IfErr, OnOk, OnErr};
ghost use Rattle.std.specs.Bool.{OnTrue, OnFalse};
ghost use Rattle.state_blobs.specs.Numbers.{version_of};
ghost use Rattle.state_blobs.specs.Assembly.{version_in, cut_at};
ghost use Rattle.state_blobs.specs.Encodings.{IsBlob};
ghost use Rattle.state_blobs.specs.Partial.{body_in, AreValid};
ghost use Rattle.state_blobs.specs.Refusals.{IsRefused, IsCut};

use crate::blobs::version_of;
use crate::body_fields::Fields;
use crate::reading::{Reading, is_whole, read_bytes, unread};
use crate::types::BlobFault;
use std::alloc::{AllocError, Global};
use std::marker::Model;
use tpm_core::Banks;
use vt_base::{Kind, Malformed, Why};

/// Gathers the blob of one kind from pieces; seen as its kind, the bytes so far, and whether they are the whole blob.
#[derive(Drop)]
pub struct Gather {
    kind: Kind,
    reading: Box<Reading>,
}

impl Model for Gather {
    ghost use Rattle.state_blobs.specs.Partial.{bytes_read, is_whole, IsReading};
    ghost use Rattle.state_blobs.specs.Gathering.{Gathering};

    ghost Value = { Gathering };

    ghost view = { λ g. record { kind = g.kind; begun = bytes_read g.kind g.reading.value; whole = is_whole g.reading.value } };

    ghost invariant = { λ g. IsReading g.kind g.reading.value };
}

impl Gather {
    /// Nothing of a blob of this kind.
    pub fn new(alloc: Global, kind: Kind) -> Result<Gather, AllocError>
        ensures { IfOk result (λ g. g ≡ record { kind = kind; begun = []; whole = false }) }
    {
        Ok(Gather {
            kind,
            reading: Box::new(alloc, unread())?,
        })
    }

    /// The kind of its blob.
    pub fn kind(&self) -> Kind
        ensures { result ≡ self.now.kind }
    {
        self.kind
    }

    /// The fields whose bytes came so far.
    pub(crate) fn fields(&self) -> &Fields
        ensures body { drop 9 self.now.begun ≡ take (length self.now.begun - 9) (body_in self.now.kind result.now) }
        ensures valid { AreValid result.now }
    {
        &self.reading.fields
    }

    /// The version, where it came.
    pub(crate) fn version(&self) -> u8
        ensures { 4 < length self.now.begun → result ≡ version_in self.now.begun }
    {
        version_of(self.reading.header.banks)
    }

    /// The banks that the version stands for, where it came.
    pub(crate) fn banks(&self) -> Banks
        ensures { 4 < length self.now.begun → version_in self.now.begun ≡ version_of result }
    {
        self.reading.header.banks
    }

    /// How many bytes came so far.
    pub fn len(&self) -> usize
        ensures count { result ≡ length self.now.begun }
        ensures most { result ≤ 1942 }
    {
        self.reading.place
    }

    /// Whether the blob is whole.
    pub fn is_whole(&self) -> bool
        ensures { result ≡ self.now.whole }
    {
        is_whole(&self.reading)
    }

    /// Whether there is no byte yet.
    pub fn is_empty(&self) -> bool
        ensures { IsTrue result ↔ (self.now.begun ≡ []) }
    {
        self.reading.place == 0
    }

    /// Refuses a blob that isn't whole.
    pub(crate) fn check_whole(&self) -> Result<(), BlobFault>
        ensures blob { OnOk result (IsBlob self.now.kind self.now.begun) }
        ensures fault { IfErr result (λ fault. fault ≡ cut_at self.now.kind self.now.begun) }
        ensures cut { OnErr result (IsCut self.now.kind self.now.begun) }
    {
        if is_whole(&self.reading) {
            return Ok(());
        }
        Err(BlobFault {
            kind: self.kind,
            fault: Malformed {
                why: Why::Cut,
                place: self.len() as u32,
            },
        })
    }

    /// Forgets all bytes.
    pub fn clear(&mut self)
        ensures { self.new ≡ record self.old { begun = []; whole = false } }
    {
        self.reading.place = 0;
    }

    /// Takes a piece, and answers whether the blob is whole. An empty piece changes nothing. A piece is taken whole or, where
    /// a byte of it is refused, not at all.
    pub fn push(&mut self, bytes: &[u8]) -> Result<bool, Malformed>
        ensures ok { IfOk result (λ whole. self.new ≡ record self.old { begun = self.old.begun ++ bytes.now; whole = whole }) }
        ensures whole { IfOk result (λ whole. OnTrue whole (IsBlob self.old.kind (self.old.begun ++ bytes.now))) }
        ensures cut { IfOk result (λ whole. OnFalse whole (IsCut self.old.kind (self.old.begun ++ bytes.now))) }
        ensures refused { IfErr result (λ fault. IsRefused self.old.kind fault (self.old.begun ++ bytes.now)) }
        ensures err { OnErr result (self.new ≡ self.old) }
        ensures kind { self.new.kind ≡ self.old.kind }
    {
        read_bytes(&mut self.reading, self.kind, bytes)?;
        Ok(self.is_whole())
    }
}
