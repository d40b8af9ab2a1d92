//! The emulator.

ghost use Rattle.std.specs.Prelude.{◌≡◌, ◌≤◌, [], false, length, is_some, Some, None, option_map, IfOk};
ghost use Rattle.tpm_core.specs.Fresh.{manufactured};
ghost use Rattle.vt_emulator.specs.Emulator.{BufferedEmulator, IsConsistentEmulator, fresh_emulator};

use crate::desk::{Desk, Heard};
use crate::emulator_core::EmulatorCore;
use ctrl_codec::{FedRequest, Out, RequestReader};
use ctrl_model::{BAD_ORDINAL, BAD_PARAMETER, LARGEST_PIECE};
use std::alloc::{AllocError, Global};
use std::marker::Model;
use tpm_core::{Banks, SEED_SIZE, Tpm};
use tpm_frame::Took;
use vt_base::Buf;

/// A TPM behind control messages and commands.
#[derive(Drop)]
pub struct Emulator {
    reader: RequestReader,
    core: EmulatorCore,
}

impl Model for Emulator {
    ghost use Rattle.vt_emulator.specs.Emulator.{BufferedEmulator};
    ghost use Rattle.vt_emulator.specs.Inside.{IsListening};

    ghost Value = { BufferedEmulator };

    ghost view = { λ e. record { emulator = e.core.emulator; request = e.reader.begun; command = e.core.command } };

    ghost invariant = { λ e. IsListening e.reader e.core };
}

impl Emulator {
    /// An emulator that is off, with a TPM of these banks that power never came to. One reply has at most `piece` bytes
    /// of a blob.
    pub fn new(
        alloc: Global,
        seed: [u8; SEED_SIZE],
        banks: Banks,
        piece: u32,
    ) -> Result<Emulator, AllocError>
        requires least { 1 ≤ piece }
        requires most { piece ≤ LARGEST_PIECE }
        ensures { IfOk result (λ e. e ≡ fresh_emulator (Some (manufactured seed banks)) piece) }
    {
        Ok(Emulator {
            reader: RequestReader::new(alloc)?,
            core: EmulatorCore::new(alloc, Some(Tpm::manufacture(seed, banks)), piece)?,
        })
    }

    /// An emulator that is off and has no TPM: one is made of the blobs that are given to it.
    pub fn empty(alloc: Global, piece: u32) -> Result<Emulator, AllocError>
        requires least { 1 ≤ piece }
        requires most { piece ≤ LARGEST_PIECE }
        ensures { IfOk result (λ e. e ≡ fresh_emulator None piece) }
    {
        Ok(Emulator {
            reader: RequestReader::new(alloc)?,
            core: EmulatorCore::new(alloc, None, piece)?,
        })
    }

    /// Another control connection begins: the part of a request is forgotten, and the channel is open.
    pub fn open_control(&mut self)
        ensures { self.new ≡ record self.old { emulator = record self.old.emulator { closed = false }; request = [] } }
    {
        self.reader.clear();
        self.core.open();
    }

    /// Forgets the part of a request that came so far. A channel that is closed stays closed.
    pub fn forget_request(&mut self)
        ensures { self.new ≡ record self.old { request = [] } }
    {
        self.reader.clear();
    }

    /// Forgets the part of a command that came so far. A whole one that is held stays.
    pub fn forget_command(&mut self)
        ensures { self.new ≡ record self.old { command = [] } }
    {
        self.core.forget();
    }

    /// Whether a whole command is held.
    pub fn holds(&self) -> bool
        ensures { result ≡ is_some self.now.emulator.held }
    {
        self.core.holds()
    }

    /// Whether the control channel is closed.
    pub fn is_closed(&self) -> bool
        ensures { result ≡ self.now.emulator.closed }
    {
        self.core.is_closed()
    }

    /// The TPM, if there is one.
    pub fn tpm(&self) -> Option<&Tpm>
        ensures tpm { option_map (λ t. t.now) result ≡ self.now.emulator.tpm }
        ensures consistent { IsConsistentEmulator self.now.emulator }
    {
        self.core.tpm()
    }
}

impl Desk for Emulator {
    ghost state = { λ e. Some e };

    fn control(&mut self, bytes: &[u8], out: &mut Out) -> Heard {
        if self.core.is_closed() {
            return Heard {
                used: 0,
                closed: true,
            };
        }
        let (used, fed) = self.reader.feed(bytes);
        match fed {
            FedRequest::More => {}
            FedRequest::Whole(request) => self
                .core
                .handle_request(request, self.reader.data(), out),
            FedRequest::BadCode(_) => self.core.refuse(BAD_ORDINAL, out),
            FedRequest::BadLength(_) => self.core.refuse(BAD_PARAMETER, out),
            FedRequest::Failed => unreachable!(),
        }
        Heard {
            used,
            closed: self.core.is_closed(),
        }
    }

    fn data(&mut self, bytes: &[u8]) -> Took {
        self.core.feed(bytes)
    }

    fn run_held(&mut self, into: &mut Buf) -> usize {
        self.core.run_held(into)
    }
}
