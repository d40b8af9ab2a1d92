//! What stands behind the two channels: what each whole request does, and what is kept for it.

ghost use Rattle.std.specs.Prelude.{◌≡◌, ℕ, false, ◌≤◌, [], true, option_map, ◌==◌, Ok, Option, if◌then◌else◌, IfOk, IfSome};
ghost use Rattle.tpm_core.specs.Steps.{IsValid};
ghost use Rattle.ctrl_codec.specs.Replies.{ReplyHasData, encode_reply};
ghost use Rattle.ctrl_model.specs.Emulator.{HandlesRequest, replied, buffer_for};
ghost use Rattle.vt_emulator.specs.CoreStates.{HandledRequest};

use crate::blobs::Blobs;
use crate::commands::Commands;
use ctrl_codec::{Out, Reply, Request, write_reply};
use ctrl_model::{
    BAD_PARAMETER, CAPABILITIES, GREATEST_BUFFER, LARGEST_PIECE, LEAST_BUFFER, SUCCESS,
};
use std::alloc::{AllocError, Global};
use std::marker::Model;
use tpm_core::Tpm;

/// The TPM with its switch, the blobs that are gathered for another one, and the pending command.
#[derive(Drop)]
pub(crate) struct EmulatorCore {
    pub(crate) tpm: Option<Tpm>,
    pub(crate) on: bool,
    pub(crate) stored: bool,
    pub(crate) blobs: Blobs,
    pub(crate) piece: u32,
    pub(crate) buffer: u32,
    pub(crate) commands: Commands,
    pub(crate) closed: bool,
}

impl Model for EmulatorCore {
    ghost use Rattle.vt_emulator.specs.CoreStates.{CoreState};
    ghost use Rattle.vt_emulator.specs.Emulator.{IsConsistentEmulator};
    ghost use Rattle.vt_emulator.specs.Inside.{core_state};

    ghost Value = { CoreState };

    ghost view = { core_state };

    ghost invariant = { λ b. IsConsistentEmulator (core_state b).emulator };
}

impl EmulatorCore {
    ghost use Rattle.vt_emulator.specs.Emulator.{IsConsistentEmulator, fresh_emulator};

    /// Switched off, with this TPM or none.
    pub(crate) fn new(
        alloc: Global,
        tpm: Option<Tpm>,
        piece: u32,
    ) -> Result<EmulatorCore, AllocError>
        requires fit { IfSome tpm IsValid }
        requires least { 1 ≤ piece }
        requires most { piece ≤ LARGEST_PIECE }
        ensures { IfOk result (λ b. b ≡ record { emulator = (fresh_emulator tpm piece).emulator; command = [] }) }
    {
        Ok(EmulatorCore {
            tpm,
            on: false,
            stored: false,
            blobs: Blobs::new(alloc)?,
            piece,
            buffer: GREATEST_BUFFER,
            commands: Commands::new(alloc)?,
            closed: false,
        })
    }

    /// SET_BUFFERSIZE: answers the size that is kept now.
    fn set_buffer(&mut self, size: u32) -> u32
        ensures size { result ≡ buffer_for size self.old.emulator.buffer }
        ensures kept { self.new ≡ record self.old { emulator = record self.old.emulator { buffer = result } } }
    {
        if size != 0 {
            self.buffer = size.clamp(LEAST_BUFFER, GREATEST_BUFFER);
        }
        self.buffer
    }

    /// Does what a request asks that isn't GET_STATEBLOB, and answers its reply.
    fn reply_to(&mut self, request: Request, payload: &[u8]) -> Reply
        requires { (flags number offset : ℕ) → request ≡ Request.GetStateBlob flags number offset → ⊥ }
        ensures step { HandlesRequest request payload.now self.old.emulator (replied result self.new.emulator) }
        ensures command { self.new.command ≡ self.old.command }
        ensures bare { ReplyHasData result [] }
    {
        match request {
            Request::GetCapability => Reply::Capability {
                value: CAPABILITIES,
            },
            Request::Init { flags } => result(self.init(flags)),
            Request::Shutdown => result(self.shut_down()),
            Request::GetEstablished => Reply::Established {
                result: SUCCESS,
                bit: 0,
            },
            Request::SetLocality { locality } => result(locality_result(locality)),
            Request::CancelCommand => result(self.cancel()),
            Request::StoreVolatile => result(self.store()),
            Request::ResetEstablished { .. } => result(SUCCESS),
            Request::SetStateBlob { flags, kind, .. } => {
                result(self.take_blob(flags, kind, payload))
            }
            Request::Stop => result(self.stop()),
            Request::GetConfig => Reply::Config {
                result: SUCCESS,
                flags: 0,
            },
            Request::SetBufferSize { size } => Reply::Buffer {
                result: SUCCESS,
                size: self.set_buffer(size),
                least: LEAST_BUFFER,
                greatest: GREATEST_BUFFER,
            },
            Request::GetStateBlob { .. } => unreachable!(),
        }
    }

    /// Does what a request asks, and writes its reply.
    pub(crate) fn handle_request(&mut self, request: Request, payload: &[u8], out: &mut Out)
        requires { out.old ≡ [] }
        ensures { HandledRequest request payload.now out.new self.old self.new }
    {
        if let Request::GetStateBlob {
            flags,
            kind,
            offset,
        } = request
        {
            self.give_blob(flags, kind, offset, out);
        } else {
            let reply = self.reply_to(request, payload);
            write_reply(&reply, &[], out);
        }
    }

    /// Closes the control channel, for bytes that are no request.
    pub(crate) fn refuse(&mut self, number: u32, out: &mut Out)
        requires { out.old ≡ [] }
        ensures state { self.new ≡ record self.old { emulator = record self.old.emulator { closed = true } } }
        ensures reply { out.new ≡ encode_reply (Reply.Result number) [] }
    {
        self.closed = true;
        write_reply(&result(number), &[], out);
    }

    /// Opens the control channel again.
    pub(crate) fn open(&mut self)
        ensures { self.new ≡ record self.old { emulator = record self.old.emulator { closed = false } } }
    {
        self.closed = false;
    }

    /// Whether the control channel is closed.
    pub(crate) fn is_closed(&self) -> bool
        ensures closed { result ≡ self.now.emulator.closed }
        ensures consistent { IsConsistentEmulator self.now.emulator }
    {
        self.closed
    }

    /// The TPM, if there is one.
    pub(crate) fn tpm(&self) -> Option<&Tpm>
        ensures tpm { option_map (λ t. t.now) result ≡ self.now.emulator.tpm }
        ensures consistent { IsConsistentEmulator self.now.emulator }
    {
        self.tpm.as_ref()
    }
}

/// The reply that is a result alone.
fn result(number: u32) -> Reply
    ensures { result ≡ Reply.Result number }
{
    Reply::Result { result: number }
}

/// SET_LOCALITY. Commands come from locality 0 alone.
fn locality_result(locality: u8) -> u32
    ensures { result ≡ (if locality == 0 then SUCCESS else BAD_PARAMETER) }
{
    if locality == 0 {
        SUCCESS
    } else {
        BAD_PARAMETER
    }
}
