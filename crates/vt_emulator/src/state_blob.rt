//! The requests by which a TPM is given and taken as blobs.

ghost use Rattle.std.specs.Prelude.{◌≡◌, Some, ◌≤◌, [], length, None, ◌==◌, Ok, Err, Option, IfOk};
ghost use Rattle.ctrl_codec.specs.Replies.{encode_reply};
ghost use Rattle.ctrl_model.specs.Emulator.{BlobTaken, resulted, kind_of};
ghost use Rattle.vt_emulator.specs.CoreStates.{blob_outcome, outcome_of_parts};

use crate::emulator_core::EmulatorCore;
use ctrl_codec::{Out, Reply, write_reply};
use ctrl_model::{
    BAD_ORDINAL, BAD_PARAMETER, LARGEST_PIECE, PERMANENT_BLOB, SAVED_BLOB, SUCCESS, VOLATILE_BLOB,
};
use state_blobs::{Piece, piece};
use vt_base::Kind;

/// The kind of blob that a type in a message names, if there is one.
fn kind_of(number: u32) -> Option<Kind>
    ensures { result ≡ kind_of number }
{
    match number {
        PERMANENT_BLOB => Some(Kind::Permanent),
        VOLATILE_BLOB => Some(Kind::Volatile),
        SAVED_BLOB => Some(Kind::Saved),
        _ => None,
    }
}

impl EmulatorCore {
    /// SET_STATEBLOB: the bytes go behind those of this type before them. An empty piece isn't looked at.
    pub(crate) fn take_blob(&mut self, flags: u32, number: u32, bytes: &[u8]) -> u32
        ensures step { BlobTaken self.old.emulator.on (flags == 0) number bytes.now self.old.emulator (resulted result self.new.emulator) }
        ensures command { self.new.command ≡ self.old.command }
    {
        if self.on {
            return BAD_ORDINAL;
        }
        if flags != 0 {
            return BAD_PARAMETER;
        }
        let Some(kind) = kind_of(number) else {
            return BAD_PARAMETER;
        };
        if bytes.is_empty() {
            return SUCCESS;
        }
        match self.blobs.push(kind, bytes) {
            Ok(()) => SUCCESS,
            Err(_) => BAD_PARAMETER,
        }
    }

    /// The data that answers GET_STATEBLOB, or the result by which it is refused.
    pub(crate) fn blob_piece(
        &self,
        flags: u32,
        number: u32,
        offset: u32,
        into: &mut [u8],
    ) -> Result<Piece, u32>
        requires { length into.old ≡ LARGEST_PIECE }
        ensures request_outcome { outcome_of_parts result into.new self.now.emulator ≡ blob_outcome flags number offset self.now.emulator }
        ensures fits { IfOk result (λ p. p.length ≤ LARGEST_PIECE) }
    {
        if flags != 0 {
            return Err(BAD_PARAMETER);
        }
        let Some(kind) = kind_of(number) else {
            return Err(BAD_PARAMETER);
        };
        let Some(tpm) = &self.tpm else {
            return Err(BAD_ORDINAL);
        };
        match piece(tpm, kind, offset, &mut into[..self.piece as usize]) {
            Some(piece) => Ok(piece),
            None => Err(BAD_PARAMETER),
        }
    }

    /// GET_STATEBLOB: writes the reply with its data.
    pub(crate) fn give_blob(&self, flags: u32, number: u32, offset: u32, out: &mut Out)
        requires { out.old ≡ [] }
        ensures { let request_outcome = blob_outcome flags number offset self.now.emulator in out.new ≡ encode_reply request_outcome.reply request_outcome.payload }
    {
        let mut bytes = [0; LARGEST_PIECE];
        match self.blob_piece(flags, number, offset, &mut bytes) {
            Ok(piece) => {
                let reply = Reply::Blob {
                    result: SUCCESS,
                    flags: 0,
                    total: piece.total,
                    length: piece.length,
                };
                write_reply(&reply, &bytes[..piece.length as usize], out);
            }
            Err(result) => {
                let reply = Reply::Blob {
                    result,
                    flags: 0,
                    total: 0,
                    length: 0,
                };
                write_reply(&reply, &[], out);
            }
        }
    }
}
