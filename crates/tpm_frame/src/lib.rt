//! TPM commands and responses as frames: their numbers, their header, and the cutting of a stream of bytes into them.
//! What stands behind a header, and which response a command gets, is left to others.
#![tactic(auto)]

ghost use Rattle.std.specs.Prelude.{◌≡◌, ◌≤◌, ◌+◌, length, IfOk};
ghost use Rattle.std.specs.Int.{w16, w32};
ghost use Rattle.tpm_frame.specs.Frame.{is_tag, is_known, short_tag, head_of, short};
ghost use Rattle.vt_base.specs.Numbers.{big_endian_at};
ghost use Rattle.tpm_frame.specs.Frames.{IsFrame};
ghost use Rattle.vt_base.specs.Buffer.{followed_by_zeros};

mod cutter;
pub mod laws;
mod sizes;

pub use cutter::{Cutter, Took, first_frame, frame_length};
pub use sizes::{SIZE_FIELD, SIZE_FIELD_LENGTH, is_length, is_well_sized};
use vt_base::{BUFFER_LENGTH, Buf, u16_at, u32_at};

/// TPM_ST_NO_SESSIONS: the tag of a command or a response without authorisations.
pub const NO_SESSIONS: u16 = 0x8001;

/// TPM_ST_SESSIONS: the tag of a command or a response with authorisations.
pub const SESSIONS: u16 = 0x8002;

/// TPM_ST_RSP_COMMAND: the tag of the response to a command whose tag isn't known.
pub const RSP_COMMAND: u16 = 0x00C4;

/// TPM_CC_Startup.
pub const STARTUP: u32 = 0x144;

/// TPM_CC_Shutdown.
pub const SHUTDOWN: u32 = 0x145;

/// TPM_CC_GetRandom.
pub const GET_RANDOM: u32 = 0x17B;

/// TPM_CC_PCR_Read.
pub const PCR_READ: u32 = 0x17E;

/// TPM_CC_PCR_Extend.
pub const PCR_EXTEND: u32 = 0x182;

/// TPM_RC_SUCCESS.
pub const SUCCESS: u32 = 0;

/// TPM_RC_BAD_TAG.
pub const BAD_TAG: u32 = 0x1E;

/// TPM_RC_FAILURE.
pub const FAILURE: u32 = 0x101;

/// TPM_RC_COMMAND_SIZE.
pub const COMMAND_SIZE: u32 = 0x142;

/// TPM_RC_COMMAND_CODE.
pub const COMMAND_CODE: u32 = 0x143;

/// TPM_RC_CANCELED.
pub const CANCELED: u32 = 0x909;

/// How many bytes a header has: tag, size field and code.
pub const HEADER_SIZE: usize = 10;

/// How many bytes a frame has at most: as many as the buffer of commands and responses.
pub const LARGEST_FRAME: usize = BUFFER_LENGTH;

/// What the header of a command says.
#[derive(Clone, Copy, Debug, PartialEq, Eq)]
pub struct Head {
    /// Whether authorisations follow the handles.
    pub sessions: bool,
    /// Which command it is: one of the five command codes of this crate.
    pub code: u32,
}

/// Whether this is the tag of a command: TPM_ST_NO_SESSIONS or TPM_ST_SESSIONS.
pub fn is_tag(tag: u16) -> bool
    ensures { result ≡ is_tag tag }
{
    tag == NO_SESSIONS || tag == SESSIONS
}

fn is_known(code: u32) -> bool
    ensures { result ≡ is_known code }
{
    code == STARTUP
        || code == SHUTDOWN
        || code == GET_RANDOM
        || code == PCR_READ
        || code == PCR_EXTEND
}

/// The header of a command, or the response code of the first check that fails: the header is there (COMMAND_SIZE), its
/// tag is that of a command (BAD_TAG), its size field is the length (COMMAND_SIZE), its code is known (COMMAND_CODE).
/// The codes are those of the TPM 2.0 Library; the order of the checks is our own.
#[tactic(auto, unfolding(crate::specs::Frame::head_of))]
pub fn parse(bytes: &[u8]) -> Result<Head, u32>
    ensures head { result ≡ head_of bytes.now }
    ensures long { IfOk result (λ _. 10 ≤ length bytes.now) }
{
    if bytes.len() < HEADER_SIZE {
        return Err(COMMAND_SIZE);
    }
    let tag = u16_at(bytes, 0);
    if !is_tag(tag) {
        return Err(BAD_TAG);
    }
    if u32_at(bytes, SIZE_FIELD) as usize != bytes.len() {
        return Err(COMMAND_SIZE);
    }
    let code = u32_at(bytes, 6);
    if !is_known(code) {
        return Err(COMMAND_CODE);
    }
    Ok(Head {
        sessions: tag == SESSIONS,
        code,
    })
}

fn short_tag(code: u32) -> u16
    ensures { result ≡ short_tag code }
{
    if code == BAD_TAG {
        RSP_COMMAND
    } else {
        NO_SESSIONS
    }
}

/// Writes a response that has a code alone, and answers its length. As in the TPM 2.0 Library, the response to a bad
/// tag has the tag of an older standard.
pub fn write_short(code: u32, into: &mut Buf) -> usize
    ensures size { result ≡ 10 }
    ensures response { into.new ≡ followed_by_zeros (short code) }
    ensures frame { IsFrame (short code) }
{
    let [t0, t1] = short_tag(code).to_be_bytes();
    let [c0, c1, c2, c3] = code.to_be_bytes();
    into.hold(&[t0, t1, 0, 0, 0, HEADER_SIZE as u8, c0, c1, c2, c3]);
    HEADER_SIZE
}
