//! The commands of the lines (TPM 2.0 Library, part 3). Numbers are big-endian.

ghost use Rattle.std.specs.Prelude.{◌≡◌, ◌<◌, IfOk};
ghost use Rattle.vt_script.specs.Drive.{IsDriveLine};
ghost use Rattle.vt_script.specs.declared.drive.DriveLine.TheVariants.{Cmd};
ghost use Rattle.bulk_lines.specs.Commands.{header, startup, get_random, selecting_byte, pcr_read, empty_password, pcr_extend};

use std::alloc::{AllocError, Global};
use tpm_frame::{GET_RANDOM, NO_SESSIONS, PCR_EXTEND, PCR_READ, SESSIONS, STARTUP};
use vt_base::{ByteBuf, Bytes};
use vt_script::DriveLine;

/// TPM_SU_CLEAR.
const CLEAR: u16 = 0;

/// TPM_ALG_SHA256.
const SHA256: u16 = 0x000B;

/// How many bytes a digest by SHA-256 has.
pub const DIGEST_SIZE: usize = 32;

/// How many bytes a command has that has a header and a short number.
const SHORT_COMMAND: u32 = 12;

/// How many bytes an extend by one digest has.
const EXTEND_SIZE: u32 = 65;

/// How many bytes a read of one PCR has.
const READ_SIZE: u32 = 20;

/// How many selections, or digests, a command has.
const ONE: u32 = 1;

/// How many bytes select PCRs.
const SELECTION_SIZE: u8 = 3;

/// The authorisations of an extend: their size, TPM_RS_PW, no nonce, continueSession, and the empty password.
const EMPTY_PASSWORD: [u8; 13] = [0, 0, 0, 9, 0x40, 0, 0, 9, 0, 0, 1, 0, 0];

type Text = ByteBuf<65>;

fn header(tag: u16, size: u32, code: u32) -> Text
    ensures { result ≡ header tag size code }
{
    let mut text = Text::new();
    text.push(&tag.to_be_bytes());
    text.push(&size.to_be_bytes());
    text.push(&code.to_be_bytes());
    text
}

fn line_of(alloc: Global, text: &Text) -> Result<DriveLine, AllocError>
    ensures { IfOk result (λ line. line ≡ Cmd text.now) }
{
    Ok(DriveLine::Cmd(Bytes::from_slice(alloc, text.as_slice())?))
}

/// The line of Startup(CLEAR).
pub fn startup(alloc: Global) -> Result<DriveLine, AllocError>
    ensures line { IfOk result (λ line. line ≡ Cmd startup) }
    ensures valid { IfOk result IsDriveLine }
{
    let mut text = header(NO_SESSIONS, SHORT_COMMAND, STARTUP);
    text.push(&CLEAR.to_be_bytes());
    line_of(alloc, &text)
}

/// The line of GetRandom, of so many bytes.
pub fn get_random(alloc: Global, count: u16) -> Result<DriveLine, AllocError>
    ensures line { IfOk result (λ line. line ≡ Cmd (get_random count)) }
    ensures valid { IfOk result IsDriveLine }
{
    let mut text = header(NO_SESSIONS, SHORT_COMMAND, GET_RANDOM);
    text.push(&count.to_be_bytes());
    line_of(alloc, &text)
}

// A byte of those that select one PCR.
fn selecting_byte(pcr: u8, at: u8) -> u8
    ensures { result ≡ selecting_byte pcr at }
{
    if pcr / 8 == at { 1 << (pcr % 8) } else { 0 }
}

/// The line of PCR_Read of this PCR, in the bank of SHA-256.
pub fn pcr_read(alloc: Global, pcr: u8) -> Result<DriveLine, AllocError>
    requires pcr { pcr < 24 }
    ensures line { IfOk result (λ line. line ≡ Cmd (pcr_read pcr)) }
    ensures valid { IfOk result IsDriveLine }
{
    let mut text = header(NO_SESSIONS, READ_SIZE, PCR_READ);
    text.push(&ONE.to_be_bytes());
    text.push(&SHA256.to_be_bytes());
    text.push(&[
        SELECTION_SIZE,
        selecting_byte(pcr, 0),
        selecting_byte(pcr, 1),
        selecting_byte(pcr, 2),
    ]);
    line_of(alloc, &text)
}

/// The line of PCR_Extend of this PCR by one digest, with the empty password.
pub fn pcr_extend(
    alloc: Global,
    pcr: u32,
    digest: &[u8; DIGEST_SIZE],
) -> Result<DriveLine, AllocError>
    ensures line { IfOk result (λ line. line ≡ Cmd (pcr_extend pcr digest.now)) }
    ensures valid { IfOk result IsDriveLine }
{
    let mut text = header(SESSIONS, EXTEND_SIZE, PCR_EXTEND);
    text.push(&pcr.to_be_bytes());
    text.push(&EMPTY_PASSWORD);
    text.push(&ONE.to_be_bytes());
    text.push(&SHA256.to_be_bytes());
    text.push(digest);
    line_of(alloc, &text)
}
