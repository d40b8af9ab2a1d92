//! The lines that send commands to a TPM and move it between hosts, and the text of a response.
ghost use Rattle.std.specs.Prelude.{◌≡◌, ◌↔◌, ◌++◌, ℕ, List, Some, IfOk, IfSome, OnOk, OnErr, codes};
ghost use Rattle.hex.specs.Hex.{decode_of, encode_lower, IsBytes};
ghost use Rattle.vt_script.specs.Script.{parts_of};
ghost use Rattle.tpm_frame.specs.Sizes.{IsWellSized};
ghost use Rattle.vt_script.specs.Drive.{sized_command, command_of, lost_message_of, drive_word, drive_words, drive_of};
ghost use Rattle.vt_script.specs.Drive.{IsDriveLine, SpellsCommand};
ghost use Rattle.vt_script.specs.Replies.{hex_line};

use crate::number::ordinal;
use crate::parts::{LINE_FEED, SPACE, first_part};
use std::alloc::{AllocError, Global};
use tpm_frame::{LARGEST_FRAME, is_length, is_well_sized};
use vt_base::Bytes;

/// What one drive line asks for.
#[derive(Debug, Drop)]
pub enum DriveLine {
    /// Send this command, and give the response.
    Cmd(Bytes),
    /// Move the device and its TPM to the other host.
    Move,
    /// Do so, with this message of the move lost, counted from 1.
    MoveFail(u32),
}

// The command that hexadecimal digits spell. It is decoded on the stack, so that only a good one takes memory.
fn command(alloc: Global, digits: &[u8]) -> Result<Option<DriveLine>, AllocError>
    ensures line { IfOk result (λ found. found ≡ sized_command (decode_of digits.now)) }
    ensures valid { IfOk result (λ found. IfSome found IsDriveLine) }
{
    let count = digits.len() / 2;
    if !is_length(count) {
        return Ok(None);
    }
    let mut room = [0; LARGEST_FRAME];
    let bytes = &mut room[..count];
    if hex::decode_to_slice(digits, bytes).is_err() || !is_well_sized(bytes) {
        return Ok(None);
    }
    Ok(Some(DriveLine::Cmd(Bytes::from_slice(alloc, bytes)?)))
}

// What the words after `cmd` ask for.
fn parse_command(alloc: Global, words: &[u8]) -> Result<Option<DriveLine>, AllocError>
    ensures line { IfOk result (λ found. found ≡ command_of (parts_of SPACE words.now)) }
    ensures valid { IfOk result (λ found. IfSome found IsDriveLine) }
{
    let (digits, rest) = first_part(SPACE, words);
    match rest {
        Some(_) => Ok(None),
        None => command(alloc, digits),
    }
}

// What the words after `movefail` ask for.
fn parse_lost_message(words: &[u8]) -> Option<DriveLine>
    ensures line { result ≡ lost_message_of (parts_of SPACE words.now) }
    ensures valid { IfSome result IsDriveLine }
{
    let (message, rest) = first_part(SPACE, words);
    match rest {
        Some(_) => None,
        None => Some(DriveLine::MoveFail(ordinal(message)?)),
    }
}

// What a line of one word asks for.
fn parse_drive_word(word: &[u8]) -> Option<DriveLine>
    ensures line { result ≡ drive_word word.now }
    ensures valid { IfSome result IsDriveLine }
{
    match word {
        b"move" => Some(DriveLine::Move),
        _ => None,
    }
}

// What a line of a name and more words asks for.
fn parse_drive_words(
    alloc: Global,
    name: &[u8],
    words: &[u8],
) -> Result<Option<DriveLine>, AllocError>
    ensures line { IfOk result (λ found. found ≡ drive_words name.now (parts_of SPACE words.now)) }
    ensures valid { IfOk result (λ found. IfSome found IsDriveLine) }
{
    if name == b"cmd".as_slice() {
        return parse_command(alloc, words);
    }
    if name == b"movefail".as_slice() {
        return Ok(parse_lost_message(words));
    }
    Ok(None)
}

/// What a drive line asks for; a line comes without the LF that ends it. `Ok(None)` comes where the line isn't in the
/// grammar; an `Err` is lack of memory, which comes for a command alone.
///
/// The lines are `cmd HEX`, `move` and `movefail K`, with one space between words and nothing else. HEX has two
/// hexadecimal digits of either case for each byte of a command of 10 to 3968 bytes, whose bytes 2 to 5, the highest
/// first, are their number. K is a decimal number from 1 to 65535 without a leading zero. The grammar is our own.
#[tactic(auto, unfolding(crate::specs::Drive::drive_of))]
pub fn parse_drive(alloc: Global, line: &[u8]) -> Result<Option<DriveLine>, AllocError>
    ensures line { IfOk result (λ found. found ≡ drive_of line.now) }
    ensures valid { IfOk result (λ found. IfSome found IsDriveLine) }
{
    let (name, rest) = first_part(SPACE, line);
    match rest {
        None => Ok(parse_drive_word(name)),
        Some(words) => parse_drive_words(alloc, name, words),
    }
}

/// Which lines are read as a command: exactly those that spell it, and so its digits in lower case. The call does
/// nothing.
pub fn commands_are_read_as_spelled()
    ensures spelled { (line bytes : List ℕ) → (drive_of line ≡ Some (DriveLine.Cmd bytes)) ↔ SpellsCommand bytes line }
    ensures written { (bytes : List ℕ) → IsBytes bytes → IsWellSized bytes →
        drive_of (codes "cmd " ++ encode_lower bytes) ≡ Some (DriveLine.Cmd bytes) }
{}

/// Appends the text of a response: two lower-case hexadecimal digits for each byte, and LF. An `Err` is lack of memory.
#[tactic(auto, unfolding(crate::specs::Replies::hex_line))]
pub fn print_response(alloc: Global, response: &[u8], into: &mut Vec<u8>) -> Result<(), AllocError>
    ensures ok { OnOk result (into.new.items ≡ into.old.items ++ hex_line response.now) }
    ensures err { OnErr result (into.new.items ≡ into.old.items) }
{
    let mut text = hex::encode(alloc, response)?.into_bytes();
    text.push(LINE_FEED)?;
    into.extend_from_slice(&text)
}
