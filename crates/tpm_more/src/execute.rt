//! All nine commands.

ghost use Rattle.std.specs.Prelude.{◌≡◌, ◌≤◌, ◌∷◌, [], List, length, is_some, IfSome, OnSome};
ghost use Rattle.vt_base.specs.Buffer.{followed_by_zeros};
ghost use Rattle.tpm_core.specs.declared.parts.TpmParts.{TpmParts};
ghost use Rattle.tpm_core.specs.Steps.{IsValid};
ghost use Rattle.tpm_core.specs.Answers.{Entry, Executed, more_read_by, reply_to_more, answer, values_after};
ghost use Rattle.tpm_core.specs.MoreCommands.{header_of, is_more_command, more_at};

use crate::commands::{body_by, is_more};
use crate::entry::Body;
use tpm_core::{Banks, Refusal, Tpm, TpmParts, answer_with, check_started_and_sessions};
use tpm_frame::{HEADER_SIZE, Head, NO_SESSIONS, SESSIONS, SIZE_FIELD, is_tag, write_short};
use vt_base::{Buf, u16_at, u32_at};

/// What the header says, where it passes the checks but that of its code, and the code is one of the four.
#[tactic(auto, unfolding(tpm_core::specs::MoreCommands::is_more_command))]
fn more_head(command: &[u8]) -> Option<Head>
    ensures head { IfSome result (λ head. head ≡ header_of command.now) }
    ensures more { is_some result ≡ is_more_command command.now }
    ensures long { OnSome result (10 ≤ length command.now) }
{
    if command.len() < HEADER_SIZE {
        return None;
    }
    let tag = u16_at(command, 0);
    let code = u32_at(command, 6);
    if is_tag(tag) && u32_at(command, SIZE_FIELD) as usize == command.len() && is_more(code) {
        Some(Head {
            sessions: tag == SESSIONS,
            code,
        })
    } else {
        None
    }
}

#[tactic(auto, unfolding(tpm_core::specs::MoreCommands::more_at))]
fn more_at(banks: Banks, started: bool, head: Head, command: &[u8]) -> Result<Body, Refusal>
    requires head { head ≡ header_of command.now }
    requires long { 10 ≤ length command.now }
    ensures { result ≡ more_at banks started command.now }
{
    let head = check_started_and_sessions(started, head)?;
    body_by(banks, head.code, &command[HEADER_SIZE..])
}

fn answer_more(parts: &TpmParts, head: Head, command: &[u8], into: &mut Buf) -> usize
    requires head { head ≡ header_of command.now }
    requires long { 10 ≤ length command.now }
    ensures size { result ≡ length (reply_to_more (more_read_by parts.now command.now)) }
    ensures response { into.new ≡ followed_by_zeros (reply_to_more (more_read_by parts.now command.now)) }
{
    match more_at(parts.banks, parts.started, head, command) {
        Ok(body) => answer_with(NO_SESSIONS, body.as_slice(), into),
        Err(refusal) => write_short(refusal.code(), into),
    }
}

/// Executes a command of any length, and answers the length of its response, which stands in `into`, followed by
/// zeros. A command that fails a check changes nothing, and its response has the code of that check alone.
pub fn execute_more(tpm: &mut Tpm, command: &[u8], into: &mut Buf) -> usize
    ensures values { tpm.new ≡ values_after tpm.old (Executed command.now ∷ []) }
    ensures size { result ≡ length (answer tpm.old [] command.now) }
    ensures response { into.new ≡ followed_by_zeros (answer tpm.old [] command.now) }

    // Over any past that led here.
    ensures values_past { (b : TpmParts) (past : List Entry) → IsValid b → tpm.old ≡ values_after b past
        → tpm.new ≡ values_after b (Executed command.now ∷ past) }
    ensures size_past { (b : TpmParts) (past : List Entry) → IsValid b → tpm.old ≡ values_after b past
        → result ≡ length (answer b past command.now) }
    ensures response_past { (b : TpmParts) (past : List Entry) → IsValid b → tpm.old ≡ values_after b past
        → into.new ≡ followed_by_zeros (answer b past command.now) }

    ensures long { 10 ≤ length (answer tpm.old [] command.now) }
    ensures fits { length (answer tpm.old [] command.now) ≤ 3968 }
    ensures fit_before { IsValid tpm.old }
    ensures fit { IsValid tpm.new }
{
    tpm_core::laws::answers_are_responses();
    tpm_core::laws::more_commands_change_nothing();
    match more_head(command) {
        Some(head) => answer_more(tpm.parts(), head, command, into),
        None => tpm.execute(command, into),
    }
}
