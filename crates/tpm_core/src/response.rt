//! The responses to commands that did what they do.

ghost use Rattle.std.specs.Prelude.{◌≡◌, ◌<◌, ◌≤◌, ◌+◌, ◌*◌, ◌++◌, length};
ghost use Rattle.std.specs.List.{flat_map};
ghost use Rattle.vt_base.specs.Buffer.{followed_by_zeros};
ghost use Rattle.tpm_core.specs.Selected.{AreThere, all_registers, chosen_of};
ghost use Rattle.tpm_core.specs.Answers.{with_header, entry_read, digest_read, response};

use crate::algorithm::{Algorithm, SHA256_DIGEST_SIZE, SHA384_DIGEST_SIZE};
use crate::array_vec::ArrayVec;
use crate::command::{Command, LIST_SIZE, SELECT_SIZE, Selection};
use crate::parts::TpmParts;
use crate::selected::{READ_AT_ONCE, Register, append, bits_of, chosen};
use crate::state_change::{BLOCK_SIZE, next_block};
use tpm_frame::{HEADER_SIZE, NO_SESSIONS, SUCCESS};
use vt_base::{Buf, ByteBuf};

/// How many bytes the longest digest has of any algorithm that a bank may have.
const LONGEST_DIGEST_SIZE: usize = 64;

/// How many bytes an entry of the answer to a read has: algorithm, size and bits of a selection.
const ENTRY_SIZE: usize = 2 + 1 + SELECT_SIZE;

/// How many bytes a response has at most. The longest is that to a read of as many registers as can be, whose body has
/// counter, count, entries, count and digests.
const RESPONSE_SIZE: usize = HEADER_SIZE
    + 4
    + 4
    + LIST_SIZE * ENTRY_SIZE
    + 4
    + READ_AT_ONCE * (2 + LONGEST_DIGEST_SIZE);

/// What the response to an extend ends with: no parameters, and the session of the empty password.
pub const PASSWORD_SESSION: [u8; 9] = [0, 0, 0, 0, 0, 0, 1, 0, 0];

type Body = ByteBuf<RESPONSE_SIZE>;

/// Writes a response with this body, and answers its length.
pub fn answer_with(tag: u16, body: &[u8], into: &mut Buf) -> usize
    requires { length body.now ≤ 636 }
    ensures size { result ≡ length (with_header tag body.now) }
    ensures bytes { into.new ≡ followed_by_zeros (with_header tag body.now) }
{
    let size = HEADER_SIZE + body.len();
    let mut response = Body::new();
    response.push(&tag.to_be_bytes());
    response.push(&(size as u32).to_be_bytes());
    response.push(&SUCCESS.to_be_bytes());
    response.push(body);
    into.hold(response.as_slice());
    size
}

/// Answers with a block of random bytes, or with as many bytes of it as are asked for.
#[tactic(auto, unfolding(crate::specs::Answers::response))]
pub fn answer_random(parts: &TpmParts, asked: u16, into: &mut Buf) -> usize
    ensures size { result ≡ length (response parts.now (Command.GetRandom asked)) }
    ensures bytes { into.new ≡ followed_by_zeros (response parts.now (Command.GetRandom asked)) }
{
    let size = (asked as usize).min(BLOCK_SIZE);
    let block = next_block(parts);
    let mut body = Body::new();
    body.push(&(size as u16).to_be_bytes());
    body.push(&block[..size]);
    answer_with(NO_SESSIONS, body.as_slice(), into)
}

/// Adds an entry for each selection, and answers the registers that they select.
fn push_entries(selections: &[Selection], body: &mut Body) -> ArrayVec<Register, READ_AT_ONCE>
    requires within_limit { length selections.now ≤ 16 }
    requires room { length body.old ≤ 8 }
    ensures body { body.new ≡ body.old ++ flat_map entry_read (chosen_of 8 selections.now) }
    ensures registers { result ≡ all_registers (chosen_of 8 selections.now) }
    ensures there { AreThere result }
    ensures size { length body.new ≤ 104 }
{
    let mut all = ArrayVec::new(Register {
        algorithm: Algorithm::Sha256,
        index: 0,
    });
    for selection in selections {
        let indices = chosen(&selection.bits, READ_AT_ONCE - all.len());
        push_entry(selection.algorithm, indices.as_slice(), body);
        append(&mut all, selection.algorithm, indices.as_slice());
    }
    all
}

fn push_entry(algorithm: Algorithm, indices: &[usize], body: &mut Body)
    requires { length body.old + 6 ≤ 646 }
    ensures body { body.new ≡ body.old ++ entry_read (algorithm, indices.now) }
    ensures size { length body.new ≡ length body.old + 6 }
{
    body.push(&algorithm.identifier().to_be_bytes());
    body.push(&[SELECT_SIZE as u8]);
    body.push(&bits_of(indices));
}

fn push_digests(parts: &TpmParts, registers: &[Register], body: &mut Body)
    requires registers { AreThere registers.now }
    requires room { length body.old + 66 * length registers.now ≤ 646 }
    ensures body { body.new ≡ body.old ++ flat_map (digest_read parts.now) registers.now }
    ensures size { length body.new ≤ length body.old + 66 * length registers.now }
{
    for register in registers {
        push_digest(parts, *register, body);
    }
}

fn push_digest(parts: &TpmParts, register: Register, body: &mut Body)
    requires room { length body.old + 66 ≤ 646 }
    requires register { register.index < 24 }
    ensures body { body.new ≡ body.old ++ digest_read parts.now register }
    ensures size { length body.new ≤ length body.old + 66 }
{
    match register.algorithm {
        Algorithm::Sha256 => {
            body.push(&(SHA256_DIGEST_SIZE as u16).to_be_bytes());
            body.push(&parts.pcr[register.index]);
        }
        Algorithm::Sha384 => {
            body.push(&(SHA384_DIGEST_SIZE as u16).to_be_bytes());
            body.push(&parts.pcr384[register.index]);
        }
    }
}

/// Answers with the values of the registers that the selections select.
#[tactic(auto, unfolding(crate::specs::Answers::response, crate::specs::Answers::registers_read))]
pub fn answer_registers(parts: &TpmParts, selections: &[Selection], into: &mut Buf) -> usize
    requires { length selections.now ≤ 16 }
    ensures size { result ≡ length (response parts.now (Command.PcrRead selections.now)) }
    ensures bytes { into.new ≡ followed_by_zeros (response parts.now (Command.PcrRead selections.now)) }
{
    let mut body = Body::new();
    body.push(&parts.counter.to_be_bytes());
    body.push(&(selections.len() as u32).to_be_bytes());
    let registers = push_entries(selections, &mut body);
    body.push(&(registers.len() as u32).to_be_bytes());
    push_digests(parts, registers.as_slice(), &mut body);
    answer_with(NO_SESSIONS, body.as_slice(), into)
}
