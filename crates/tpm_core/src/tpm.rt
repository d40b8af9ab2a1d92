//! The TPM: each command reads and changes its values.

ghost use Rattle.tpm_core.specs.declared.parts.TpmParts.{TpmParts};
ghost use Rattle.std.specs.Prelude.{List, ℕ, ◌≡◌, ◌≤◌, ◌∷◌, [], length};
ghost use Rattle.vt_base.specs.Buffer.{followed_by_zeros};
ghost use Rattle.tpm_core.specs.Answers.{Entry, PowerOn, Executed, powered_on, change_of, response, core_answer, values_after};
ghost use Rattle.tpm_core.specs.Responses.{IsResponse};
ghost use Rattle.tpm_core.specs.Steps.{after_change, IsConsistent, IsValid, IsInReach};

use crate::algorithm::{Banks, SHA256_DIGEST_SIZE, SHA384_DIGEST_SIZE};
use crate::command::Command;
use crate::parts::{PCR_COUNT, SEED_SIZE, TpmParts};
use crate::reader::command_at;
use crate::response::{PASSWORD_SESSION, answer_random, answer_registers, answer_with};
use crate::state_change::{boot, draw, extend, shut_down, start};
use crate::type_bounds::parts_are_valid;
use std::marker::Model;
use tpm_frame::{NO_SESSIONS, SESSIONS, write_short};
use vt_base::Buf;

/// A TPM; seen as its values, which always agree with one another.
#[derive(Drop)]
pub struct Tpm {
    parts: TpmParts,
}

impl Model for Tpm {
    ghost use Rattle.tpm_core.specs.declared.parts.TpmParts.{TpmParts};

    ghost Value = { TpmParts };

    ghost use Rattle.tpm_core.specs.Steps.{IsValid};

    ghost view = { λ t. t.parts };

    ghost invariant = { λ t. IsValid t.parts };
}

#[tactic(auto, unfolding(crate::specs::Answers::response))]
fn execute_command(parts: &mut TpmParts, command: Command, into: &mut Buf) -> usize
    requires { IsInReach parts.old.started command }
    ensures values { parts.new ≡ after_change parts.old (change_of parts.old command) }
    ensures size { result ≡ length (response parts.old command) }
    ensures bytes { into.new ≡ followed_by_zeros (response parts.old command) }
{
    match command {
        Command::Startup(mode) => {
            start(parts, mode);
            answer_with(NO_SESSIONS, &[], into)
        }
        Command::Shutdown(mode) => {
            shut_down(parts, mode);
            answer_with(NO_SESSIONS, &[], into)
        }
        Command::GetRandom(asked) => {
            let size = answer_random(parts, asked, into);
            draw(parts, asked);
            size
        }
        Command::PcrRead(selections) => answer_registers(parts, selections.as_slice(), into),
        Command::PcrExtend(extension) => {
            if let Some(register) = extension.register() {
                extend(parts, register, extension.measurements());
            }
            answer_with(SESSIONS, &PASSWORD_SESSION, into)
        }
    }
}

fn execute(parts: &mut TpmParts, command: &[u8], into: &mut Buf) -> usize
    requires { IsValid parts.old }
    ensures values { parts.new ≡ values_after parts.old (Executed command.now ∷ []) }
    ensures fit { IsValid parts.new }
    ensures size { result ≡ length (core_answer parts.old [] command.now) }
    ensures response { into.new ≡ followed_by_zeros (core_answer parts.old [] command.now) }
    ensures values_past { (b : TpmParts) (past : List Entry) → IsValid b → parts.old ≡ values_after b past
        → parts.new ≡ values_after b (Executed command.now ∷ past) }
    ensures size_past { (b : TpmParts) (past : List Entry) → IsValid b → parts.old ≡ values_after b past
        → result ≡ length (core_answer b past command.now) }
    ensures response_past { (b : TpmParts) (past : List Entry) → IsValid b → parts.old ≡ values_after b past
        → into.new ≡ followed_by_zeros (core_answer b past command.now) }
    ensures is_response { IsResponse (core_answer parts.old [] command.now) }
{
    match command_at(parts.banks, parts.started, parts.saved.is_some(), command) {
        Ok(command) => execute_command(parts, command, into),
        Err(refusal) => write_short(refusal.code(), into),
    }
}

fn power_on(parts: &mut TpmParts)
    requires { IsValid parts.old }
    ensures now { parts.new ≡ powered_on parts.old }
    ensures fit { IsValid parts.new }
    ensures past { (b : TpmParts) (past : List Entry) → IsValid b → parts.old ≡ values_after b past
        → parts.new ≡ values_after b (PowerOn ∷ past) }
{
    boot(parts);
}

impl Tpm {
    ghost use Rattle.tpm_core.specs.Fresh.{manufactured};

    /// A TPM with these banks that power never came to. Its random bytes are hashed from the seed: two TPMs of one seed
    /// give the same.
    #[tactic(auto, unfolding(crate::specs::Banks::blank_bank))]
    pub fn manufacture(seed: [u8; SEED_SIZE], banks: Banks) -> Tpm
        ensures parts { result ≡ manufactured seed banks }
        ensures fit { IsValid result }
        ensures no_past { values_after result [] ≡ result }
    {
        Tpm {
            parts: TpmParts {
                seed,
                banks,
                boots: 0,
                draws: 0,
                started: false,
                pcr: [[0; SHA256_DIGEST_SIZE]; PCR_COUNT],
                pcr384: [[0; SHA384_DIGEST_SIZE]; PCR_COUNT],
                counter: 0,
                saved: None,
            },
        }
    }

    /// A TPM that has these values, as where another left off.
    #[tactic(auto, using(crate::proofs::Law::no_past))]
    pub fn of_parts(parts: TpmParts) -> Tpm
        requires { IsConsistent parts }
        ensures parts { result ≡ parts }
        ensures fit { IsValid result }
        ensures no_past { values_after result [] ≡ result }
    {
        parts_are_valid(&parts);
        Tpm { parts }
    }

    /// Its values.
    #[tactic(auto, using(crate::proofs::Law::no_past))]
    pub fn parts(&self) -> &TpmParts
        ensures parts { result.now ≡ self.now }
        ensures fit { IsValid self.now }
        ensures no_past { values_after self.now [] ≡ self.now }
    {
        &self.parts
    }

    /// Power comes on: only the seed, the banks' number, the count of boots and the saved state outlast it. The TPM waits for a start.
    #[tactic(auto, using(crate::proofs::Law::no_past))]
    pub fn power_on(&mut self)
        ensures now { self.new ≡ powered_on self.old }
        ensures fit_before { IsValid self.old }
        ensures fit { IsValid self.new }
        ensures no_past { values_after self.new [] ≡ self.new }

        // Over any past that led here.
        ensures past { (b : TpmParts) (past : List Entry) → IsValid b → self.old ≡ values_after b past
            → self.new ≡ values_after b (PowerOn ∷ past) }
    {
        power_on(&mut self.parts);
    }

    /// Executes a command of any length, and answers the length of its response, which stands in `into`, followed by
    /// zeros. A command that fails a check changes nothing, and its response has the code of that check alone.
    pub fn execute(&mut self, command: &[u8], into: &mut Buf) -> usize
        ensures values { self.new ≡ values_after self.old (Executed command.now ∷ []) }
        ensures size { result ≡ length (core_answer self.old [] command.now) }
        ensures response { into.new ≡ followed_by_zeros (core_answer self.old [] command.now) }

        // Over any past that led here.
        ensures values_past { (b : TpmParts) (past : List Entry) → IsValid b → self.old ≡ values_after b past
            → self.new ≡ values_after b (Executed command.now ∷ past) }
        ensures size_past { (b : TpmParts) (past : List Entry) → IsValid b → self.old ≡ values_after b past
            → result ≡ length (core_answer b past command.now) }
        ensures response_past { (b : TpmParts) (past : List Entry) → IsValid b → self.old ≡ values_after b past
            → into.new ≡ followed_by_zeros (core_answer b past command.now) }

        ensures long { 10 ≤ length (core_answer self.old [] command.now) }
        ensures fits { length (core_answer self.old [] command.now) ≤ 3968 }
        ensures fit_before { IsValid self.old }
        ensures fit { IsValid self.new }
    {
        execute(&mut self.parts, command, into)
    }
}
