//! The command channel: a command comes in parts, is held whole, and is answered.

ghost use Rattle.std.specs.Prelude.{◌≡◌, Some, false, ◌≤◌, [], length, is_some, None, option_map, Option, IfSome, IsNone, ◌⊎◌, ◌↔◌};
ghost use Rattle.vt_base.specs.Buffer.{followed_by_zeros};
ghost use Rattle.tpm_core.specs.Steps.{IsValid};
ghost use Rattle.ctrl_model.specs.Emulator.{HandlesRequest, resulted, response_of, executed_by, response_to, ran};
ghost use Rattle.vt_emulator.specs.CoreStates.{RunsHeld, Takes, command_channel_of, with_command_channel};

use crate::emulator_core::EmulatorCore;
use ctrl_codec::Request;
use ctrl_model::SUCCESS;
use tpm_core::Tpm;
use tpm_frame::{CANCELED, FAILURE, Took, write_short};
use tpm_more::execute_more;
use vt_base::Buf;

/// The response of the TPM, if there is one, which then executed the command.
fn execute(tpm: &mut Option<Tpm>, command: &[u8], into: &mut Buf) -> usize
    ensures tpm { tpm.new ≡ option_map (executed_by command.now) tpm.old }
    ensures fit { IfSome tpm.old IsValid → IfSome tpm.new IsValid }
    ensures size { result ≡ length (response_of tpm.old command.now) }
    ensures response { into.new ≡ followed_by_zeros (response_of tpm.old command.now) }
    ensures long { 10 ≤ result }
    ensures within_limit { result ≤ 3968 }
{
    match tpm {
        Some(tpm) => execute_more(tpm, command, into),
        None => write_short(FAILURE, into),
    }
}

impl EmulatorCore {
    ghost use Rattle.vt_emulator.specs.Emulator.{IsConsistentEmulator};

    /// Takes bytes of a command.
    pub(crate) fn feed(&mut self, bytes: &[u8]) -> Took
        ensures within { result.used ≤ length bytes.now }
        ensures feeds { Takes (is_some self.old.emulator.held) bytes.now result.used result.whole (command_channel_of self.old) (command_channel_of self.new) }
        ensures kept { self.new ≡ with_command_channel (command_channel_of self.new) self.old }
        ensures consistent { IsConsistentEmulator self.new.emulator }
    {
        self.commands.feed(bytes)
    }

    /// Whether a whole command is held.
    pub(crate) fn holds(&self) -> bool
        ensures { result ≡ is_some self.now.emulator.held }
    {
        self.commands.holds()
    }

    /// Forgets the part of a command that came so far.
    pub(crate) fn forget(&mut self)
        ensures { self.new ≡ record self.old { command = [] } }
    {
        self.commands.forget();
    }

    /// Writes the response to the command that is held, which is executed where the TPM is on and no cancel came.
    pub(crate) fn respond(&mut self, into: &mut Buf) -> usize
        ensures state { IfSome self.old.emulator.held (λ h. self.new ≡ record self.old { emulator = record (ran h self.old.emulator) { held = Some h } }) }
        ensures size { IfSome self.old.emulator.held (λ h. result ≡ length (response_to h self.old.emulator)) }
        ensures response { IfSome self.old.emulator.held (λ h. into.new ≡ followed_by_zeros (response_to h self.old.emulator)) }
        ensures long { 10 ≤ result }
        ensures within_limit { result ≤ 3968 }
    {
        if !self.on {
            return write_short(FAILURE, into);
        }
        if self.commands.is_cancelled() {
            return write_short(CANCELED, into);
        }
        self.stored = false;
        execute(&mut self.tpm, self.commands.command(), into)
    }

    /// Answers the command that is held, and drops it.
    pub(crate) fn run_held(&mut self, into: &mut Buf) -> usize
        ensures runs { RunsHeld self.old.emulator.held result into.old into.new self.old self.new }
        ensures within_limit { result ≤ 3968 }
        ensures some { (result ≡ 0) ⊎ (10 ≤ result) }
        ensures none { (result ≡ 0) ↔ IsNone self.old.emulator.held }
        ensures dropped { self.new.emulator.held ≡ None }
        ensures consistent { IsConsistentEmulator self.new.emulator }
    {
        if !self.commands.holds() {
            return 0;
        }
        let size = self.respond(into);
        self.commands.clear();
        size
    }

    /// CANCEL_TPM_CMD: for the command that is held, if there is one.
    pub(crate) fn cancel(&mut self) -> u32
        ensures step { HandlesRequest Request.CancelCommand [] self.old.emulator (resulted result self.new.emulator) }
        ensures command { self.new.command ≡ self.old.command }
    {
        self.commands.cancel();
        SUCCESS
    }
}
