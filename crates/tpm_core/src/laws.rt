//! Laws of pasts and of answers.

ghost use Rattle.std.specs.Prelude.{◌≡◌, ◌≢◌, ◌↔◌, ℕ, List, [], ◌∷◌, ◌++◌, take, IsTrue, true, false};
ghost use Rattle.std.specs.Int.{w32};
ghost use Rattle.vt_base.specs.Numbers.{big_endian_at};
ghost use Rattle.tpm_frame.specs.Frames.{IsFrame};
ghost use Rattle.tpm_core.specs.declared.command.Selection.{Selection};
ghost use Rattle.tpm_core.specs.declared.parts.TpmParts.{TpmParts};
ghost use Rattle.tpm_core.specs.Answers.{Entry, Executed, more_read_by, reply_to_more, values_after, core_answer, answer, passes};
ghost use Rattle.tpm_core.specs.MoreCommands.{is_more_command};
ghost use Rattle.tpm_core.specs.Steps.{IsValid};
ghost use Rattle.tpm_core.specs.Responses.{IsResponse, cancelled};
ghost use Rattle.tpm_core.specs.Selected.{all_registers, chosen_of, wanted_of};

/// Looking back over one past and the one before it is looking back over both.
pub fn pasts_join()
    ensures values { (b : TpmParts) (later sooner : List Entry) → IsValid b
        → values_after b (later ++ sooner) ≡ values_after (values_after b sooner) later }
    ensures answers { (b : TpmParts) (later sooner : List Entry) (command : List ℕ) → IsValid b
        → answer b (later ++ sooner) command ≡ answer (values_after b sooner) later command }
    ensures nothing { (b : TpmParts) → IsValid b → values_after b [] ≡ b }
    ensures fit { (b : TpmParts) (past : List Entry) → IsValid b → IsValid (values_after b past) }
{}

/// Each answer is a response and a frame, and none is that to a command that was cancelled.
pub fn answers_are_responses()
    ensures response { (b : TpmParts) (past : List Entry) (command : List ℕ) → IsValid b
        → IsResponse (answer b past command) }
    ensures frame { (b : TpmParts) (past : List Entry) (command : List ℕ) → IsValid b
        → IsFrame (answer b past command) }
    ensures not_cancelled { (b : TpmParts) (past : List Entry) (command : List ℕ) →
        answer b past command ≢ cancelled }

    // The response code is 0 exactly where the command passed each check.
    ensures succeeded { (b : TpmParts) (past : List Entry) (command : List ℕ) →
        (big_endian_at w32 6 (answer b past command) ≡ 0) ↔ IsTrue (passes (values_after b past) command) }
{
    tpm_frame::laws::sized_bytes_are_frames();
}

/// SelfTest, GetCapability, GetTestResult and Hash change nothing, whatever becomes of them; every other command is
/// answered as by `Tpm::execute`.
pub fn more_commands_change_nothing()
    ensures values { (b : TpmParts) (past : List Entry) (command : List ℕ) → is_more_command command ≡ true
        → values_after b (Executed command ∷ past) ≡ values_after b past }
    ensures answer { (b : TpmParts) (past : List Entry) (command : List ℕ) → is_more_command command ≡ true
        → answer b past command ≡ reply_to_more (more_read_by (values_after b past) command) }
    ensures others { (b : TpmParts) (past : List Entry) (command : List ℕ) → is_more_command command ≡ false
        → answer b past command ≡ core_answer b past command }
{}

/// A read reads the first eight of the registers that its maps select, in their order.
pub fn first_eight_are_read()
    ensures { (selections : List Selection) → all_registers (chosen_of 8 selections) ≡ take 8 (wanted_of selections) }
{}
