//! Laws of what passes over a channel. Their calls do nothing.

ghost use Rattle.std.specs.Prelude.{◌≡◌, ◌++◌, ℕ, List, length};
ghost use Rattle.vt_base.specs.declared.types.Chan.{Chan};
ghost use Rattle.ctrl_model.specs.Emulator.{EmulatorState};
ghost use Rattle.emulator_server.specs.Messages.{AnsweredMessage, AnswersMessages, messages_read};
ghost use Rattle.emulator_server.specs.Dialogues.{BringsNone};

/// Over one emulator the same bytes are the same messages with the same replies, however they come.
pub fn dialogues_are_unique()
    // Two dialogues of as many messages are one.
    ensures counted { (chan : Chan) (xs ys : List AnsweredMessage) (rest left : List ℕ) (d f g : EmulatorState)
        → AnswersMessages chan xs d f → AnswersMessages chan ys d g → messages_read xs ++ rest ≡ messages_read ys ++ left
        → length xs ≡ length ys → (xs ≡ ys) × (rest ≡ left) × (f ≡ g) }

    // So are two behind which no message comes.
    ensures complete { (chan : Chan) (xs ys : List AnsweredMessage) (rest left : List ℕ) (d f g : EmulatorState)
        → AnswersMessages chan xs d f → AnswersMessages chan ys d g → messages_read xs ++ rest ≡ messages_read ys ++ left
        → BringsNone chan rest f → BringsNone chan left g → (xs ≡ ys) × (rest ≡ left) × (f ≡ g) }
{
    vt_base::encodings_are_prefix_free::<()>();
    ctrl_codec::laws::requests_are_prefix_free();
    vt_emulator::laws::steps_are_deterministic();
}
