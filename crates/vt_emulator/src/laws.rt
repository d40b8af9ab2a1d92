//! Laws of the two channels, for proofs above. Their calls do nothing.

ghost use Rattle.std.specs.Prelude.{◌≡◌, ◌≢◌, ◌+◌, ◌≤◌, ◌++◌, [], List, ℕ, Bool, true, false, length};
ghost use Rattle.ctrl_model.specs.Emulator.{EmulatorState, RequestOutcome};
ghost use Rattle.ctrl_model.specs.Link.{Heard, Hears};
ghost use Rattle.vt_emulator.specs.Emulator.{BufferedEmulator, Controls, Feeds, closes};

/// Control bytes come to the same in any pieces.
pub fn control_in_parts()
    // A piece that is answered by nothing and leaves the channel open, and the next one, come to the same as both at once.
    ensures joins { (first next : List ℕ) (used more : ℕ) (reply last : List ℕ) (e f g : BufferedEmulator)
        → Controls first used reply e f → reply ≡ [] → f.emulator.closed ≡ false → Controls next more last f g
        → Controls (first ++ next) (used + more) last e g }

    // What follows a whole message changes nothing of it.
    ensures ends { (bytes behind : List ℕ) (used : ℕ) (reply : List ℕ) (e f : BufferedEmulator) → used ≤ length bytes
        → Controls bytes used reply e f → reply ≢ [] → Controls (bytes ++ behind) used reply e f }
{}

/// Bytes of commands come to the same in any pieces.
pub fn command_in_parts()
    // A piece after which no command is held, and the next one, come to the same as both at once.
    ensures joins { (first next : List ℕ) (used more : ℕ) (whole : Bool) (e f g : BufferedEmulator)
        → Feeds first used false e f → Feeds next more whole f g → Feeds (first ++ next) (used + more) whole e g }

    // What follows a whole command changes nothing of it.
    ensures ends { (bytes behind : List ℕ) (used : ℕ) (e f : BufferedEmulator) → used ≤ length bytes
        → Feeds bytes used true e f → Feeds (bytes ++ behind) used true e f }
{}

/// Three messages close the channel and no other: SHUTDOWN, a code outside the profile, and a length above the limit.
pub fn three_close()
    ensures { (heard : Heard) (d : EmulatorState) (request_outcome : RequestOutcome) → d.closed ≡ false → Hears heard d request_outcome → request_outcome.emulator.closed ≡ closes heard }
{}

/// A message does one thing to an emulator, and has one reply.
pub fn steps_are_deterministic()
    ensures { (heard : Heard) (d : EmulatorState) (s t : RequestOutcome) → Hears heard d s → Hears heard d t → s ≡ t }
{
    state_blobs::laws::tpms_are_assembled_once();
}
