//! Whatever control messages and commands can be given to.

ghost use Rattle.std.specs.Prelude.{◌≡◌, ◌≤◌, ◌↔◌, ◌⊎◌, [], false, length, None, IfSome, IsNone};
ghost use Rattle.std.specs.Bool.{OnFalse};
ghost use Rattle.vt_emulator.specs.Emulator.{BufferedEmulator, IsConsistentEmulator, EmulatorSteps, Controls, Feeds, Runs};

use ctrl_codec::Out;
use tpm_frame::Took;
use vt_base::Buf;

/// What control bytes came to.
#[derive(Clone, Copy, Debug, PartialEq, Eq)]
pub struct Heard {
    /// How many bytes were taken.
    pub used: usize,
    /// Whether the control channel is closed now.
    pub closed: bool,
}

/// An emulator as its two channels see it.
pub trait Desk {
    ghost use Rattle.std.specs.Prelude.{Option};
    ghost use Rattle.vt_emulator.specs.Emulator.{BufferedEmulator};

    /// What it is, where that is known.
    ghost state: { Self → Option BufferedEmulator };

    /// Takes control bytes up to the end of one request, and writes the reply once the request is whole. A SHUTDOWN, a code
    /// outside the profile and the length of a blob above 4096 close the channel, after their replies; from then on
    /// nothing is taken. `out` must be empty.
    fn control(&mut self, bytes: &[u8], out: &mut Out) -> Heard
        requires empty { out.old ≡ [] }
        ensures within { result.used ≤ length bytes.now }

        // Where nothing is answered, all bytes are taken or the channel is closed.
        ensures all { out.new ≡ [] → result.closed ≡ false → result.used ≡ length bytes.now }
        ensures step { EmulatorSteps (Controls bytes.now result.used out.new) (state self.old) (state self.new) }
        ensures closed { IfSome (state self.new) (λ e. result.closed ≡ e.emulator.closed) }
        ensures consistent { IfSome (state self.new) (λ e. IsConsistentEmulator e.emulator) };

    /// Takes bytes up to the end of one command, and holds it once it is whole. While a command is held nothing is taken.
    fn data(&mut self, bytes: &[u8]) -> Took
        ensures within { result.used ≤ length bytes.now }
        ensures all { OnFalse result.whole (result.used ≡ length bytes.now) }
        ensures step { EmulatorSteps (Feeds bytes.now result.used result.whole) (state self.old) (state self.new) }
        ensures consistent { IfSome (state self.new) (λ e. IsConsistentEmulator e.emulator) };

    /// Answers the command that is held, and drops it: its response stands in `into`, followed by zeros, and has so many
    /// bytes. Where no command is held the answer is 0, and nothing changes.
    fn run_held(&mut self, into: &mut Buf) -> usize
        ensures within_limit { result ≤ 3968 }
        ensures some { (result ≡ 0) ⊎ (10 ≤ result) }
        ensures step { EmulatorSteps (Runs result into.old into.new) (state self.old) (state self.new) }
        ensures none { IfSome (state self.old) (λ e. (result ≡ 0) ↔ IsNone e.emulator.held) }
        ensures dropped { IfSome (state self.new) (λ e. IsNone e.emulator.held) }
        ensures consistent { IfSome (state self.new) (λ e. IsConsistentEmulator e.emulator) };
}
