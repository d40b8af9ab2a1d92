//! The link to one emulator.
ghost use Rattle.std.specs.Prelude.{◌≡◌, ◌<◌, ◌≤◌, ◌&&◌, ℕ, List, Option, Bool, not, length, take, is_ok, option_map, IfOk, IfSome};
ghost use Rattle.std.specs.Io.{ReadsAtMost};
ghost use Rattle.vt_base.specs.Faults.{Counts};
ghost use Rattle.ctrl_model.specs.Emulator.{is_nil};
ghost use Rattle.ctrl_model.specs.Link.{Link, LinkSteps, SentBy, received, cut, receivable};
ghost use Rattle.ctrl_client.specs.Traffic.{after_send, after_receive};

use vt_base::{Chan, Failed};

/// The link to one emulator: bytes of control messages and of commands go to it, and replies and responses come back.
pub trait Wires {
    ghost use Rattle.ctrl_model.specs.Link.{Link};
    ghost use Rattle.ctrl_client.specs.Traffic.{Traffic};

    /// The emulator behind the wires and the bytes that wait on them, where it is known.
    ghost link: { Self → Option Link };

    /// How many calls have failed.
    ghost faults: { Self → ℕ };

    /// Which of the calls to come are to fail. Nothing rests on it where the link isn't known.
    ghost Schedule: { Type 0 };

    ghost schedule: { Self → Schedule };

    ghost fails: { Schedule → Bool };

    ghost later: { Schedule → Schedule };

    /// All bytes that were sent so far, and all that were received, where they keep them.
    ghost traffic: { Self → Option Traffic };

    /// A count that rises with cuts alone, and may stay at its last value.
    ghost cuts: { Self → ℕ };

    /// Sends bytes, all of them or none.
    fn send(&mut self, chan: Chan, bytes: &[u8]) -> Result<(), Failed>
        ensures link { LinkSteps (SentBy (is_ok result) chan bytes.now) (link self.old) (link self.new) }
        ensures fails { IfSome (link self.old) (λ _. is_ok result ≡ not (fails (schedule self.old))) }
        ensures schedule { IfSome (link self.old) (λ _. schedule self.new ≡ later (schedule self.old)) }
        ensures traffic { traffic self.new ≡ option_map (after_send chan bytes.now result) (traffic self.old) }
        ensures uncut { cuts self.new ≡ cuts self.old }
        ensures counts { Counts (faults self.old) (faults self.new) result };

    /// Gives the next bytes: at least one, unless the slice is empty.
    fn receive(&mut self, chan: Chan, into: &mut [u8]) -> Result<usize, Failed>
        ensures bound { ReadsAtMost result into.new }
        ensures some { 0 < length into.old → IfOk result (λ n. 0 < n) }
        ensures bytes { IfSome (link self.old) (λ l. IfOk result (λ n. take n into.new ≡ take (length into.old) (receivable chan l))) }
        ensures link { link self.new ≡ option_map (received (is_ok result) chan (length into.old)) (link self.old) }
        ensures fails { IfSome (link self.old) (λ l. is_ok result ≡ (not (fails (schedule self.old)) && not (is_nil (receivable chan l)))) }
        ensures schedule { IfSome (link self.old) (λ _. schedule self.new ≡ later (schedule self.old)) }
        ensures traffic { traffic self.new ≡ option_map (after_receive chan into.new result) (traffic self.old) }
        ensures uncut { cuts self.new ≡ cuts self.old }
        ensures counts { Counts (faults self.old) (faults self.new) result };

    /// Forgets the bytes that wait on a channel.
    fn cut(&mut self, chan: Chan)
        ensures link { link self.new ≡ option_map (cut chan) (link self.old) }
        ensures schedule { IfSome (link self.old) (λ _. schedule self.new ≡ schedule self.old) }
        ensures traffic { traffic self.new ≡ traffic self.old }
        ensures counts_cuts { cuts self.old ≤ cuts self.new }
        ensures faults { faults self.new ≡ faults self.old };
}
