//! The pending command.

ghost use Rattle.std.specs.Prelude.{◌≡◌, ◌≤◌, [], length, is_some, true, None, option_map, IfOk, IfSome};
ghost use Rattle.ctrl_model.specs.Emulator.{cancelled_command};
ghost use Rattle.vt_emulator.specs.CoreStates.{Takes};

use std::alloc::{AllocError, Global};
use std::marker::Model;
use tpm_frame::{Cutter, Took};

/// The part of a command that came so far, or the whole one that is held, and whether a cancel came for it.
#[derive(Drop)]
pub(crate) struct Commands {
    cutter: Cutter,
    whole: bool,
    cancelled: bool,
}

impl Model for Commands {
    ghost use Rattle.std.specs.Bool.{OnTrue, OnFalse};
    ghost use Rattle.tpm_frame.specs.Frames.{IsFrame, IsPartOfFrame};
    ghost use Rattle.vt_emulator.specs.CoreStates.{CommandChannel, command_channel};

    ghost Value = { CommandChannel };

    ghost view = { λ c. command_channel c.whole c.cancelled c.cutter };

    ghost invariant = { λ c. OnTrue c.whole (IsFrame c.cutter) × OnFalse c.whole (IsPartOfFrame c.cutter) };
}

impl Commands {
    /// No byte of a command.
    #[tactic(auto, using(crate::proofs::Frames::part_nil))]
    pub(crate) fn new(alloc: Global) -> Result<Commands, AllocError>
        ensures { IfOk result (λ c. c ≡ record { begun = []; held = None }) }
    {
        Ok(Commands {
            cutter: Cutter::new(alloc)?,
            whole: false,
            cancelled: false,
        })
    }

    /// Whether a whole command is held.
    pub(crate) fn holds(&self) -> bool
        ensures whole { result ≡ is_some self.now.held }
        ensures no_part { result ≡ true → self.now.begun ≡ [] }
    {
        self.whole
    }

    /// Whether a cancel came for the command that is held.
    pub(crate) fn is_cancelled(&self) -> bool
        ensures { IfSome self.now.held (λ h. result ≡ h.cancelled) }
    {
        self.cancelled
    }

    /// The command that is held.
    pub(crate) fn command(&self) -> &[u8]
        ensures { IfSome self.now.held (λ h. result.now ≡ h.command) }
    {
        self.cutter.held()
    }

    /// Takes bytes up to the end of one command, and none while a whole one is held. One that becomes whole isn't
    /// cancelled.
    pub(crate) fn feed(&mut self, bytes: &[u8]) -> Took
        ensures within { result.used ≤ length bytes.now }
        ensures takes { Takes (is_some self.old.held) bytes.now result.used result.whole self.old self.new }
    {
        if self.whole {
            return Took {
                used: 0,
                whole: true,
            };
        }
        let took = self.cutter.feed(bytes);
        self.whole = took.whole;
        self.cancelled = false;
        took
    }

    /// Notes that a cancel came for the command that is held, if there is one.
    pub(crate) fn cancel(&mut self)
        ensures { self.new ≡ record self.old { held = option_map cancelled_command self.old.held } }
    {
        self.cancelled = true;
    }

    /// Forgets the part of a command that came so far. A whole one stays.
    #[tactic(auto, using(crate::proofs::Frames::part_nil))]
    pub(crate) fn forget(&mut self)
        ensures { self.new ≡ record self.old { begun = [] } }
    {
        if !self.whole {
            self.cutter.drop_held();
        }
    }

    /// Drops the command that is held, or the part of one.
    #[tactic(auto, using(crate::proofs::Frames::part_nil))]
    pub(crate) fn clear(&mut self)
        ensures { self.new ≡ record { begun = []; held = None } }
    {
        self.cutter.drop_held();
        self.whole = false;
    }
}
