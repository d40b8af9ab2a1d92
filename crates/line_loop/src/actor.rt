//! What does the lines of an input.
ghost use Rattle.std.specs.Prelude.{◌≡◌, ℕ, List, MatchResult};
ghost use Rattle.line_loop.specs.Actors.{MayAct, Acts};

use std::alloc::{AllocError, Global};

/// What came of a line.
#[derive(Clone, Copy, Debug, PartialEq, Eq)]
pub enum Acted {
    /// It was done.
    Done,
    /// It isn't in the grammar, and nothing was done.
    NotInGrammar,
}

/// What does the lines of an input, one by one.
pub trait Actor {
    ghost use Rattle.line_loop.specs.Actors.{Course};

    /// What lines do: the actor before the first of them, the lines, what is written for them, and the actor after the
    /// last.
    ghost goes: { Course Self };

    /// Whether a line isn't in the grammar.
    ghost outside: { List ℕ → Type 0 };

    /// Does a line, and appends what is written for it. For lack of memory nothing is appended.
    fn act(&mut self, alloc: Global, line: &[u8], into: &mut Vec<u8>) -> Result<Acted, AllocError>
        requires may_act { MayAct goes self.old }
        ensures acts { MatchResult result (λ acted. Acts goes outside acted line.now self.old self.new into.old.items into.new.items) (λ _. into.new.items ≡ into.old.items) };
}
