//! The phase table: what a write does in each phase.
ghost use Rattle.std.specs.Prelude.{◌≡◌};
ghost use Rattle.crb_machine.specs.Phases.{next_phase as phase_next};

use crb_regs::{Effect, Phase};

/// The phase after a write of this effect, or `None` where the write isn't accepted.
pub fn next_phase(effect: Effect, granted: bool, phase: Phase) -> Option<Phase>
    ensures { result ≡ phase_next effect granted phase }
{
    match effect {
        Effect::CmdReady => match phase {
            Phase::Idle | Phase::Completion => Some(Phase::Ready),
            _ => None,
        },
        Effect::GoIdle => match phase {
            Phase::Ready | Phase::Reception | Phase::Completion => Some(Phase::Idle),
            _ => None,
        },
        Effect::Buffer => match phase {
            Phase::Ready | Phase::Reception => Some(Phase::Reception),
            _ => None,
        },
        Effect::Start => match phase {
            Phase::Reception if granted => Some(Phase::Execution),
            _ => None,
        },
        Effect::Cancel(_) | Effect::Request | Effect::Relinquish => match phase {
            Phase::Lost => None,
            _ => Some(phase),
        },
        Effect::Nothing => None,
    }
}
