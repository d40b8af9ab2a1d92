//! Laws of guests that go on.
ghost use Rattle.crb_history.specs.Snapshot.{Snapshot};
ghost use Rattle.vt_transcript.specs.OneHost.{OneHost};
ghost use Rattle.vt_seat.specs.Follows.{RefinesOneHost};
ghost use Rattle.vt_seat.specs.State.{WorldState};
ghost use Rattle.vt_seat.specs.Moves.{CanGo, IsAtRest, GoesOnFrom};

/// A guest whose device was stopped goes on where its history leads, at its seat or at another one.
#[tactic(auto, using(crate::proofs::Moving::at_rest_here, crate::proofs::Moving::goes_on_here))]
pub fn guests_go_on()
    ensures rests { (b : Snapshot) (s : OneHost) (w : WorldState) → CanGo b s w → IsAtRest b s w }
    ensures goes_on { (b : Snapshot) (s : OneHost) (old new : WorldState) → CanGo b s old → GoesOnFrom old new → RefinesOneHost b s new }
{}
