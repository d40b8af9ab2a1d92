//! Laws of a guest that is moved between two hosts. Their calls do nothing.
ghost use Rattle.std.specs.Prelude.{◌≡◌, ◌-◌, ◌<◌, ◌^◌, ℕ, Option, length};
ghost use Rattle.vt_base.specs.Buffer.{zeros};
ghost use Rattle.crb_port.specs.Plain.{plain};
ghost use Rattle.crb_port.specs.declared.job.PortState.{PortState};
ghost use Rattle.crb_regs.specs.Access.{Access as AccessModel};
ghost use Rattle.crb_regs.specs.declared.phase.Phase.TheVariants.{Idle};
ghost use Rattle.device_record.specs.Records.{encode_record};
ghost use Rattle.crb_history.specs.Snapshot.{Snapshot};
ghost use Rattle.crb_history.specs.Device.{phase_of};
ghost use Rattle.crb_history.specs.Event.{History};
ghost use Rattle.vt_transcript.specs.OneHost.{OneHost};
ghost use Rattle.vt_seat.specs.Follows.{RefinesOneHost, tpm_at};
ghost use Rattle.vt_seat.specs.State.{WorldState};
ghost use Rattle.vt_seat.specs.Moves.{CanGo};
ghost use Rattle.vt_world.specs.Bus.{IsBusAfter};
ghost use Rattle.vt_world.specs.Moving.{PairCanMove, PairMoves, PairGivesUp, pieces_moved};
ghost use Rattle.vt_world.specs.Pairs.{PairLeads, running_world};
ghost use Rattle.vt_world.specs.State.{PairState};
ghost use Rattle.vt_world.specs.Placement.{Placement, IsPlaced, running_top, moved, given_up, pieces_by};
ghost use Rattle.vt_world.specs.Movable.{IsMovable, values_in, pieces_at};

use crb_machine::{held_devices_go_on, stopped_devices_go_on};
use crb_port::{PlainPort, Port};

/// A move takes the guest to the other host where it arrives, and leaves it where it is otherwise; and both hosts' epochs are
/// those of the move.
#[tactic(auto, using(crate::proofs::Placing::pair_placed, crate::proofs::Placing::pair_back))]
pub fn moves_place_hosts<P: Port>()
    ensures moved { (lost : Option ℕ) (s : Placement) (old new : PairState P) (m : PairMoves P.port_view lost old new) → PairCanMove P.port_view old → IsPlaced s old
        → IsPlaced (moved (pieces_moved P.port_view lost old new m) lost s) new }
    ensures given_up { (s : Placement) (old new : PairState P) → PairGivesUp P.port_view old new → IsPlaced s old → IsPlaced (given_up s) new }
{}

/// An access of the guest leaves it where it is.
#[tactic(auto, using(crate::proofs::Movable::kept))]
pub fn accesses_keep_the_placement()
    ensures kept { (piece : ℕ) (s : Placement) (old new : PairState PortState) (a : AccessModel) (value : ℕ) → IsMovable piece s old → PairLeads old a value new → IsMovable piece s new }
{}

/// A guest whose history lets it be suspended can be moved. After the move it stands where its history leads, at the other host
/// or, where the move failed, at the same one; and from there it can be moved again.
pub fn guests_can_move()
    ensures can_move { (b : Snapshot) (h : OneHost) (piece : ℕ) (s : Placement) (w : PairState PortState) → IsMovable piece s w → CanGo b h (running_world w)
        → running_top s < 2 ^ 64 - 1 → PairCanMove plain w }
    ensures moved { (b : Snapshot) (h : OneHost) (piece : ℕ) (lost : Option ℕ) (s : Placement) (old new : PairState PortState) → IsMovable piece s old → CanGo b h (running_world old)
        → PairMoves plain lost old new → IsMovable piece (moved (pieces_at piece (running_world old)) lost s) new × RefinesOneHost b h (running_world new) }
    ensures given_up { (b : Snapshot) (h : OneHost) (piece : ℕ) (s : Placement) (old new : PairState PortState) → IsMovable piece s old → CanGo b h (running_world old)
        → PairGivesUp plain old new → IsMovable piece (given_up s) new × RefinesOneHost b h (running_world new) }
{
    held_devices_go_on();
    stopped_devices_go_on::<PlainPort>();
    vt_seat::laws::guests_go_on();
}

/// The record of a guest that prepares no command has 23 bytes, if its history began with zeros in the buffer or not idle.
pub fn idle_guests_have_short_records()
    ensures short { (b : Snapshot) (p : History) (w : WorldState) → (b.device.phase ≡ Idle → b.device.content ≡ zeros 3968) → IsBusAfter b p w → phase_of b p ≡ Idle
        → length (encode_record (values_in w)) ≡ 23 }
    ensures pieces { (b : Snapshot) (p : History) (piece : ℕ) (w : WorldState) → (b.device.phase ≡ Idle → b.device.content ≡ zeros 3968) → IsBusAfter b p w → phase_of b p ≡ Idle
        → pieces_at piece w ≡ pieces_by piece 23 (tpm_at b p) }
{
    vt_seat::laws::guests_go_on();
}
