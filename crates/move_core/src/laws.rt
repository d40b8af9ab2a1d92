//! Laws of hosts, for the crates above. A call of one does nothing: its contract is the law.
ghost use Rattle.std.specs.Prelude.{◌≡◌, ◌≢◌, ◌≤◌, ℕ, List, true, Ok, Err, Some};
ghost use Rattle.move_codec.specs.declared.message.Message.{Message};
ghost use Rattle.move_codec.specs.declared.message.Body.TheVariants as body;
ghost use Rattle.move_core.specs.declared.answers.Delivered.{Delivered};
ghost use Rattle.move_core.specs.declared.answers.OfferFault.{OfferFault};
ghost use Rattle.move_core.specs.Model.{HostModel};
ghost use Rattle.move_core.specs.declared.side.Side.TheVariants as side;
ghost use Rattle.move_core.specs.Requests.{WiresView};
ghost use Rattle.move_core.specs.declared.stage.MoveStage.TheVariants as stage;
ghost use Rattle.move_core.specs.declared.answers.Offered.TheVariants as offered;
ghost use Rattle.move_core.specs.declared.answers.Gave.{Gave};
ghost use Rattle.move_core.specs.declared.answers.Gave.TheVariants as gave;
ghost use Rattle.move_core.specs.Sides.{side_of, is_same};
ghost use Rattle.move_core.specs.Hosts.{IsConsistentHost};
ghost use Rattle.move_core.specs.Table.{delivered, ignored, sends};
ghost use Rattle.move_core.specs.Table.Row.{Ends};
ghost use Rattle.move_core.specs.Calls.{Follows, Offers, Drains, GivesUp, IsAsBefore, IsAsBeforeButTop};

use crb_machine::stopped_devices_go_on;
use crb_port::Port;
use ctrl_client::Wires;

/// An offer that is refused leaves the host as before, but for an answer that was collected from its port. An offer that was
/// made and taken back leaves it so too, but for the greatest epoch seen.
pub fn offers_are_undone<P: Port, W: Wires>()
    ensures refused { (h new : HostModel P) (w v : WiresView W.Schedule) (f : OfferFault) → IsConsistentHost P.port_view h → h.stage ≡ stage.Running → Offers P.port_view h w (Err f) v new → IsAsBefore P.port_view h new }
    ensures given_up { (h mid new : HostModel P) (w v : WiresView W.Schedule) (m a : Message) → IsConsistentHost P.port_view h → Offers P.port_view h w (Ok (offered.Sent m)) v mid → GivesUp P.port_view mid (gave.Abort a) new → IsAsBeforeButTop P.port_view h new }
{
    stopped_devices_go_on::<P>();
}

/// A host that drained and whose offer is refused runs, and is otherwise as it was while it drained, but for the answer that
/// was collected from its port: the worker's steps in between stay done. So is one whose offer was made and taken back, but
/// for the greatest epoch seen. One that is given up while it drains runs, sends nothing, and is otherwise the same.
pub fn draining_is_undone<P: Port, W: Wires>()
    ensures refused { (h new : HostModel P) (w v : WiresView W.Schedule) (f : OfferFault) → IsConsistentHost P.port_view h → h.stage ≡ stage.Draining → Drains P.port_view h w (Err f) v new
        → IsAsBefore P.port_view (record h { stage = stage.Running }) new }
    ensures given_up { (h mid new : HostModel P) (w v : WiresView W.Schedule) (m a : Message) → IsConsistentHost P.port_view h → h.stage ≡ stage.Draining → Drains P.port_view h w (Ok (Some m)) v mid
        → GivesUp P.port_view mid (gave.Abort a) new → IsAsBeforeButTop P.port_view (record h { stage = stage.Running }) new }
    ensures undrained { (h new : HostModel P) (answer : Gave) → h.stage ≡ stage.Draining → GivesUp P.port_view h answer new → (answer ≡ gave.Undrained) × (new ≡ record h { stage = stage.Running }) }
{
    stopped_devices_go_on::<P>();
}

/// Messages that come late or again. These are ignored: an Offer whose epoch isn't above the greatest one seen, a Commit to a
/// host that isn't prepared in its epoch, and a Prepared to one that neither offers nor has let go in its epoch. A host that
/// has let go answers a Prepared of its epoch by Commit once more, and nothing changes.
#[tactic(auto, using(crate::proofs::Repeated::old_offer, crate::proofs::Repeated::other_commit, crate::proofs::Repeated::other_prepared, crate::proofs::Repeated::released_prepared))]
pub fn repeated_messages_are_ignored<P: Port>()
    ensures offer { (h : HostModel P) (m : Message) (totals : List ℕ) → m.body ≡ body.Offer totals → m.epoch ≤ h.top → delivered h m ≡ ignored h }
    ensures commit { (h : HostModel P) (m : Message) → m.body ≡ body.Commit → side_of h.stage ≢ side.Prepared m.epoch → delivered h m ≡ ignored h }
    ensures prepared { (h : HostModel P) (m : Message) → m.body ≡ body.Prepared → side_of h.stage ≢ side.Offering m.epoch → side_of h.stage ≢ side.Released m.epoch → delivered h m ≡ ignored h }
    ensures released { (h : HostModel P) (m : Message) → m.body ≡ body.Prepared → is_same h.name m.to ≡ true → side_of h.stage ≡ side.Released m.epoch → delivered h m ≡ Ends (sends h m.epoch body.Commit) }
{}

/// A host that offers, and still offers after a delivery, is as before that delivery. So an offer that is given up after any
/// such deliveries leaves the host as [`offers_are_undone`] says.
#[tactic(auto, using(crate::proofs::Staying::still_offers))]
pub fn open_offers_change_nothing<P: Port, W: Wires>()
    ensures unchanged { (h new : HostModel P) (m : Message) (w v : WiresView W.Schedule) (answer : Delivered) (e f : ℕ) → side_of h.stage ≡ side.Offering e → side_of new.stage ≡ side.Offering f
        → Follows P.port_view (delivered h m) w v answer new → new ≡ h }
{}
