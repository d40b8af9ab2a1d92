//! Hosts over known links follow the model. The call does nothing.
ghost use Rattle.std.specs.Prelude.{◌≡◌, ℕ, Option, Some, None, Ok};
ghost use Rattle.vt_base.specs.declared.types.Kind.{Kind};
ghost use Rattle.tpm_core.specs.declared.parts.TpmParts.{TpmParts};
ghost use Rattle.ctrl_model.specs.Link.{Link};
ghost use Rattle.ctrl_client.specs.Pieces.{HasField};
ghost use Rattle.move_codec.specs.declared.message.Message.{Message};
ghost use Rattle.move_core.specs.declared.answers.Delivered.{Delivered};
ghost use Rattle.move_core.specs.declared.answers.Offered.TheVariants as answers;
ghost use Rattle.move_core.specs.declared.answers.Gave.TheVariants as gave;
ghost use Rattle.move_core.specs.Model.{HostModel};
ghost use Rattle.move_core.specs.Hosts.{MatchesSide};
ghost use Rattle.move_core.specs.declared.stage.MoveStage.TheVariants as stage;
ghost use Rattle.crb_machine.specs.Values.{DeviceValues, AreValid, held_values};
ghost use Rattle.tpm_core.specs.Steps.{IsValid};
ghost use Rattle.move_core.specs.Requests.{WiresView};
ghost use Rattle.move_core.specs.Table.{delivered};
ghost use Rattle.move_core.specs.Calls.{Follows, HasBytes, Offers, Drains, GivesUp, said_again};
ghost use Rattle.hand_over.specs.Host.{HostState, delivered as model_delivered, running, draining, abort_message, prepared_message};
ghost use Rattle.hand_over.specs.Parts.{PieceSizes};
ghost use Rattle.hand_over.specs.Bridge.{StandsFor, IsStep, IsOffer};
ghost use Rattle.hand_over.specs.Fine.{IsUndisturbed, IsFineFor, IsSureStep, offered_by};

use crb_port::Port;
use ctrl_client::Wires;

/// Over a known and quiet link, each call of a host is what the model makes of it.
#[tactic(auto, using(crate::proofs::Bridging::delivery, crate::proofs::Offering::offered, crate::proofs::Offering::begins_to_drain, crate::proofs::Offering::drained, crate::proofs::Offering::gave_up, crate::proofs::Offering::gave_up_draining, crate::proofs::Offering::said))]
pub fn hosts_follow_the_model<P: Port, W: Wires>()
    ensures delivery { (size : PieceSizes) (h new : HostModel P) (m : Message) (w v : WiresView W.Schedule) (l : Link) (g : HostState) (answer : Delivered)
        → w.link ≡ Some l → StandsFor size h l g → MatchesSide h → HasBytes m.body → Follows P.port_view (delivered h m) w v answer new
        → IsStep size (λ r. model_delivered h.name size g m r) v answer new }
    ensures offer { (size : PieceSizes) (h new : HostModel P) (w v : WiresView W.Schedule) (l : Link) (g : HostState) (m : Message)
        → w.link ≡ Some l → StandsFor size h l g → ((k : Kind) → HasField k l) → (t : TpmParts) → l.emulator.tpm ≡ Some t → Offers P.port_view h w (Ok (answers.Sent m)) v new → IsOffer size h new l v.link g m }
    ensures draining { (size : PieceSizes) (h new : HostModel P) (w v : WiresView W.Schedule) (l : Link) (g : HostState) (number : ℕ)
        → StandsFor size h l g → Offers P.port_view h w (Ok (answers.Draining number)) v new → (v ≡ w) × StandsFor size new l (draining g) }
    ensures drained { (size : PieceSizes) (h new : HostModel P) (w v : WiresView W.Schedule) (l : Link) (g : HostState) (m : Message)
        → w.link ≡ Some l → StandsFor size h l g → ((k : Kind) → HasField k l) → (t : TpmParts) → l.emulator.tpm ≡ Some t → h.stage ≡ stage.Draining → Drains P.port_view h w (Ok (Some m)) v new
        → IsOffer size h new l v.link (running g) m }
    ensures give_up { (size : PieceSizes) (h new : HostModel P) (l : Link) (g : HostState) (m : Message)
        → StandsFor size h l g → GivesUp P.port_view h (gave.Abort m) new → StandsFor size new l (running g) × (m ≡ abort_message h.name g) }
    ensures undrained { (size : PieceSizes) (h new : HostModel P) (l : Link) (g : HostState)
        → StandsFor size h l g → GivesUp P.port_view h gave.Undrained new → StandsFor size new l (running g) }
    ensures again { (size : PieceSizes) (h : HostModel P) (l : Link) (g : HostState) (m : Message)
        → StandsFor size h l g → said_again h.stage h ≡ Some m → m ≡ prepared_message h.name g }
{}

/// Where no call on the wires is to fail and a message fits what stands, nothing is refused: the delivery is the model's.
pub fn fitting_deliveries_are_sure<P: Port, W: Wires>()
    ensures { (size : PieceSizes) (h new : HostModel P) (m : Message) (w v : WiresView W.Schedule) (l : Link) (g : HostState) (answer : Delivered)
        → w.link ≡ Some l → IsUndisturbed w → StandsFor size h l g → MatchesSide h → HasBytes m.body → IsFineFor m.body h.stage h l.emulator
        → Follows P.port_view (delivered h m) w v answer new
        → IsSureStep size (model_delivered h.name size g m None) v answer new }
{
    state_blobs::laws::blobs_are_prefix_free();
    state_blobs::laws::tpms_are_assembled_once();
    device_record::laws::records_are_prefix_free();
}

/// A prepared host holds what its source offered: its device has those values, and its emulator that TPM.
pub fn prepared_hosts_hold_what_was_offered<P: Port>()
    ensures { (size : PieceSizes) (h : HostModel P) (l : Link) (y : HostState) (e : ℕ) (values : DeviceValues) (tpm : TpmParts) → AreValid values → IsValid tpm
        → StandsFor size h l y → MatchesSide h → h.stage ≡ stage.Prepared e → y.content ≡ offered_by values tpm
        → (held_values h.device ≡ values) × (l.emulator.tpm ≡ Some tpm) }
{
    device_record::laws::record_encoding_is_injective();
    state_blobs::laws::tpms_are_assembled_once();
}
