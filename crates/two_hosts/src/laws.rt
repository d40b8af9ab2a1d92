//! Laws of two hosts, over every run. Their calls do nothing.
ghost use Rattle.std.specs.Prelude.{◌≡◌, ◌≢◌, ℕ, ◌+◌, ◌-◌, ◌^◌, ◌<◌, ◌≤◌, length, ◌&&◌, ◌||◌, true, false, Some, None, [], ◌∷◌, ◌++◌, map};
ghost use Rattle.crb_history.specs.Snapshot.{Snapshot, IsValidSnapshot};
ghost use Rattle.crb_history.specs.Continued.{snapshot_after};
ghost use Rattle.vt_base.specs.declared.types.Reason.{Reason};
ghost use Rattle.vt_base.specs.declared.types.Reason.TheVariants.{Link};
ghost use Rattle.vt_base.specs.declared.types.HostName.{HostName};
ghost use Rattle.vt_base.specs.declared.types.HostName.TheVariants.{A, B};
ghost use Rattle.move_codec.specs.declared.message.Message.{Message};
ghost use Rattle.move_codec.specs.declared.message.Body.TheVariants.{Commit, Prepared as PreparedBody};
ghost use Rattle.move_core.specs.declared.side.Side.TheVariants.{Released};
ghost use Rattle.move_core.specs.declared.stage.MoveStage.TheVariants.{Draining};
ghost use Rattle.move_core.specs.Sides.{is_draining, is_running};
ghost use Rattle.move_core.specs.Messages.{message_from};
ghost use Rattle.vt_script.specs.declared.event.Event.{Event};
ghost use Rattle.vt_script.specs.declared.event.Event.TheVariants.{GiveUp, Offer};
ghost use Rattle.vt_script.specs.declared.reply.Reply.{Reply};
ghost use Rattle.vt_script.specs.declared.reply.Reply.TheVariants.{Ignored, SentMessage, Offered, RefusedSent, EpochEnd, Draining as DrainingReply};
ghost use Rattle.two_hosts.specs.Hosts.{TwoHosts, hosts_after, first_hosts, host_of, stage_at, message_at, running_host, working_host, is_working, next_number, after_delivery, after_give_up, after_line};
ghost use Rattle.vt_transcript.specs.Replies.{Transcript, exchange, line_of, is_fault};
ghost use Rattle.vt_transcript.specs.Endings.{step_count};
ghost use Rattle.two_hosts.specs.Replies.{IsRun, InTurn, AnswersLine, deliver_reply, offer_reply, meets_fault};
ghost use Rattle.two_hosts.specs.Invariant.{DrainsUnderWay, HostsInvariant, side_at, shown_side};
ghost use Rattle.two_hosts.specs.Laws.{Always, NeverTwoActive, NoneMeansHandedOver, NeverBothSent, EachMessageIsTrue, IsStale, IsMoveLine, IsOffering, StaysOffering};
ghost use Rattle.two_hosts.specs.RunningSet.{contains, is_empty, running_set, needs_running, waits_for_drain, is_stopped};
ghost use Rattle.two_hosts.specs.WholeMove.{CanOffer, CanMove, MovesOver, offer_now, pieces};
ghost use Rattle.two_hosts.specs.Drains.{NeverGivesUp, NeverFails, IsOfferBehind, IsDrainEnd, HasReply};

/// At most one host is Running, Draining or Offering. Where none is, one is Released and the other Prepared, in one epoch.
#[tactic(auto, using(crate::proofs::Consequences::one, crate::proofs::Consequences::none))]
pub fn one_host_runs()
    ensures one { Always NeverTwoActive }
    ensures none { Always NoneMeansHandedOver }
{}

/// A Commit and an Abort of one epoch are never both sent.

pub fn never_both()
    ensures { Always NeverBothSent }
{}

/// An Offer has the lengths of the values that were offered in its epoch, and a Piece has a slice of them.

pub fn slices()
    ensures { Always EachMessageIsTrue }
{}

/// The replies say which host runs or drains: the set that they give has these hosts, and at most one of them. A line that needs a
/// running host is answered `stopped` exactly where the set is empty, or where a host drains and the line isn't `work`. No other
/// line is.
#[tactic(auto, using(crate::proofs::RunningSets::runs_where, crate::proofs::RunningSets::drains_where, crate::proofs::RunningSets::never_two, crate::proofs::Stopped::stopped_where_empty))]
pub fn replies_say_who_runs()
    ensures same { (b : Snapshot) (piece : ℕ) (t : Transcript) → InTurn b piece t
        → (n : HostName) → contains (running_set t) n ≡ is_working (stage_at (hosts_after b piece t) n) }
    ensures drains { (b : Snapshot) (piece : ℕ) (t : Transcript) → InTurn b piece t
        → (running_set t).drains ≡ (is_draining (stage_at (hosts_after b piece t) A) || is_draining (stage_at (hosts_after b piece t) B)) }
    ensures one { (b : Snapshot) (piece : ℕ) (t : Transcript) → InTurn b piece t → ((running_set t).a && (running_set t).b) ≡ false }
    ensures stopped { (b : Snapshot) (piece : ℕ) (t : Transcript) (line : Event) (r : Reply) → InTurn b piece t
        → AnswersLine b piece (hosts_after b piece t) line r → is_stopped r ≡ ((needs_running line && is_empty (running_set t)) || (waits_for_drain line && (running_set t).drains)) }
{}

/// A message that comes too late is ignored, and changes nothing. A Prepared that comes to the host that was released in its
/// epoch sends the Commit once more, and changes nothing else.
#[tactic(auto, using(crate::proofs::Repeated::stale_is_ignored, crate::proofs::Repeated::commits_again))]
pub fn late_messages_are_ignored()
    ensures ignored { (piece : ℕ) (t : TwoHosts) (m : Message) → IsStale (side_at t m.to) m.epoch m.body
        → (deliver_reply piece t (Some m) ≡ Ignored) × (after_delivery piece t (Some m) Ignored ≡ t) }
    ensures commits_again { (piece : ℕ) (t : TwoHosts) (m : Message) → m.body ≡ PreparedBody
        → shown_side (side_at t m.to) ≡ Released m.epoch
        → (deliver_reply piece t (Some m) ≡ SentMessage (next_number t.sent))
        × (after_delivery piece t (Some m) (SentMessage (next_number t.sent))
        ≡ record t { sent = t.sent ++ message_from m.to m.epoch Commit ∷ [] }) }
{}

/// The lines of a move leave the history of the guest as it was, and so does every line where no host runs or drains. A host that
/// gives its offer up runs again after the history that was there when it offered. A host that drained and gives up runs again,
/// and sends nothing.
#[tactic(auto, using(crate::proofs::GivenUp::moves_leave, crate::proofs::GivenUp::stopped_leaves, crate::proofs::GivenUp::undrained))]
pub fn given_up_moves_leave_the_guest()
    ensures moves { (b : Snapshot) (piece : ℕ) (t : TwoHosts) (line : Event) (r : Reply) → IsMoveLine line
        → (after_line b piece t line r).history ≡ t.history }
    ensures stopped { (b : Snapshot) (piece : ℕ) (t : TwoHosts) (line : Event) (r : Reply) → working_host t ≡ None
        → (after_line b piece t line r).history ≡ t.history }
    ensures given_up { (b : Snapshot) (piece : ℕ) (n : HostName) (e : ℕ) (more t : Transcript) (r : Reply) → InTurn b piece (more ++ t)
        → StaysOffering b piece n e more t → IsOffering (hosts_after b piece (more ++ t)) n e
        → ((after_line b piece (hosts_after b piece (more ++ t)) GiveUp r).history ≡ (hosts_after b piece t).history)
        × (is_running (stage_at (after_line b piece (hosts_after b piece (more ++ t)) GiveUp r) n) ≡ true) }
    ensures undrained { (t : TwoHosts) (n : HostName) → stage_at t n ≡ Draining
        → (((after_give_up t (Some n)).history ≡ t.history) × ((after_give_up t (Some n)).sent ≡ t.sent)) × (is_running (stage_at (after_give_up t (Some n)) n) ≡ true) }
{}

/// A delivery is refused for a failed call alone: no message comes to a host that is busy with another move, and each part has
/// a length that may be offered. It is answered by a fault exactly where the injected fault occurs in it. In fewer than
/// 2^64 - 1 lines an offer never lacks a greater epoch.
#[tactic(auto, using(crate::proofs::Sure::faults, crate::proofs::Tops::epochs_last))]
pub fn refusals_are_failed_calls()
    ensures link { (b : Snapshot) (piece : ℕ) (t : Transcript) (message number : ℕ) (why : Reason) → IsValidSnapshot b → InTurn b piece t
        → deliver_reply piece (hosts_after b piece t) (message_at (hosts_after b piece t).sent message) ≡ RefusedSent why number
        → why ≡ Link }
    ensures injected { (b : Snapshot) (piece : ℕ) (t : Transcript) (message : ℕ) (m : Message) → IsValidSnapshot b → InTurn b piece t
        → message_at (hosts_after b piece t).sent message ≡ Some m
        → is_fault (deliver_reply piece (hosts_after b piece t) (Some m)) ≡ meets_fault piece (hosts_after b piece t) m }
    ensures epochs { (b : Snapshot) (piece : ℕ) (t : Transcript) → InTurn b piece t → length t < 2 ^ 64 - 1
        → offer_reply b (hosts_after b piece t) (running_host (hosts_after b piece t)) ≢ EpochEnd }
{}

/// A host that can offer does. Where no call is to fail and the bag has room, delivering the message that was sent last, again
/// and again, ends with `running` after exactly 2 n + 3 deliveries, n being the number of pieces.
#[tactic(auto, using(crate::proofs::WholeMoves::offer_replied))]
pub fn undisturbed_moves_end()
    ensures offers { (b : Snapshot) (w : TwoHosts) (n : HostName) → CanOffer b w n
        → offer_reply b w (running_host w) ≡ Offered ((host_of w n).side.top + 1) (next_number w.sent) }
    ensures moves { (b : Snapshot) (piece : ℕ) (t : Transcript) (n : HostName) → IsValidSnapshot b → InTurn b piece t
        → CanMove b piece (hosts_after b piece t) n
        → MovesOver b piece (offer_now b piece t ∷ t) n (pieces piece (snapshot_after b (hosts_after b piece t).history)) }
{}

/// While a host drains its command ends within three `work` lines, unless a `giveup` comes first. Where no call is to fail on that
/// host's wires, it then offers: the reply begins with `done N` or `cancelled N`, and has ` offered E sent M` behind it. Where a call
/// failed the guest may run again in its place.
#[tactic(auto, using(crate::proofs::DrainEnds::drains_end, crate::proofs::DrainEnds::drains_offer))]
pub fn draining_hosts_offer()
    ensures offers { (b : Snapshot) (piece : ℕ) (t more : Transcript) (n : HostName) (number : ℕ)
        → InTurn b piece (more ++ exchange Offer (DrainingReply number) ∷ t) → running_host (hosts_after b piece t) ≡ Some n
        → (host_of (hosts_after b piece t) n).injected_fault ≡ None → NeverFails n more → NeverGivesUp more
        → 3 ≤ step_count more → HasReply (IsOfferBehind number) more }
    ensures ends { (b : Snapshot) (piece : ℕ) (t more : Transcript) (number : ℕ)
        → InTurn b piece (more ++ exchange Offer (DrainingReply number) ∷ t) → NeverGivesUp more
        → 3 ≤ step_count more → HasReply (IsDrainEnd number) more }
{}

/// While a host drains, its command is claimed and unfinished: each line with its reply keeps this.
#[tactic(auto, using(crate::proofs::DrainKept::first_drains, crate::proofs::DrainKept::line_drains, crate::proofs::DrainKept::run_drains))]
pub fn draining_hosts_have_a_command()
    ensures first { (b : Snapshot) → DrainsUnderWay b (first_hosts b) }
    ensures line { (b : Snapshot) (piece : ℕ) (w : TwoHosts) (line : Event) (r : Reply) → HostsInvariant b w → DrainsUnderWay b w
        → AnswersLine b piece w line r → DrainsUnderWay b (after_line b piece w line r) }
    ensures run { (b : Snapshot) (piece : ℕ) (t : Transcript) → InTurn b piece t → DrainsUnderWay b (hosts_after b piece t) }
{}

/// The invariant is so at first, and each line with its reply keeps it: it is so after every transcript in turn.
#[tactic(auto, using(crate::proofs::InvariantKept::first_kept, crate::proofs::InvariantKept::line_kept, crate::proofs::InvariantKept::run_kept))]
pub fn lines_keep_the_invariant()
    ensures first { (b : Snapshot) → HostsInvariant b (first_hosts b) }
    ensures line { (b : Snapshot) (piece : ℕ) (w : TwoHosts) (line : Event) (r : Reply) → HostsInvariant b w
        → AnswersLine b piece w line r → HostsInvariant b (after_line b piece w line r) }
    ensures run { (b : Snapshot) (piece : ℕ) (t : Transcript) → InTurn b piece t → HostsInvariant b (hosts_after b piece t) }
{}

/// Lines have one run, injected faults included: each reply follows from the lines and replies before it.
pub fn runs_are_one()
    ensures { (b : Snapshot) (piece : ℕ) (t u : Transcript) → map line_of t ≡ map line_of u → IsRun b piece t → IsRun b piece u → t ≡ u }
{}
