//! Laws of two seats. Their calls do nothing.
ghost use Rattle.std.specs.Prelude.{◌≡◌, ℕ, ◌+◌, ◌*◌, [], ◌∷◌, Option, Some, None};
ghost use Rattle.crb_history.specs.Snapshot.{Snapshot, IsValidSnapshot};
ghost use Rattle.crb_history.specs.Continued.{snapshot_after};
ghost use Rattle.vt_transcript.specs.Replies.{Transcript, exchange};
ghost use Rattle.vt_script.specs.declared.event.Event.{Event};
ghost use Rattle.vt_script.specs.declared.reply.Reply.{Reply};
ghost use Rattle.crb_port.specs.Plain.{plain};
ghost use Rattle.crb_port.specs.declared.job.PortState.{PortState};
ghost use Rattle.ctrl_model.specs.Link.{Link};
ghost use Rattle.move_codec.specs.declared.message.Message.{Message};
ghost use Rattle.vt_base.specs.declared.types.HostName.{HostName};
ghost use Rattle.move_core.specs.Calls.{Follows};
ghost use Rattle.move_core.specs.Hosts.{IsConsistentHost};
ghost use Rattle.move_core.specs.Model.{HostModel};
ghost use Rattle.move_core.specs.Requests.{wires_view};
ghost use Rattle.move_core.specs.Sides.{other};
ghost use Rattle.move_core.specs.Table.{delivered};
ghost use Rattle.move_core.specs.declared.answers.Delivered.{Delivered};
ghost use Rattle.two_hosts.specs.Deliveries.{delivered as outcome};
ghost use Rattle.two_hosts.specs.Hosts.{TwoHosts, context_for, host_of, message_at, hosts_after, first_hosts};
ghost use Rattle.two_hosts.specs.Replies.{InTurn, meets_fault};
ghost use Rattle.two_hosts.specs.WholeMove.{CanMove, deliveries, offer_now, pieces};
ghost use Rattle.vt_seat.specs.Seats.{view_of};
ghost use Rattle.vt_seat.specs.Wires.{fails_next, after_call};
ghost use Rattle.two_seats.specs.Both.{TwoSeats, FollowsBoth, StepsBoth, RunsTo, IsOutcome, running_of, seat_of};
ghost use Rattle.two_seats.specs.Moves.{OffersAndDelivers};

/// Where each line leads the seats on, the lines and their replies are a run that leads there.
#[tactic(auto, using(crate::proofs::Running::runs_first, crate::proofs::Running::runs_on))]
pub fn steps_make_runs()
    ensures first { (b : Snapshot) (piece : ℕ) (w : TwoSeats) → FollowsBoth b piece (first_hosts b) w → RunsTo b piece [] w }
    ensures on { (b : Snapshot) (piece : ℕ) (t : Transcript) (old new : TwoSeats) (line : Event) (reply : Reply) → RunsTo b piece t old
        → StepsBoth b piece (hosts_after b piece t) line reply new → RunsTo b piece (exchange line reply ∷ t) new }
{}

/// What a host, by its own table, makes of a message that was sent to it, over its device and its emulator, is what the table of
/// two hosts says of its side and its answer.
#[tactic(auto, using(crate::proofs::Deliveries::tables_agree))]
pub fn deliveries_follow_the_table()
    ensures { (b : Snapshot) (piece : ℕ) (t : TwoHosts) (w : TwoSeats) (k : ℕ) (m : Message) (answer : Delivered) (host : HostModel PortState) (link : Link) (calls_to_fault : Option ℕ) (faults : ℕ)
        → FollowsBoth b piece t w → IsConsistentHost plain (seat_of w m.to).host → message_at t.sent k ≡ Some m
        → Follows plain (delivered (seat_of w m.to).host m) (view_of (seat_of w m.to)) (wires_view fails_next after_call (Some link) calls_to_fault faults None) answer host
        → IsOutcome (outcome (context_for piece t m.to (meets_fault piece t m)) (host_of t m.to).side m.epoch m.body) answer host }
{}

/// Lines that offer the guest, and then deliver the message that was sent last again and again, have the replies of an
/// undisturbed move. Where the guest can be moved and no call is to fail, it runs at the other host of a world behind exactly
/// 2 n + 3 such deliveries, n being the number of pieces.
pub fn undisturbed_guests_arrive()
    ensures replies { (b : Snapshot) (piece count : ℕ) (before t : Transcript) → InTurn b piece t → OffersAndDelivers b piece count before t
        → t ≡ deliveries b piece count (offer_now b piece before ∷ before) }
    ensures arrives { (b : Snapshot) (piece : ℕ) (before t : Transcript) (n : HostName) (w : TwoSeats) → IsValidSnapshot b → InTurn b piece before
        → CanMove b piece (hosts_after b piece before) n
        → OffersAndDelivers b piece (2 * pieces piece (snapshot_after b (hosts_after b piece before).history) + 3) before t
        → RunsTo b piece t w → running_of w ≡ Some (other n) }
{}
