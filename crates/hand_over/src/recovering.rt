//! What is done where a message of a move was lost.
ghost use Rattle.std.specs.Prelude.{◌≡◌, true, Some};
ghost use Rattle.move_codec.specs.declared.message.Message.{Message};
ghost use Rattle.crb_port.specs.Calls.{KeepsWorker};
ghost use Rattle.move_core.specs.Hosts.{IsConsistentHost};
ghost use Rattle.move_core.specs.Sides.{other, side_of};
ghost use Rattle.move_core.specs.Requests.{wires_view};
ghost use Rattle.hand_over.specs.Counts.{blob_piece, tpm_behind, commands_at};
ghost use Rattle.hand_over.specs.Ends.{IsTakenBack, Ends, IsCalm};
ghost use Rattle.hand_over.specs.Moving.{AreMoving, to_target};
ghost use Rattle.hand_over.specs.Losses.{Resumed, aborted, has_let_go};

use crate::delivering::ask_target;
use crb_port::Port;
use ctrl_client::Wires;
use move_codec::Message;
use move_core::{Delivered, Gave, Host, Side};
use std::alloc::Global;

/// A source that offers gives up, and its Abort is delivered: its guest runs on.
pub fn call_off<P: Port, W: Wires>(
    alloc: Global,
    source: &mut Host<P>,
    target: &mut Host<P>,
    to: &mut W,
)
    requires offers { side_of source.old.stage ≡ Side.Offering source.old.top }
    requires names { target.old.name ≡ other source.old.name }
    ensures resumes { Resumed P.port_view source.old source.new }
    ensures aborts { target.new ≡ aborted target.old.stage source.old.top target.old }
    ensures wires { wires_view W.fails W.later (W.link to.new) (W.schedule to.new) (W.faults to.new) (W.traffic to.new)
        ≡ wires_view W.fails W.later (W.link to.old) (W.schedule to.old) (W.faults to.old) (W.traffic to.old) }
    ensures source_worker { KeepsWorker (P.port_view source.old.device.port) (P.port_view source.new.device.port) }
    ensures source_rest { P.rest source.new.device.port ≡ P.rest source.old.device.port }
    ensures target_worker { KeepsWorker (P.port_view target.old.device.port) (P.port_view target.new.device.port) }
    ensures target_rest { P.rest target.new.device.port ≡ P.rest target.old.device.port }
{
    let Gave::Abort(abort) = source.give_up() else {
        unreachable!()
    };
    let Ok(_answer) = target.deliver(alloc, &abort, to) else {
        unreachable!()
    };
}

// A prepared target says so again, and the source, which has let go, says its Commit again.
fn commit_again<P: Port, W: Wires>(
    alloc: Global,
    source: &mut Host<P>,
    from: &mut W,
    target: &Host<P>,
    to: &W,
) -> Message
    requires moving { let w = wires_view W.fails W.later (W.link from.old) (W.schedule from.old) (W.faults from.old) (W.traffic from.old) in
        let v = wires_view W.fails W.later (W.link to.now) (W.schedule to.now) (W.faults to.now) (W.traffic to.now) in
        (m : Message) × AreMoving P.port_view (to_target m) source.old w target.now v }
    requires let_go { has_let_go source.old.stage ≡ true }
    ensures moving { let w = wires_view W.fails W.later (W.link from.new) (W.schedule from.new) (W.faults from.new) (W.traffic from.new) in
        let v = wires_view W.fails W.later (W.link to.now) (W.schedule to.now) (W.faults to.now) (W.traffic to.now) in
        AreMoving P.port_view (to_target result) source.new w target.now v }
    ensures same { source.new ≡ source.old }
    ensures link { W.link from.new ≡ W.link from.old }
    ensures source_worker { KeepsWorker (P.port_view source.old.device.port) (P.port_view source.new.device.port) }
    ensures source_rest { P.rest source.new.device.port ≡ P.rest source.old.device.port }
{
    let Some(prepared) = target.again() else {
        unreachable!()
    };
    let Ok(answer) = source.deliver(alloc, &prepared, from) else {
        unreachable!()
    };
    match answer {
        Delivered::Sent(commit) => commit,
        _ => unreachable!(),
    }
}

/// A message to the target was lost: where the source still offers, the move is called off, and otherwise its Commit is
/// delivered once more.
pub fn make_good<P: Port, W: Wires>(
    alloc: Global,
    source: &mut Host<P>,
    from: &mut W,
    target: &mut Host<P>,
    to: &mut W,
)
    requires moving { let w = wires_view W.fails W.later (W.link from.old) (W.schedule from.old) (W.faults from.old) (W.traffic from.old) in
        let v = wires_view W.fails W.later (W.link to.old) (W.schedule to.old) (W.faults to.old) (W.traffic to.old) in
        (m : Message) × AreMoving P.port_view (to_target m) source.old w target.old v }
    ensures ends { let v = wires_view W.fails W.later (W.link to.new) (W.schedule to.new) (W.faults to.new) (W.traffic to.new) in
        Ends (has_let_go source.old.stage) P.port_view source.old source.old.device (tpm_behind (W.link from.old)) target.old source.old.top source.new target.new v }
    ensures link { W.link from.new ≡ W.link from.old }
    ensures calm { IsCalm (blob_piece (W.link from.old)) (wires_view W.fails W.later (W.link from.new) (W.schedule from.new) (W.faults from.new) (W.traffic from.new)) }
    ensures target_calm { IsCalm (blob_piece (W.link to.old)) (wires_view W.fails W.later (W.link to.new) (W.schedule to.new) (W.faults to.new) (W.traffic to.new)) }
    ensures commands { commands_at (W.link to.new) ≡ commands_at (W.link to.old) }
    ensures source_worker { KeepsWorker (P.port_view source.old.device.port) (P.port_view source.new.device.port) }
    ensures source_rest { P.rest source.new.device.port ≡ P.rest source.old.device.port }
    ensures target_worker { KeepsWorker (P.port_view target.old.device.port) (P.port_view target.new.device.port) }
    ensures target_rest { P.rest target.new.device.port ≡ P.rest target.old.device.port }
{
    match source.side() {
        Side::Offering(_) => call_off(alloc, source, target, to),
        _ => {
            let commit = commit_again(alloc, source, from, target, to);
            let _none = ask_target(alloc, source, from, target, to, &commit);
        }
    }
}
