//! One turn of a move: the source takes what the target needs, and the target takes the answer.
ghost use Rattle.std.specs.Prelude.{◌≡◌, ◌+◌, ◌*◌, ◌<◌, ◌≤◌, suc, true, false, IfOk, OnErr, IfSome, Ok};
ghost use Rattle.crb_port.specs.Calls.{KeepsWorker};
ghost use Rattle.move_core.specs.Requests.{wires_view};
ghost use Rattle.hand_over.specs.Counts.{blob_piece, tpm_behind, commands_at, pieces_from, messages_left, left_with};
ghost use Rattle.hand_over.specs.Arrival.{loses, arrives};
ghost use Rattle.hand_over.specs.Ends.{IsTakenBack, Ends, IsCalm};
ghost use Rattle.hand_over.specs.Moving.{AreMoving, to_source, to_target, TargetGoes};
ghost use Rattle.hand_over.specs.Carrying.{TurnGoes};

use crate::bridge::fitting_deliveries_are_sure;
use crate::recovering::{call_off, make_good};
use crb_port::Port;
use ctrl_client::Wires;
use move_codec::Message;
use move_core::{Delivered, Host};
use std::alloc::{AllocError, Global};

/// Whether the message of this number is the one that is lost.
pub fn is_lost(lost: Option<u32>, number: u32) -> bool
    ensures { result ≡ loses lost number }
{
    match lost {
        Some(k) => k == number,
        None => false,
    }
}

/// The target takes a Piece or the Commit. It says what it needs next, or its guest runs.
pub fn ask_target<P: Port, W: Wires>(
    alloc: Global,
    source: &Host<P>,
    from: &W,
    target: &mut Host<P>,
    to: &mut W,
    m: &Message,
) -> Option<Message>
    requires moving { let w = wires_view W.fails W.later (W.link from.now) (W.schedule from.now) (W.faults from.now) (W.traffic from.now) in
        let v = wires_view W.fails W.later (W.link to.old) (W.schedule to.old) (W.faults to.old) (W.traffic to.old) in
        AreMoving P.port_view (to_target m.now) source.now w target.old v }
    ensures goes { let w = wires_view W.fails W.later (W.link from.now) (W.schedule from.now) (W.faults from.now) (W.traffic from.now) in
        let v = wires_view W.fails W.later (W.link to.new) (W.schedule to.new) (W.faults to.new) (W.traffic to.new) in
        TargetGoes P.port_view source.now w target.old target.new v result }
    ensures pieces { blob_piece (W.link to.new) ≡ blob_piece (W.link to.old) }
    ensures commands { commands_at (W.link to.new) ≡ commands_at (W.link to.old) }
    ensures count { messages_left source.now (W.link from.now) m.now ≡ left_with source.now (W.link from.now) result }
    ensures target_worker { KeepsWorker (P.port_view target.old.device.port) (P.port_view target.new.device.port) }
    ensures target_rest { P.rest target.new.device.port ≡ P.rest target.old.device.port }
{
    fitting_deliveries_are_sure::<P, W>();
    state_blobs::laws::blobs_are_prefix_free();
    device_record::laws::record_encoding_is_injective();
    state_blobs::laws::tpms_are_assembled_once();
    let Ok(answer) = target.deliver(alloc, m, to) else {
        unreachable!()
    };
    match answer {
        Delivered::Sent(reply) => Some(reply),
        _ => None,
    }
}

/// The source takes a Need or Prepared, and answers. Where it has no memory for a piece, nothing is changed.
pub fn ask_source<P: Port, W: Wires>(
    alloc: Global,
    source: &mut Host<P>,
    from: &mut W,
    target: &Host<P>,
    to: &W,
    m: &Message,
) -> Result<Message, AllocError>
    requires moving { let w = wires_view W.fails W.later (W.link from.old) (W.schedule from.old) (W.faults from.old) (W.traffic from.old) in
        let v = wires_view W.fails W.later (W.link to.now) (W.schedule to.now) (W.faults to.now) (W.traffic to.now) in
        AreMoving P.port_view (to_source m.now) source.old w target.now v }
    ensures moving { IfOk result (λ next.
        let w = wires_view W.fails W.later (W.link from.new) (W.schedule from.new) (W.faults from.new) (W.traffic from.new) in
        let v = wires_view W.fails W.later (W.link to.now) (W.schedule to.now) (W.faults to.now) (W.traffic to.now) in
        AreMoving P.port_view (to_target next) source.new w target.now v) }
    ensures source { source.new ≡ record source.old { stage = source.new.stage; record_bytes = source.new.record_bytes } }
    ensures link { W.link from.new ≡ W.link from.old }
    ensures count { IfOk result (λ next. suc (messages_left source.new (W.link from.new) next) ≡ messages_left source.old (W.link from.old) m.now) }
    ensures same { OnErr result (source.new ≡ source.old) }
    ensures untouched { OnErr result (from.new ≡ from.old) }
    ensures source_worker { KeepsWorker (P.port_view source.old.device.port) (P.port_view source.new.device.port) }
    ensures source_rest { P.rest source.new.device.port ≡ P.rest source.old.device.port }
{
    fitting_deliveries_are_sure::<P, W>();
    let answer = match source.deliver(alloc, m, from) {
        Ok(answer) => answer,
        Err(e) => return Err(e),
    };
    match answer {
        Delivered::Sent(next) => Ok(next),
        _ => unreachable!(),
    }
}

/// The source takes message `number`, and the target its answer, if that isn't lost. `None` where the move has ended, with
/// or without the guest's getting to the target. Without memory it is taken back.
pub fn turn<P: Port, W: Wires>(
    alloc: Global,
    source: &mut Host<P>,
    from: &mut W,
    target: &mut Host<P>,
    to: &mut W,
    m: &Message,
    number: u32,
    lost: Option<u32>,
) -> Result<Option<Message>, AllocError>
    requires moving { let w = wires_view W.fails W.later (W.link from.old) (W.schedule from.old) (W.faults from.old) (W.traffic from.old) in
        let v = wires_view W.fails W.later (W.link to.old) (W.schedule to.old) (W.faults to.old) (W.traffic to.old) in
        AreMoving P.port_view (to_source m.now) source.old w target.old v }
    requires count { number + messages_left source.old (W.link from.old) m.now ≡ 2 * pieces_from source.old (W.link from.old) + 3 }
    requires ahead { IfSome lost (λ k. number < k) }
    requires small { number < 100000 }
    ensures goes { IfOk result (λ reply.
        let w = wires_view W.fails W.later (W.link from.new) (W.schedule from.new) (W.faults from.new) (W.traffic from.new) in
        let v = wires_view W.fails W.later (W.link to.new) (W.schedule to.new) (W.faults to.new) (W.traffic to.new) in
        TurnGoes P.port_view source.old source.new w target.old target.new v number lost reply) }
    ensures back { OnErr result (IsTakenBack P.port_view source.old source.old.device target.old source.old.top source.new target.new) }
    ensures link { W.link from.new ≡ W.link from.old }
    ensures calm { IsCalm (blob_piece (W.link from.old)) (wires_view W.fails W.later (W.link from.new) (W.schedule from.new) (W.faults from.new) (W.traffic from.new)) }
    ensures target_calm { IsCalm (blob_piece (W.link to.old)) (wires_view W.fails W.later (W.link to.new) (W.schedule to.new) (W.faults to.new) (W.traffic to.new)) }
    ensures commands { commands_at (W.link to.new) ≡ commands_at (W.link to.old) }
    ensures source_worker { KeepsWorker (P.port_view source.old.device.port) (P.port_view source.new.device.port) }
    ensures source_rest { P.rest source.new.device.port ≡ P.rest source.old.device.port }
    ensures target_worker { KeepsWorker (P.port_view target.old.device.port) (P.port_view target.new.device.port) }
    ensures target_rest { P.rest target.new.device.port ≡ P.rest target.old.device.port }
{
    state_blobs::laws::blobs_are_prefix_free();
    let next = match ask_source(alloc, source, from, target, to, m) {
        Ok(next) => next,
        Err(e) => {
            call_off(alloc, source, target, to);
            return Err(e);
        }
    };
    if is_lost(lost, number + 1) {
        make_good(alloc, source, from, target, to);
        return Ok(None);
    }
    Ok(ask_target(alloc, source, from, target, to, &next))
}
