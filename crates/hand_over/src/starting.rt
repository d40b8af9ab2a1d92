//! The first two messages of a move: the Offer and the first Need.
ghost use Rattle.std.specs.Prelude.{◌≡◌, ◌+◌, ◌*◌, suc, false, Ok};
ghost use Rattle.crb_machine.specs.Over.{Stops};
ghost use Rattle.crb_port.specs.Calls.{KeepsWorker};
ghost use Rattle.move_core.specs.Hosts.{IsConsistentHost};
ghost use Rattle.move_core.specs.Requests.{wires_view};
ghost use Rattle.move_core.specs.Sides.{is_active};
ghost use Rattle.hand_over.specs.Counts.{blob_piece, commands_at, pieces_from, messages_left};
ghost use Rattle.hand_over.specs.Moving.{AreMoving, to_source};
ghost use Rattle.hand_over.specs.Start.{CanMove, to_begin, emptied};

use crate::bridge::fitting_deliveries_are_sure;
use crb_machine::stopped_devices_go_on;
use crb_port::Port;
use ctrl_client::Wires;
use move_codec::Message;
use move_core::{Delivered, Host, Offered};
use std::alloc::Global;

/// The source offers its guest.
pub fn ask_offer<P: Port, W: Wires>(
    source: &mut Host<P>,
    from: &mut W,
    target: &Host<P>,
    to: &W,
) -> Message
    requires can { let w = wires_view W.fails W.later (W.link from.old) (W.schedule from.old) (W.faults from.old) (W.traffic from.old) in
        let v = wires_view W.fails W.later (W.link to.now) (W.schedule to.now) (W.faults to.now) (W.traffic to.now) in
        CanMove P.port_view source.old w target.now v }
    requires source_consistent { IsConsistentHost P.port_view source.old }
    requires target_consistent { IsConsistentHost P.port_view target.now }
    ensures moving { let w = wires_view W.fails W.later (W.link from.new) (W.schedule from.new) (W.faults from.new) (W.traffic from.new) in
        let v = wires_view W.fails W.later (W.link to.now) (W.schedule to.now) (W.faults to.now) (W.traffic to.now) in
        AreMoving P.port_view (to_begin result) source.new w (emptied target.now) v }
    ensures source { source.new ≡ record source.old { top = source.old.top + 1; stage = source.new.stage; record_bytes = source.new.record_bytes; device = source.new.device } }
    ensures stops { Stops P.port_view source.old.device (Ok tt) source.new.device }
    ensures link { W.link from.new ≡ W.link from.old }
    ensures count { messages_left source.new (W.link from.new) result ≡ 2 * pieces_from source.new (W.link from.new) + 2 }
    ensures source_worker { KeepsWorker (P.port_view source.old.device.port) (P.port_view source.new.device.port) }
    ensures source_rest { P.rest source.new.device.port ≡ P.rest source.old.device.port }
{
    state_blobs::laws::blobs_are_prefix_free();
    stopped_devices_go_on::<P>();
    let answer = match source.offer(from) {
        Ok(answer) => answer,
        Err(_) => unreachable!(),
    };
    match answer {
        Offered::Sent(m) => m,
        Offered::Draining { .. } => unreachable!(),
    }
}

/// The target takes the offer, and says what it needs first.
pub fn take_offer<P: Port, W: Wires>(
    alloc: Global,
    source: &Host<P>,
    from: &W,
    target: &mut Host<P>,
    to: &mut W,
    m: &Message,
) -> Message
    requires moving { let w = wires_view W.fails W.later (W.link from.now) (W.schedule from.now) (W.faults from.now) (W.traffic from.now) in
        let v = wires_view W.fails W.later (W.link to.old) (W.schedule to.old) (W.faults to.old) (W.traffic to.old) in
        AreMoving P.port_view (to_begin m.now) source.now w (emptied target.old) v }
    requires rests { is_active target.old.stage ≡ false }
    ensures moving { let w = wires_view W.fails W.later (W.link from.now) (W.schedule from.now) (W.faults from.now) (W.traffic from.now) in
        let v = wires_view W.fails W.later (W.link to.new) (W.schedule to.new) (W.faults to.new) (W.traffic to.new) in
        AreMoving P.port_view (to_source result) source.now w target.new v }
    ensures target { target.new ≡ record target.old { top = source.now.top; stage = target.new.stage; record_bytes = target.new.record_bytes } }
    ensures pieces { blob_piece (W.link to.new) ≡ blob_piece (W.link to.old) }
    ensures commands { commands_at (W.link to.new) ≡ commands_at (W.link to.old) }
    ensures count { suc (messages_left source.now (W.link from.now) result) ≡ messages_left source.now (W.link from.now) m.now }
    ensures target_worker { KeepsWorker (P.port_view target.old.device.port) (P.port_view target.new.device.port) }
    ensures target_rest { P.rest target.new.device.port ≡ P.rest target.old.device.port }
{
    fitting_deliveries_are_sure::<P, W>();
    state_blobs::laws::blobs_are_prefix_free();
    let Ok(answer) = target.deliver(alloc, m, to) else {
        unreachable!()
    };
    match answer {
        Delivered::Sent(reply) => reply,
        _ => unreachable!(),
    }
}
