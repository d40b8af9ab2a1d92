//! A whole move.
ghost use Rattle.std.specs.Prelude.{◌≡◌, ◌+◌, ◌*◌, ◌≤◌, ◌-◌, IfSome, OnErr, OnOk, IfOk, Ok, Some};
ghost use Rattle.crb_port.specs.Calls.{KeepsWorker};
ghost use Rattle.crb_machine.specs.Over.{Stops};
ghost use Rattle.move_core.specs.Requests.{wires_view};
ghost use Rattle.hand_over.specs.Counts.{blob_piece, tpm_behind, commands_at, pieces_from, messages_left};
ghost use Rattle.hand_over.specs.Arrival.{arrives};
ghost use Rattle.hand_over.specs.Ends.{IsTakenBack, Ends, IsCalm, HasMoved, IsGivenUp};
ghost use Rattle.hand_over.specs.Moving.{AreMoving, to_source};
ghost use Rattle.hand_over.specs.Start.{CanMove};

use crate::delivering::{is_lost, turn};
use crate::recovering::call_off;
use crate::starting::{ask_offer, take_offer};
use crb_port::Port;
use ctrl_client::Wires;
use move_codec::Message;
use move_core::Host;
use std::alloc::{AllocError, Global};

// Hands over from the second message on, which is a Need.
fn carry_on<P: Port, W: Wires>(
    alloc: Global,
    source: &mut Host<P>,
    from: &mut W,
    target: &mut Host<P>,
    to: &mut W,
    need: Message,
    lost: Option<u32>,
) -> Result<(), AllocError>
    requires moving { let w = wires_view W.fails W.later (W.link from.old) (W.schedule from.old) (W.faults from.old) (W.traffic from.old) in
        let v = wires_view W.fails W.later (W.link to.old) (W.schedule to.old) (W.faults to.old) (W.traffic to.old) in
        AreMoving P.port_view (to_source need) source.old w target.old v }
    requires count { messages_left source.old (W.link from.old) need ≡ 2 * pieces_from source.old (W.link from.old) + 1 }
    requires ahead { IfSome lost (λ k. 2 ≤ k) }
    ensures ends { OnOk result (
        let v = wires_view W.fails W.later (W.link to.new) (W.schedule to.new) (W.faults to.new) (W.traffic to.new) in
        Ends (arrives (pieces_from source.old (W.link from.old)) lost) P.port_view source.old source.old.device (tpm_behind (W.link from.old)) target.old source.old.top source.new target.new v) }
    ensures back { OnErr result (IsTakenBack P.port_view source.old source.old.device target.old source.old.top source.new target.new) }
    ensures link { W.link from.new ≡ W.link from.old }
    ensures calm { IsCalm (blob_piece (W.link from.old)) (wires_view W.fails W.later (W.link from.new) (W.schedule from.new) (W.faults from.new) (W.traffic from.new)) }
    ensures target_calm { IsCalm (blob_piece (W.link to.old)) (wires_view W.fails W.later (W.link to.new) (W.schedule to.new) (W.faults to.new) (W.traffic to.new)) }
    ensures commands { commands_at (W.link to.new) ≡ commands_at (W.link to.old) }
    ensures source_worker { KeepsWorker (P.port_view source.old.device.port) (P.port_view source.new.device.port) }
    ensures source_rest { P.rest source.new.device.port ≡ P.rest source.old.device.port }
    ensures target_worker { KeepsWorker (P.port_view target.old.device.port) (P.port_view target.new.device.port) }
    ensures target_rest { P.rest target.new.device.port ≡ P.rest target.old.device.port }
{
    let mut m = need;
    let mut number: u32 = 2;
    while !is_lost(lost, number) {
        let Some(reply) = turn(alloc, source, from, target, to, &m, number, lost)? else {
            return Ok(());
        };
        m = reply;
        number += 2;
    }
    call_off(alloc, source, target, to);
    Ok(())
}

/// Moves a guest from one host to the other, each message from hand to hand: the Offer is message 1, and a move with n
/// pieces has 2n + 3 messages, of which the last is the Commit.
///
/// Message `lost` of these is lost, where it is given. A source that still offers then gives up, and its Abort is
/// delivered. Otherwise the target says again that it is prepared, and the move ends with the guest there. After
/// `AllocError`, which only a Need gives, the source has given up in the same way.
pub fn move_guest<P: Port, W: Wires>(
    alloc: Global,
    source: &mut Host<P>,
    source_wires: &mut W,
    target: &mut Host<P>,
    target_wires: &mut W,
    lost: Option<u32>,
) -> Result<(), AllocError>
    requires can_move { let w = wires_view W.fails W.later (W.link source_wires.old) (W.schedule source_wires.old) (W.faults source_wires.old) (W.traffic source_wires.old) in
        let v = wires_view W.fails W.later (W.link target_wires.old) (W.schedule target_wires.old) (W.faults target_wires.old) (W.traffic target_wires.old) in
        CanMove P.port_view source.old w target.old v }
    requires counted { IfSome lost (λ k. 1 ≤ k) }
    ensures moved { OnOk result (
        let w = wires_view W.fails W.later (W.link source_wires.old) (W.schedule source_wires.old) (W.faults source_wires.old) (W.traffic source_wires.old) in
        let v = wires_view W.fails W.later (W.link target_wires.new) (W.schedule target_wires.new) (W.faults target_wires.new) (W.traffic target_wires.new) in
        HasMoved P.port_view source.old w target.old lost source.new target.new v) }
    ensures given_up { OnErr result (IsGivenUp P.port_view source.old target.old source.new target.new) }
    ensures source_top { source.new.top ≡ source.old.top + 1 }
    ensures source_link { W.link source_wires.new ≡ W.link source_wires.old }
    ensures source_calm { IsCalm (blob_piece (W.link source_wires.old)) (wires_view W.fails W.later (W.link source_wires.new) (W.schedule source_wires.new) (W.faults source_wires.new) (W.traffic source_wires.new)) }
    ensures target_calm { IsCalm (blob_piece (W.link target_wires.old)) (wires_view W.fails W.later (W.link target_wires.new) (W.schedule target_wires.new) (W.faults target_wires.new) (W.traffic target_wires.new)) }
    ensures target_commands { commands_at (W.link target_wires.new) ≡ commands_at (W.link target_wires.old) }
    ensures source_worker { KeepsWorker (P.port_view source.old.device.port) (P.port_view source.new.device.port) }
    ensures source_rest { P.rest source.new.device.port ≡ P.rest source.old.device.port }
    ensures target_worker { KeepsWorker (P.port_view target.old.device.port) (P.port_view target.new.device.port) }
    ensures target_rest { P.rest target.new.device.port ≡ P.rest target.old.device.port }
{
    let _sides = (source.side(), target.side());
    let offer = ask_offer(source, source_wires, target, target_wires);
    if is_lost(lost, 1) {
        call_off(alloc, source, target, target_wires);
        return Ok(());
    }
    let need = take_offer(alloc, source, source_wires, target, target_wires, &offer);
    carry_on(
        alloc,
        source,
        source_wires,
        target,
        target_wires,
        need,
        lost,
    )
}
