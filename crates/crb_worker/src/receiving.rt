//! Responses as they come off the wires.
ghost use Rattle.std.specs.Prelude.{◌≡◌, ◌<◌, length, true, false, IfOk, OnOk, OnErr};
ghost use Rattle.std.specs.Int.{w16};
ghost use Rattle.vt_base.specs.Numbers.{big_endian_at};
ghost use Rattle.tpm_frame.specs.Sizes.{named_size};
ghost use Rattle.crb_worker.specs.Heads.{is_head as IsHead, is_cancelled};
ghost use Rattle.crb_worker.specs.Wires.{Receives, AreNext, worker_wires};
ghost use Rattle.crb_worker.specs.Steps.{HoldsResponse, is_longer, left_of};

use ctrl_client::{Wires, receive_exact};
use tpm_frame::{
    CANCELED, HEADER_SIZE, LARGEST_FRAME, NO_SESSIONS, RSP_COMMAND, SESSIONS, SIZE_FIELD,
};
use vt_base::{Buf, ByteBuf, Chan, Failed, u16_at, u32_at};

/// How many bytes of a response follow its header at most.
const LONGEST_REST: usize = LARGEST_FRAME - HEADER_SIZE;

// The tag in a header.
fn tag_of(head: &[u8; HEADER_SIZE]) -> u16
    ensures { result ≡ big_endian_at w16 0 head.now }
{
    u16_at(head, 0)
}

// The size of the response in its header.
fn size_of(head: &[u8; HEADER_SIZE]) -> usize
    ensures { result ≡ named_size head.now }
{
    u32_at(head, SIZE_FIELD) as usize
}

/// Whether the ten bytes are the header of a response.
pub fn is_head(head: &[u8; HEADER_SIZE]) -> bool
    ensures { result ≡ IsHead head.now }
{
    let tag = tag_of(head);
    let size = size_of(head);
    (tag == NO_SESSIONS || tag == SESSIONS || tag == RSP_COMMAND)
        && HEADER_SIZE <= size
        && size <= LARGEST_FRAME
}

// Whether this is the response to a command that was cancelled.
fn is_cancelled(response: &[u8]) -> bool
    ensures { result ≡ is_cancelled response.now }
{
    let [t0, t1] = NO_SESSIONS.to_be_bytes();
    let [c0, c1, c2, c3] = CANCELED.to_be_bytes();
    let cancelled = [t0, t1, 0, 0, 0, HEADER_SIZE as u8, c0, c1, c2, c3];
    response == cancelled.as_slice()
}

// Fills the slice with the next bytes of a response.
fn receive<W: Wires>(wires: &mut W, into: &mut [u8]) -> Result<(), Failed>
    requires some { 0 < length into.old }
    ensures next { OnOk result (AreNext into.new (length into.old)
        (worker_wires W.fails W.later (W.link wires.old) (W.schedule wires.old) (W.faults wires.old) (W.traffic wires.old))
        (worker_wires W.fails W.later (W.link wires.new) (W.schedule wires.new) (W.faults wires.new) (W.traffic wires.new))) }
    ensures ok { OnOk result (Receives true (length into.old)
        (worker_wires W.fails W.later (W.link wires.old) (W.schedule wires.old) (W.faults wires.old) (W.traffic wires.old))
        (worker_wires W.fails W.later (W.link wires.new) (W.schedule wires.new) (W.faults wires.new) (W.traffic wires.new))) }
    ensures err { OnErr result (Receives false (length into.old)
        (worker_wires W.fails W.later (W.link wires.old) (W.schedule wires.old) (W.faults wires.old) (W.traffic wires.old))
        (worker_wires W.fails W.later (W.link wires.new) (W.schedule wires.new) (W.faults wires.new) (W.traffic wires.new))) }
    ensures uncut { W.cuts wires.new ≡ W.cuts wires.old }
{
    receive_exact(wires, Chan::Data, into)
}

/// Receives ten bytes, where a response begins.
pub fn receive_head<W: Wires>(wires: &mut W) -> Result<[u8; HEADER_SIZE], Failed>
    ensures next { IfOk result (λ head. AreNext head HEADER_SIZE
        (worker_wires W.fails W.later (W.link wires.old) (W.schedule wires.old) (W.faults wires.old) (W.traffic wires.old))
        (worker_wires W.fails W.later (W.link wires.new) (W.schedule wires.new) (W.faults wires.new) (W.traffic wires.new))) }
    ensures ok { OnOk result (Receives true HEADER_SIZE
        (worker_wires W.fails W.later (W.link wires.old) (W.schedule wires.old) (W.faults wires.old) (W.traffic wires.old))
        (worker_wires W.fails W.later (W.link wires.new) (W.schedule wires.new) (W.faults wires.new) (W.traffic wires.new))) }
    ensures err { OnErr result (Receives false HEADER_SIZE
        (worker_wires W.fails W.later (W.link wires.old) (W.schedule wires.old) (W.faults wires.old) (W.traffic wires.old))
        (worker_wires W.fails W.later (W.link wires.new) (W.schedule wires.new) (W.faults wires.new) (W.traffic wires.new))) }
    ensures uncut { W.cuts wires.new ≡ W.cuts wires.old }
{
    let mut head = [0; HEADER_SIZE];
    receive(wires, &mut head)?;
    Ok(head)
}

/// Receives the rest of a response, and has the buffer hold the whole, followed by zeros. It answers whether the response
/// is that to a command that was cancelled. Where a receive fails the buffer is as before.
pub fn hold_response<W: Wires>(
    head: &[u8; HEADER_SIZE],
    buf: &mut Buf,
    wires: &mut W,
) -> Result<bool, Failed>
    requires head { IsHead head.now ≡ true }
    ensures ok { let before = worker_wires W.fails W.later (W.link wires.old) (W.schedule wires.old) (W.faults wires.old) (W.traffic wires.old) in
        let after = worker_wires W.fails W.later (W.link wires.new) (W.schedule wires.new) (W.faults wires.new) (W.traffic wires.new) in
        IfOk result (λ cancelled. HoldsResponse head.now cancelled buf.new before after) }
    ensures err { OnErr result (Receives false (left_of head.now)
        (worker_wires W.fails W.later (W.link wires.old) (W.schedule wires.old) (W.faults wires.old) (W.traffic wires.old))
        (worker_wires W.fails W.later (W.link wires.new) (W.schedule wires.new) (W.faults wires.new) (W.traffic wires.new))) }
    ensures longer { OnErr result (is_longer head.now ≡ true) }
    ensures kept { OnErr result (buf.new ≡ buf.old) }
    ensures untouched { is_longer head.now ≡ false → wires.new ≡ wires.old }
    ensures uncut { W.cuts wires.new ≡ W.cuts wires.old }
{
    let size = size_of(head);
    if size <= HEADER_SIZE {
        buf.hold(head);
        return Ok(is_cancelled(head));
    }
    let mut room = [0; LONGEST_REST];
    let rest = &mut room[..size - HEADER_SIZE];
    receive(wires, rest)?;
    let mut response = ByteBuf::<LARGEST_FRAME>::new();
    response.push(head);
    response.push(rest);
    buf.hold(response.as_slice());
    Ok(is_cancelled(response.as_slice()))
}
