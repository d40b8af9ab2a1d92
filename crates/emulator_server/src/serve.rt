//! The loop over the messages of a connection.
ghost use Rattle.std.specs.Prelude.{◌≡◌, ◌≢◌, ◌≤◌, length, IfOk, IfSome, IsTrue};
ghost use Rattle.vt_base.specs.Faults.{HasCause, Rose};
ghost use Rattle.vt_base.specs.declared.types.Chan.TheVariants.{Data, Ctrl};
ghost use Rattle.vt_emulator.specs.Emulator.{EmulatorSteps};
ghost use Rattle.emulator_server.specs.Messages.{IsFreshChannel, AwaitsBytes};
ghost use Rattle.emulator_server.specs.Serving.{FitsProgress, Advances, Serves, IsOfEmulator, end_with_part};

use crate::served::Served;
use ctrl_codec::Out;
use std::alloc::Global;
use vt_base::{Buf, Chan, Failed, Sink, Source, write_all};
use vt_emulator::Desk;

// How many messages one connection may bring.
const MOST_MESSAGES: u32 = 1_000_000;

// How many bytes one read asks for.
const CHUNK: usize = 4096;

// How far a message got with the bytes of a channel.
#[derive(Clone, Copy)]
enum MessageProgress {
    // All were taken, and no message is whole yet.
    Part,
    // So many were taken, up to the end of a message, which was answered.
    Answered(usize),
    // The channel is closed: by the message that they end, which was answered, or before they came.
    Closed,
}

/// Serves one connection: answers each message once it is whole, before more is read, until the input ends, the emulator
/// closes the channel, a read or a write fails, or 1,000,000 messages were answered. Closed comes before Turns where both
/// could. Over a channel that is closed at the start, the first byte is answered by Closed.
pub fn serve_emulator<D: Desk, S: Source, K: Sink>(
    alloc: Global,
    desk: &mut D,
    chan: Chan,
    source: &mut S,
    sink: &mut K,
) -> Served
    requires fresh { IfSome (D.state desk.old) (IsFreshChannel chan) }

    // Where the state of the desk is known: the bytes read began with whole messages, each was one step of the
    // emulator, and their replies were written.
    ensures served { EmulatorSteps (Serves chan (S.left source.old) (S.left source.new) (K.written sink.old) (K.written sink.new) result) (D.state desk.old) (D.state desk.new) }
    ensures emulators { IsOfEmulator result }
    ensures read_fault { result ≡ Served.ReadFault → Rose (S.faults source.old) (S.faults source.new) }
    ensures write_fault { result ≡ Served.WriteFault → Rose (K.faults sink.old) (K.faults sink.new) }
    ensures later { (S.faults source.old ≤ S.faults source.new) × (K.faults sink.old ≤ K.faults sink.new) }
    ensures reads_if_promised { IsTrue (S.never_fails source.old) → result ≢ Served.ReadFault }
{
    let Ok(mut buf) = Buf::new(alloc) else {
        return Served::Memory;
    };
    let mut chunk = [0u8; CHUNK];
    let mut messages = 0;
    let mut begun = 0u32;
    for _ in 0..u64::MAX {
        let Ok(count) = source.read(&mut chunk) else {
            return Served::ReadFault;
        };
        if count == 0 {
            return end_of_input(begun);
        }
        let (mut rest, _) = chunk.split_at(count);
        while !rest.is_empty() {
            let Ok(progress) = answer_next(desk, chan, rest, &mut buf, sink) else {
                return Served::WriteFault;
            };
            let used = match progress {
                MessageProgress::Closed => return Served::Closed,
                MessageProgress::Part => {
                    begun = begun.saturating_add(rest.len() as u32);
                    break;
                }
                MessageProgress::Answered(used) => used,
            };
            begun = 0;
            messages += 1;
            if messages == MOST_MESSAGES {
                return Served::Turns;
            }
            let (_, after) = rest.split_at(used);
            rest = after;
        }
    }
    // (So many reads of a byte or more bring more bytes than so many messages have.)
    Served::Turns
}

// The input ended, with so many bytes of a message.
fn end_of_input(begun: u32) -> Served
    ensures { result ≡ end_with_part begun }
{
    if begun == 0 {
        Served::Ended
    } else {
        Served::Cut(begun)
    }
}

// Gives bytes of a channel to the emulator, and writes the answer to the message that they end.
fn answer_next<D: Desk, K: Sink>(
    desk: &mut D,
    chan: Chan,
    bytes: &[u8],
    buf: &mut Buf,
    sink: &mut K,
) -> Result<MessageProgress, Failed>
    requires { IfSome (D.state desk.old) (AwaitsBytes chan) }
    ensures within { IfOk result (FitsProgress bytes.now) }
    ensures step { EmulatorSteps (λ e f. Advances result chan bytes.now e f (K.written sink.old) (K.written sink.new)) (D.state desk.old) (D.state desk.new) }
    ensures cause { HasCause (K.faults sink.old) (K.faults sink.new) result }
{
    match chan {
        Chan::Ctrl => answer_request(desk, bytes, sink),
        Chan::Data => answer_command(desk, bytes, buf, sink),
    }
}

// Gives control bytes to the emulator, and writes the reply to the request that they end.
fn answer_request<D: Desk, K: Sink>(
    desk: &mut D,
    bytes: &[u8],
    sink: &mut K,
) -> Result<MessageProgress, Failed>
    requires { IfSome (D.state desk.old) (AwaitsBytes Ctrl) }
    ensures within { IfOk result (FitsProgress bytes.now) }
    ensures step { EmulatorSteps (λ e f. Advances result Ctrl bytes.now e f (K.written sink.old) (K.written sink.new)) (D.state desk.old) (D.state desk.new) }
    ensures cause { HasCause (K.faults sink.old) (K.faults sink.new) result }
{
    let mut out = Out::new();
    let heard = desk.control(bytes, &mut out);
    let Ok(()) = write_all(sink, out.bytes()) else {
        return Err(Failed);
    };
    Ok(if heard.closed {
        MessageProgress::Closed
    } else if out.bytes().is_empty() {
        MessageProgress::Part
    } else {
        MessageProgress::Answered(heard.used)
    })
}

// Gives bytes of commands to the emulator, and writes the response to the command that they end.
fn answer_command<D: Desk, K: Sink>(
    desk: &mut D,
    bytes: &[u8],
    buf: &mut Buf,
    sink: &mut K,
) -> Result<MessageProgress, Failed>
    requires { IfSome (D.state desk.old) (AwaitsBytes Data) }
    ensures within { IfOk result (FitsProgress bytes.now) }
    ensures step { EmulatorSteps (λ e f. Advances result Data bytes.now e f (K.written sink.old) (K.written sink.new)) (D.state desk.old) (D.state desk.new) }
    ensures cause { HasCause (K.faults sink.old) (K.faults sink.new) result }
{
    let took = desk.data(bytes);
    if !took.whole {
        return Ok(MessageProgress::Part);
    }
    let size = desk.run_held(buf);
    let Ok(()) = write_all(sink, &buf.bytes()[..size]) else {
        return Err(Failed);
    };
    Ok(MessageProgress::Answered(took.used))
}
