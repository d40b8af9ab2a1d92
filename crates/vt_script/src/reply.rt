//! The replies to the lines of a script.
ghost use Rattle.std.specs.Prelude.{◌≡◌, ◌++◌, ◌≤◌, ◌<◌, ◌/◌, ◌%◌, ◌*◌, ◌^◌, OnOk, OnErr, length, take};
ghost use Rattle.crb_regs.specs.Access.{IsAccessSize};
ghost use Rattle.vt_script.specs.Replies.{hex_digit, hex_digits, ended, numbered, refusal_words, offered_text, ended_offered_text, linked_text, reply_text, IsPrintable};

use crate::drive::print_response;
use crate::parts::LINE_FEED;
use std::alloc::{AllocError, Global};
use vt_base::{Bytes, Reason};

/// The reply to one line. A number is that of a command. A `message` is the place of a message in the bag, from 1, or 0 where
/// the bag was full.
#[derive(Debug, Drop)]
pub enum Reply {
    /// No host runs.
    Stopped,
    /// What a read of `size` bytes gave.
    Value {
        value: u64,
        size: u8,
    },
    /// A write was made.
    Accepted,
    /// No command waits for the worker.
    Idle,
    /// The worker claimed a command.
    Claim(u64),
    /// The worker sent the command to the TPM.
    Sent(u64),
    /// The TPM executed the command.
    Exec(u64),
    /// The response is with the device.
    Done(u64),
    /// The command was cancelled before it was executed.
    Cancelled(u64),
    /// The link to the emulator failed, and nobody knows whether the command was executed.
    Lost(u64),
    /// The link to the emulator failed.
    Link,
    /// The emulator was asked to cancel.
    Asked,
    /// Nothing was done, since the device is lost.
    FailedDevice,
    /// Nothing was done, since the worker has a claimed command.
    NotYet,
    /// The device was reset.
    Reset,
    /// No offer was made, since the host has seen the greatest epoch.
    EpochEnd,
    /// The host that ran offers its guest, by this message.
    Offered {
        epoch: u64,
        message: u32,
    },
    /// The host stopped its guest, and offers it when the command of this number ends.
    Draining(u64),
    /// The response is with the device of a host that drained, and the host offers its guest by this message.
    DoneOffered {
        number: u64,
        epoch: u64,
        message: u32,
    },
    /// The response is with the device of a host that drained. The link failed at its offer, and the guest runs again.
    DoneLink(u64),
    /// The command of a host that drained was cancelled before it was executed, and the host offers its guest by this message.
    CancelledOffered {
        number: u64,
        epoch: u64,
        message: u32,
    },
    /// The command of a host that drained was cancelled before it was executed. The link failed at its offer, and the guest runs
    /// again.
    CancelledLink(u64),
    /// The bag has no message of this number.
    NoMessage,
    /// The delivery changed nothing.
    Ignored,
    /// The delivery was taken, and nothing was sent.
    Took,
    /// This message was sent.
    SentMessage(u32),
    /// The receiver's guest runs now.
    Running,
    /// The receiver's guest runs again.
    Resumed,
    /// The receiver refuses the move, by this message.
    RefusedSent {
        reason: Reason,
        message: u32,
    },
    /// No host offers its guest.
    NotOffering,
    /// The guest that was offered runs again, and this message says so.
    ResumedSent(u32),
    /// No host is prepared.
    NotPrepared,
    /// The bytes of a message.
    Shown(Bytes),
}

/// How many bytes the longest text of a value has: two digits for each of 8 bytes, and LF.
const VALUE_TEXT: usize = 17;

fn glyph(digit: u8) -> u8
    requires { digit < 16 }
    ensures { result ≡ hex_digit digit }
{
    if digit < 10 {
        b'0' + digit
    } else {
        b'a' + (digit - 10)
    }
}

// Digit `k` of a number, the lowest first.
fn digit(value: u64, k: u32) -> u8
    requires { k < 16 }
    ensures value { result ≡ value / 16 ^ k % 16 }
    ensures below { result < 16 }
{
    ((value >> (4 * k)) % 16) as u8
}

// Puts so many digits of a number in front, the highest first.
fn put_digits(text: &mut [u8], value: u64, count: usize)
    requires within_limit { count ≤ 16 }
    requires room { count ≤ length text.old }
    ensures digits { take count text.new ≡ hex_digits count value }
    ensures length { length text.new ≡ length text.old }
{
    for i in 0..count {
        text[i] = glyph(digit(value, (count - 1 - i) as u32));
    }
}

// Appends the text of a value. The text is made in place, so that no memory is taken for it alone.
fn push_value(value: u64, size: u8, into: &mut Vec<u8>) -> Result<(), AllocError>
    requires { IsAccessSize size }
    ensures ok { OnOk result (into.new.items ≡ into.old.items ++ ended (hex_digits (2 * size) value)) }
    ensures err { OnErr result (into.new.items ≡ into.old.items) }
{
    let count = 2 * usize::from(size);
    let mut text = [0; VALUE_TEXT];
    put_digits(&mut text, value, count);
    text[count] = LINE_FEED;
    into.extend_from_slice(&text[..=count])
}

// Appends a name with a number in decimal, and LF.
fn push_numbered(
    alloc: Global,
    name: &str,
    number: u64,
    into: &mut Vec<u8>,
) -> Result<(), AllocError>
    ensures ok { OnOk result (into.new.items ≡ into.old.items ++ numbered name.now number) }
    ensures err { OnErr result (into.new.items ≡ into.old.items) }
{
    let text = format!(in alloc; "{name}{number}\n")?;
    into.extend_from_slice(text.as_bytes())
}

// The words before the number of the message by which a move is refused.
fn refusal_words(reason: Reason) -> &'static str
    ensures { result.now ≡ refusal_words reason }
{
    match reason {
        Reason::Busy => "refused busy sent ",
        Reason::Totals => "refused totals sent ",
        Reason::Record => "refused record sent ",
        Reason::Blob => "refused blob sent ",
        Reason::Link => "refused link sent ",
        Reason::Reply => "refused reply sent ",
    }
}

// Appends the text of an offer, and LF.
fn push_offered(
    alloc: Global,
    epoch: u64,
    message: u32,
    into: &mut Vec<u8>,
) -> Result<(), AllocError>
    ensures ok { OnOk result (into.new.items ≡ into.old.items ++ offered_text epoch message) }
    ensures err { OnErr result (into.new.items ≡ into.old.items) }
{
    let text = format!(in alloc; "offered {epoch} sent {message}\n")?;
    into.extend_from_slice(text.as_bytes())
}

// Appends a name with a number in decimal, the text of an offer, and LF.
fn push_ended_offered(
    alloc: Global,
    name: &str,
    number: u64,
    epoch: u64,
    message: u32,
    into: &mut Vec<u8>,
) -> Result<(), AllocError>
    ensures ok { OnOk result (into.new.items ≡ into.old.items ++ ended_offered_text name.now number epoch message) }
    ensures err { OnErr result (into.new.items ≡ into.old.items) }
{
    let text = format!(in alloc; "{name}{number} offered {epoch} sent {message}\n")?;
    into.extend_from_slice(text.as_bytes())
}

// Appends a name with a number in decimal, ` link`, and LF.
fn push_linked(alloc: Global, name: &str, number: u64, into: &mut Vec<u8>) -> Result<(), AllocError>
    ensures ok { OnOk result (into.new.items ≡ into.old.items ++ linked_text name.now number) }
    ensures err { OnErr result (into.new.items ≡ into.old.items) }
{
    let text = format!(in alloc; "{name}{number} link\n")?;
    into.extend_from_slice(text.as_bytes())
}

/// Appends the text of a reply and LF. An `Err` is lack of memory. The texts are our own; a value has two lower-case
/// hexadecimal digits for each byte, as has a message that is shown; the other numbers are in decimal.
#[tactic(auto, unfolding(crate::specs::Replies::reply_text))]
pub fn print_reply(alloc: Global, reply: &Reply, into: &mut Vec<u8>) -> Result<(), AllocError>
    requires { IsPrintable reply.now }
    ensures ok { OnOk result (into.new.items ≡ into.old.items ++ reply_text reply.now) }
    ensures err { OnErr result (into.new.items ≡ into.old.items) }
{
    match reply {
        Reply::Stopped => into.extend_from_slice(b"stopped\n"),
        Reply::Value { value, size } => push_value(*value, *size, into),
        Reply::Accepted => into.extend_from_slice(b"ok\n"),
        Reply::Idle => into.extend_from_slice(b"idle\n"),
        Reply::Claim(number) => push_numbered(alloc, "claim ", *number, into),
        Reply::Sent(number) => push_numbered(alloc, "sent ", *number, into),
        Reply::Exec(number) => push_numbered(alloc, "exec ", *number, into),
        Reply::Done(number) => push_numbered(alloc, "done ", *number, into),
        Reply::Cancelled(number) => push_numbered(alloc, "cancelled ", *number, into),
        Reply::Lost(number) => push_numbered(alloc, "lost ", *number, into),
        Reply::Link => into.extend_from_slice(b"link\n"),
        Reply::Asked => into.extend_from_slice(b"asked\n"),
        Reply::FailedDevice => into.extend_from_slice(b"failed device\n"),
        Reply::NotYet => into.extend_from_slice(b"not yet\n"),
        Reply::Reset => into.extend_from_slice(b"reset\n"),
        Reply::EpochEnd => into.extend_from_slice(b"epoch end\n"),
        Reply::Offered { epoch, message } => push_offered(alloc, *epoch, *message, into),
        Reply::Draining(number) => push_numbered(alloc, "draining ", *number, into),
        Reply::DoneOffered {
            number,
            epoch,
            message,
        } => { push_ended_offered(alloc, "done ", *number, *epoch, *message, into) }
        Reply::DoneLink(number) => push_linked(alloc, "done ", *number, into),
        Reply::CancelledOffered {
            number,
            epoch,
            message,
        } => { push_ended_offered(alloc, "cancelled ", *number, *epoch, *message, into) }
        Reply::CancelledLink(number) => push_linked(alloc, "cancelled ", *number, into),
        Reply::NoMessage => into.extend_from_slice(b"no message\n"),
        Reply::Ignored => into.extend_from_slice(b"ignored\n"),
        Reply::Took => into.extend_from_slice(b"took\n"),
        Reply::SentMessage(message) => push_numbered(alloc, "sent ", u64::from(*message), into),
        Reply::Running => into.extend_from_slice(b"running\n"),
        Reply::Resumed => into.extend_from_slice(b"resumed\n"),
        Reply::RefusedSent { reason, message } => {
            push_numbered(alloc, refusal_words(*reason), u64::from(*message), into)
        }
        Reply::NotOffering => into.extend_from_slice(b"not offering\n"),
        Reply::ResumedSent(message) => {
            push_numbered(alloc, "resumed sent ", u64::from(*message), into)
        }
        Reply::NotPrepared => into.extend_from_slice(b"not prepared\n"),
        Reply::Shown(bytes) => print_response(alloc, bytes.as_slice(), into),
    }
}
