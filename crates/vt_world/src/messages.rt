//! The lines of a world that are about messages between its hosts.
ghost use Rattle.std.specs.Prelude.{◌≡◌, ◌≤◌, ◌<◌, ℕ, List, take, vec_len, Ok, Err, Some, None, true, false, is_some, IfOk, IfSome, OnErr};
ghost use Rattle.std.specs.Vec.{vec_capacity};
ghost use Rattle.crb_history.specs.Snapshot.{Snapshot};
ghost use Rattle.move_codec.specs.Encoding.{HasPiece};
ghost use Rattle.move_codec.specs.declared.message.Message.{Message as Sent};
ghost use Rattle.move_core.specs.Calls.{HasBytes};
ghost use Rattle.move_core.specs.declared.answers.Offered.TheVariants.{Sent as Sends};
ghost use Rattle.move_core.specs.declared.answers.Gave.TheVariants.{NotOffering, Abort as Aborts};
ghost use Rattle.two_hosts.specs.Hosts.{TwoHosts};
ghost use Rattle.two_hosts.specs.Replies.{reason_in};
ghost use Rattle.two_seats.specs.Both.{FollowsBoth, StepsBoth, CountsBoth, draining_of, KeepsIn, KeepsAllIn, said_offer, bag_offer, said_drained, bag_drained, ended_offered, ended_link, said_give_up, bag_give_up, said_delivery, bag_delivery};
ghost use Rattle.vt_script.specs.Replies.{IsPrintable};
ghost use Rattle.vt_script.specs.declared.event.Event.TheVariants.{Work, Offer, Deliver, GiveUp, Again, Show};
ghost use Rattle.vt_world.specs.Worlds.{KeepsOthers};

use crate::world::World;
use crb_machine::stopped_devices_go_on;
use crb_port::PlainPort;
use move_codec::{Body, Message, write_message};
use move_core::{Delivered, Gave, OfferFault, Offered};
use std::alloc::{AllocError, Global};
use vt_base::{Bytes, HostName, Reason};
use vt_script::{Event, Reply};

/// How many messages the bag keeps.
const ROOM: usize = 16_384;

/// The most bytes of a Piece.
const LARGEST_PIECE: usize = 4096;

impl World {
    // The host that runs offers its guest to the other one.
    pub(crate) fn offer(&mut self) -> Result<Reply, AllocError>
        ensures steps { IfOk result (λ reply. (b : Snapshot) (piece : ℕ) (t : TwoHosts) → FollowsBoth b piece t self.old → StepsBoth b piece t Offer reply self.new) }
        ensures faults { IfOk result (λ reply. (b : Snapshot) (piece : ℕ) (t : TwoHosts) → FollowsBoth b piece t self.old → CountsBoth t Offer reply self.old self.new) }
        ensures same { OnErr result (self.new ≡ self.old) }
        ensures printable { IfOk result IsPrintable }
    {
        self.bag.reserve(1)?;
        stopped_devices_go_on::<PlainPort>();
        match self.running() {
            None => Ok(Reply::Stopped),
            Some(HostName::A) => {
                let answer = self.a.offer();
                Ok(reply_to_offer(&mut self.bag, answer))
            }
            Some(HostName::B) => {
                let answer = self.b.offer();
                Ok(reply_to_offer(&mut self.bag, answer))
            }
        }
    }

    // The worker of the host that runs or drains takes a step. Where the host drains and its command ended, it offers its guest. The
    // room in the bag is taken before the step.
    pub(crate) fn work(&mut self) -> Result<Reply, AllocError>
        ensures steps { IfOk result (λ reply. (b : Snapshot) (piece : ℕ) (t : TwoHosts) → FollowsBoth b piece t self.old → StepsBoth b piece t Work reply self.new) }
        ensures faults { IfOk result (λ reply. (b : Snapshot) (piece : ℕ) (t : TwoHosts) → FollowsBoth b piece t self.old → CountsBoth t Work reply self.old self.new) }
        ensures same { OnErr result (self.new ≡ self.old) }
        ensures others { IfOk result (λ reply. draining_of self.old ≡ None → KeepsOthers self.old self.new) }
        ensures memory { OnErr result (is_some (draining_of self.old) ≡ true) }
        ensures printable { IfOk result IsPrintable }
    {
        stopped_devices_go_on::<PlainPort>();
        match self.draining() {
            None => Ok(self.guest(&Event::Work)),
            Some(HostName::A) => {
                self.bag.reserve(1)?;
                let step = self.a.work();
                let answer = self.a.drained();
                Ok(reply_to_drained(&mut self.bag, step, answer))
            }
            Some(HostName::B) => {
                self.bag.reserve(1)?;
                let step = self.b.work();
                let answer = self.b.drained();
                Ok(reply_to_drained(&mut self.bag, step, answer))
            }
        }
    }

    // The message of this number is delivered to the host that it names. It stays in the bag.
    pub(crate) fn deliver(&mut self, alloc: Global, number: u32) -> Result<Reply, AllocError>
        requires least { 1 ≤ number }
        ensures steps { IfOk result (λ reply. (b : Snapshot) (piece : ℕ) (t : TwoHosts) → FollowsBoth b piece t self.old → StepsBoth b piece t (Deliver number) reply self.new) }
        ensures faults { IfOk result (λ reply. (b : Snapshot) (piece : ℕ) (t : TwoHosts) → FollowsBoth b piece t self.old → CountsBoth t (Deliver number) reply self.old self.new) }
        ensures same { OnErr result (self.new ≡ self.old) }
        ensures printable { IfOk result IsPrintable }
    {
        self.bag.reserve(1)?;
        let at = number as usize - 1;
        if at >= self.bag.len() {
            return Ok(Reply::NoMessage);
        }
        let m = &self.bag[at];
        // (No host sends a Piece without bytes, so this is never answered.)
        if !has_bytes(&m.body) {
            return Ok(Reply::Ignored);
        }
        match m.to {
            HostName::A => {
                let answer = self.a.deliver(alloc, m)?;
                Ok(reply_to_delivery(&mut self.bag, answer))
            }
            HostName::B => {
                let answer = self.b.deliver(alloc, m)?;
                Ok(reply_to_delivery(&mut self.bag, answer))
            }
        }
    }

    // The host that offers its guest, or drains, takes the offer back.
    pub(crate) fn give_up(&mut self) -> Result<Reply, AllocError>
        ensures steps { IfOk result (λ reply. (b : Snapshot) (piece : ℕ) (t : TwoHosts) → FollowsBoth b piece t self.old → StepsBoth b piece t GiveUp reply self.new) }
        ensures faults { IfOk result (λ reply. (b : Snapshot) (piece : ℕ) (t : TwoHosts) → FollowsBoth b piece t self.old → CountsBoth t GiveUp reply self.old self.new) }
        ensures same { OnErr result (self.new ≡ self.old) }
        ensures printable { IfOk result IsPrintable }
    {
        self.bag.reserve(1)?;
        let answer = self.a.give_up();
        if let Some(reply) = reply_to_give_up(&mut self.bag, answer) {
            return Ok(reply);
        }
        let answer = self.b.give_up();
        if let Some(reply) = reply_to_give_up(&mut self.bag, answer) {
            return Ok(reply);
        }
        Ok(Reply::NotOffering)
    }

    // The host that is prepared says so again.
    pub(crate) fn again(&mut self) -> Result<Reply, AllocError>
        ensures steps { IfOk result (λ reply. (b : Snapshot) (piece : ℕ) (t : TwoHosts) → FollowsBoth b piece t self.old → StepsBoth b piece t Again reply self.new) }
        ensures faults { IfOk result (λ reply. (b : Snapshot) (piece : ℕ) (t : TwoHosts) → FollowsBoth b piece t self.old → CountsBoth t Again reply self.old self.new) }
        ensures same { OnErr result (self.new ≡ self.old) }
        ensures printable { IfOk result IsPrintable }
    {
        self.bag.reserve(1)?;
        if let Some(m) = self.a.again() {
            return Ok(Reply::SentMessage(keep(&mut self.bag, m)));
        }
        if let Some(m) = self.b.again() {
            return Ok(Reply::SentMessage(keep(&mut self.bag, m)));
        }
        Ok(Reply::NotPrepared)
    }

    // The message of this number is shown.
    pub(crate) fn show(&self, alloc: Global, number: u32) -> Result<Reply, AllocError>
        requires least { 1 ≤ number }
        ensures steps { IfOk result (λ reply. (b : Snapshot) (piece : ℕ) (t : TwoHosts) → FollowsBoth b piece t self.now → StepsBoth b piece t (Show number) reply self.now) }
        ensures faults { IfOk result (λ reply. (b : Snapshot) (piece : ℕ) (t : TwoHosts) → FollowsBoth b piece t self.now → CountsBoth t (Show number) reply self.now self.now) }
        ensures printable { IfOk result IsPrintable }
    {
        let at = number as usize - 1;
        if at >= self.bag.len() {
            return Ok(Reply::NoMessage);
        }
        let m = &self.bag[at];
        // (No host sends a Piece that can't be written, so this is never answered.)
        if !can_be_written(&m.body) {
            return Ok(Reply::NoMessage);
        }
        let mut text = Vec::new(alloc);
        write_message(alloc, m, &mut text)?;
        Ok(Reply::Shown(Bytes::from_slice(alloc, &text)?))
    }
}

// Puts a message into the bag, for which there is room, and gives its number. A full bag loses it.
fn keep(bag: &mut Vec<Message>, m: Message) -> u32
    requires most { vec_len bag.old ≤ ROOM }
    requires spare { vec_len bag.old < vec_capacity bag.old }
    ensures keeps { (most : ℕ) (sent : List Sent) → most ≡ ROOM → bag.old.items ≡ take most sent → KeepsIn most m result sent bag.new.items }
    ensures most { vec_len bag.new ≤ ROOM }
{
    if bag.len() == ROOM {
        return 0;
    }
    bag.push_reserved(m);
    bag.len() as u32
}

// The reply to an offer, whose message goes into the bag.
fn reply_to_offer(bag: &mut Vec<Message>, answer: Result<Offered, OfferFault>) -> Reply
    requires most { vec_len bag.old ≤ ROOM }
    requires spare { vec_len bag.old < vec_capacity bag.old }
    ensures said { (number : ℕ) × (new : List Sent) × (result ≡ said_offer answer number) × (bag.new.items ≡ bag_offer answer new bag.old.items)
        × ((most : ℕ) (sent : List Sent) (m : Sent) → most ≡ ROOM → bag.old.items ≡ take most sent → answer ≡ Ok (Sends m) → KeepsIn most m number sent new) }
    ensures most { vec_len bag.new ≤ ROOM }
    ensures printable { IsPrintable result }
{
    match answer {
        Ok(Offered::Sent(m)) => {
            let epoch = m.epoch;
            let message = keep(bag, m);
            Reply::Offered { epoch, message }
        }
        Ok(Offered::Draining { number }) => Reply::Draining(number),
        Err(OfferFault::Stopped) => Reply::Stopped,
        Err(OfferFault::Device) => Reply::FailedDevice,
        Err(OfferFault::EpochEnd) => Reply::EpochEnd,
        Err(OfferFault::Wires(_)) => Reply::Link,
    }
}

// The reply to a step of the worker while the host drains, and to what followed it. The message goes into the bag.
fn reply_to_drained(
    bag: &mut Vec<Message>,
    step: Reply,
    answer: Result<Option<Message>, OfferFault>,
) -> Reply
    requires most { vec_len bag.old ≤ ROOM }
    requires spare { vec_len bag.old < vec_capacity bag.old }
    requires printable { IsPrintable step }
    ensures said { (number : ℕ) × (new : List Sent) × (result ≡ said_drained step answer number) × (bag.new.items ≡ bag_drained answer new bag.old.items)
        × ((most : ℕ) (sent : List Sent) (m : Sent) → most ≡ ROOM → bag.old.items ≡ take most sent → answer ≡ Ok (Some m) → KeepsIn most m number sent new) }
    ensures most { vec_len bag.new ≤ ROOM }
    ensures printable { IsPrintable result }
{
    match answer {
        Ok(Some(m)) => {
            let epoch = m.epoch;
            let message = keep(bag, m);
            ended_and_offered(step, epoch, message)
        }
        Err(OfferFault::Wires(_)) => ended_and_failed(step),
        _ => step,
    }
}

// The reply to the end of a command that an offer follows.
fn ended_and_offered(step: Reply, epoch: u64, message: u32) -> Reply
    requires printable { IsPrintable step }
    ensures said { result ≡ ended_offered step epoch message }
    ensures printable { IsPrintable result }
{
    match step {
        Reply::Done(number) => Reply::DoneOffered {
            number,
            epoch,
            message,
        },
        Reply::Cancelled(number) => Reply::CancelledOffered {
            number,
            epoch,
            message,
        },
        other => other,
    }
}

// The reply to the end of a command behind which the link failed.
fn ended_and_failed(step: Reply) -> Reply
    requires printable { IsPrintable step }
    ensures said { result ≡ ended_link step }
    ensures printable { IsPrintable result }
{
    match step {
        Reply::Done(number) => Reply::DoneLink(number),
        Reply::Cancelled(number) => Reply::CancelledLink(number),
        other => other,
    }
}

// The reply of a host that takes its offer back, whose message goes into the bag. `None` where it offers nothing.
fn reply_to_give_up(bag: &mut Vec<Message>, answer: Gave) -> Option<Reply>
    requires most { vec_len bag.old ≤ ROOM }
    requires spare { vec_len bag.old < vec_capacity bag.old }
    ensures said { (number : ℕ) × (new : List Sent) × (result ≡ said_give_up answer number) × (bag.new.items ≡ bag_give_up answer new bag.old.items)
        × ((most : ℕ) (sent : List Sent) (m : Sent) → most ≡ ROOM → bag.old.items ≡ take most sent → answer ≡ Aborts m → KeepsIn most m number sent new) }
    ensures most { vec_len bag.new ≤ ROOM }
    ensures room { answer ≡ NotOffering → bag.new ≡ bag.old }
    ensures printable { IfSome result IsPrintable }
{
    match answer {
        Gave::NotOffering => None,
        Gave::Undrained => Some(Reply::Resumed),
        Gave::Abort(m) => Some(Reply::ResumedSent(keep(bag, m))),
    }
}

// The reply to a delivery, whose message goes into the bag.
fn reply_to_delivery(bag: &mut Vec<Message>, answer: Delivered) -> Reply
    requires most { vec_len bag.old ≤ ROOM }
    requires spare { vec_len bag.old < vec_capacity bag.old }
    ensures said { (number : ℕ) × (new : List Sent) × (result ≡ said_delivery answer number) × (bag.new.items ≡ bag_delivery answer new bag.old.items)
        × ((most : ℕ) (sent : List Sent) → most ≡ ROOM → bag.old.items ≡ take most sent → KeepsAllIn most answer number sent new) }
    ensures most { vec_len bag.new ≤ ROOM }
    ensures printable { IsPrintable result }
{
    match answer {
        Delivered::Ignored => Reply::Ignored,
        Delivered::Took => Reply::Took,
        Delivered::Runs => Reply::Running,
        Delivered::Resumed => Reply::Resumed,
        Delivered::Wires(_) => Reply::Link,
        Delivered::Sent(m) => Reply::SentMessage(keep(bag, m)),
        Delivered::Refused(m) => {
            let reason = reason_in(&m.body);
            let message = keep(bag, m);
            Reply::RefusedSent { reason, message }
        }
    }
}

// Why a Refuse is sent.
fn reason_in(body: &Body) -> Reason
    ensures { result ≡ reason_in body.now }
{
    match body {
        Body::Refuse { reason, .. } => *reason,
        _ => Reason::Busy,
    }
}

// Whether it isn't a Piece without bytes.
fn has_bytes(body: &Body) -> bool
    ensures has { result ≡ true → HasBytes body.now }
    ensures none { result ≡ false → HasBytes body.now → ⊥ }
{
    match body {
        Body::Piece { bytes, .. } => !bytes.as_slice().is_empty(),
        _ => true,
    }
}

// Whether it isn't a Piece with no bytes or too many.
fn can_be_written(body: &Body) -> bool
    ensures has { result ≡ true → HasPiece body.now }
    ensures none { result ≡ false → HasPiece body.now → ⊥ }
{
    match body {
        Body::Piece { bytes, .. } => {
            let count = bytes.as_slice().len();
            count > 0 && count <= LARGEST_PIECE
        }
        _ => true,
    }
}
