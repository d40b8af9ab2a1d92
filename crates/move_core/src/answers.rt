//! The answers of a host.
use ctrl_client::ClientFault;
use move_codec::Message;
use thiserror::Error;

/// Why a host makes no offer: the first of these causes, in this order. After each of them the host is as before, but that
/// it may have collected an answer from its port.
#[derive(Clone, Copy, Debug, PartialEq, Eq, Error)]
pub enum OfferFault {
    /// Exactly where the side isn't `Running`.
    #[error("the guest doesn't run here")]
    Stopped,
    /// Exactly where the device is lost, also by an answer that was waiting in its port.
    #[error("the device is lost")]
    Device,
    /// Exactly where the greatest epoch seen is `u64::MAX`, while a command is claimed or not.
    #[error("no epoch is left")]
    EpochEnd,
    /// The emulator was asked for the lengths of its three blobs, and one of these requests failed so.
    #[error("{0}")]
    Wires(ClientFault),
}

/// What an offer that isn't refused began.
#[derive(Debug, Drop)]
pub enum Offered {
    /// The guest is offered: this Offer is to be sent to the other host.
    Sent(Message),
    /// The guest has stopped, and the worker goes on with the claimed command of this number. The Offer comes from
    /// [`Host::drained`](crate::Host::drained) once that command is done.
    Draining { number: u64 },
}

/// What became of an offer that is taken back.
#[derive(Debug, Drop)]
pub enum Gave {
    /// Exactly where the side is neither `Draining` nor `Offering`. Nothing changed.
    NotOffering,
    /// Exactly where the side was `Draining`: the guest goes on here. No Offer was made, so nothing is sent.
    Undrained,
    /// The guest goes on here, and this Abort is to be sent to the other host.
    Abort(Message),
}

/// Why a host writes no record: the first of these causes, in this order.
#[derive(Clone, Copy, Debug, PartialEq, Eq, Error)]
pub enum RecordFault {
    /// Exactly where the side isn't `Running`.
    #[error("the guest doesn't run here")]
    Stopped,
    /// Exactly where the device is lost, also by an answer that was waiting in its port.
    #[error("the device is lost")]
    Device,
    /// Exactly where the worker has claimed the job of this number and hasn't finished it.
    #[error("command {number} is unfinished")]
    NotYet { number: u64 },
}

/// What became of a message that was delivered, by the table of deliveries (`docs/MIGRATION.md`).
#[derive(Debug, Drop)]
pub enum Delivered {
    /// The message names another host, or no row fits it. Nothing changed.
    Ignored,
    /// An Abort: the host is empty. Nothing is sent.
    Took,
    /// The message was followed, and this one is to be sent to the other host.
    Sent(Message),
    /// A Commit: the guest runs here from now on.
    Runs,
    /// A Refuse: the offer is over, and the guest goes on here.
    Resumed,
    /// The message is refused, and this Refuse is to be sent to the other host. A host that neither runs nor offers is
    /// empty then.
    Refused(Message),
    /// The request for the piece that a Need asks for failed so. The offer is still open.
    Wires(ClientFault),
}
