//! How serving a connection ended.
use ctrl_client::ClientFault;

/// How serving a connection ended. `serve_emulator` gives all but `Bad` and `Wires`, which are for a peer that sends
/// migration messages.
#[derive(Clone, Copy, Debug, PartialEq, Eq)]
pub enum Served {
    /// The input ended between two messages.
    Ended,
    /// The emulator closed the channel.
    Closed,
    /// The input ended inside a message, of which so many bytes had come.
    Cut(u32),
    /// A byte of a migration message isn't valid at this place.
    Bad(u32),
    /// A read failed.
    ReadFault,
    /// A write failed.
    WriteFault,
    /// A request to an emulator had no good reply.
    Wires(ClientFault),
    /// As many messages came as one connection may bring.
    Turns,
    /// There was no memory.
    Memory,
}
