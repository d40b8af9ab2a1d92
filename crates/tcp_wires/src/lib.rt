//! The link to an emulator in another process, over TCP.
//!
//! ```text
//! let mut wires = TcpWires::connect(&rt, 2322, 2321)?;
//! init(&mut wires, 0)?;
//! wires.send(Chan::Data, &command)?;
//! ```
//!
//! [`TcpWires`] are wires as any others: the requests of `ctrl_client` and the worker go over them. Nothing is known of what is at
//! the other end.
#![tactic(auto)]

mod tcp;

pub use tcp::TcpWires;
