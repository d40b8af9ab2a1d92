//! A polling driver of the Command Response Buffer: it sends a command over any [`Bus`] and reads the response.
//!
//! [`Driver::call`] does a whole command. [`Driver::start`], [`Driver::poll`] and [`Driver::finish`] are its three
//! parts, for a caller that does other work while the TPM is busy. Each says by its contract which accesses it made, in
//! which order and with which values; what an access does is determined by the bus. The driver keeps nothing between
//! two calls and takes no memory.
#![tactic(auto)]

mod access;
mod bus;
mod driver;
mod fault;
mod registers;
mod sizes;

pub use bus::Bus;
pub use driver::Driver;
pub use fault::DriverFault;
