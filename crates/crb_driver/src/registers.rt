//! How many bytes the driver's accesses have.

/// An access to a register.
pub const REGISTER_SIZE: u8 = 4;

/// An access to the data buffer.
pub const BYTE_SIZE: u8 = 1;
