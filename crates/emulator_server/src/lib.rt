//! Serves one channel of an emulator to a peer.
//!
//! ```text
//! let shared = Arc::new(alloc, Mutex::new(Emulator::new(alloc, seed, Banks::Two, 4096)?))?;
//! // In a thread of its own for each channel, over the two halves of a connection:
//! let mut desk = LockedDesk::new(rt, shared);
//! let mut source = StdSource::new(&stream);
//! let mut sink = StdSink::new(&stream);
//! let end = serve_emulator(alloc, &mut desk, Chan::Ctrl, &mut source, &mut sink);
//! ```
//!
//! [`serve_emulator`] cuts the bytes that it reads into whole messages, has the emulator do each, and writes its reply
//! before it looks at the next. [`Served`] says how that ended. All memory is taken before the first byte is read. Where the
//! bytes come from is left to the caller: any source and any sink will do. [`LockedDesk`] lets several connections share one
//! emulator.
#![tactic(auto)]

pub mod laws;
mod locked_desk;
mod serve;
mod served;

pub use locked_desk::LockedDesk;
pub use serve::serve_emulator;
pub use served::Served;
