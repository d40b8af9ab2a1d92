//! An emulator that several threads share.
ghost use Rattle.std.specs.Prelude.{None};

use ctrl_codec::Out;
use std::alloc::Global;
use std::sync::{Arc, Mutex, Wait};
use tpm_frame::Took;
use vt_base::Buf;
use vt_emulator::{Desk, Emulator, Heard};

/// An emulator behind a lock, which each call takes and gives back. Other threads call the emulator between two calls, so
/// nothing is known of its state.
#[derive(Drop)]
pub struct LockedDesk<R: Wait> {
    rt: R,
    emulator: Arc<Mutex<Emulator>, Global>,
}

impl<R: Wait> LockedDesk<R> {
    /// Over this emulator.
    pub fn new(rt: R, emulator: Arc<Mutex<Emulator>, Global>) -> Self {
        LockedDesk { rt, emulator }
    }
}

impl<R: Wait> Desk for LockedDesk<R> {
    ghost state = { λ _. None };

    fn control(&mut self, bytes: &[u8], out: &mut Out) -> Heard {
        self.emulator.lock(&self.rt).control(bytes, out)
    }

    fn data(&mut self, bytes: &[u8]) -> Took {
        self.emulator.lock(&self.rt).data(bytes)
    }

    fn run_held(&mut self, into: &mut Buf) -> usize {
        self.emulator.lock(&self.rt).run_held(into)
    }
}
