//! Prepared wires of one channel, for the requests and for the worker.
use ctrl_client::Wires;
use std::alloc::{AllocError, Global};
use tpm_frame::LARGEST_FRAME;
use vt_base::{ByteBuf, Bytes, Chan, Failed, FaultSchedule, MemSource, Source};

// Wires that give prepared bytes on one channel, so many at once at most, and keep what is sent and what is received.
// They give nothing of what is behind them. A call on the other channel fails.
#[derive(Drop)]
pub(crate) struct Script {
    chan: Chan,
    source: MemSource,
    piece: usize,
    pub(crate) sent: ByteBuf<LARGEST_FRAME>,
    came: ByteBuf<LARGEST_FRAME>,
    pub(crate) was_cut: bool,
    schedule: FaultSchedule,
}

impl Script {
    // Wires whose call of the number `failing` fails, if it isn't 0.
    pub(crate) fn new(
        alloc: Global,
        chan: Chan,
        bytes: &[u8],
        piece: usize,
        failing: u64,
    ) -> Result<Script, AllocError> {
        let bytes = Bytes::from_slice(alloc, bytes)?;
        Ok(Script {
            chan,
            source: MemSource::new(bytes, Vec::new(alloc)),
            piece,
            sent: ByteBuf::new(),
            came: ByteBuf::new(),
            was_cut: false,
            schedule: FaultSchedule::new(vec![in alloc; failing]?),
        })
    }
}

impl Wires for Script {
    ghost use Rattle.std.specs.Prelude.{Some, None, false, if◌then◌else◌};
    ghost use Rattle.ctrl_client.specs.Traffic.{over};

    ghost link = { λ _. None };

    ghost faults = { λ s. s.schedule.faults };

    ghost Schedule = { Unit {0} };

    ghost schedule = { λ _. tt };

    ghost fails = { λ _. false };

    ghost later = { λ schedule. schedule };

    ghost traffic = { λ s. Some (record { sent = over s.chan s.sent; received = over s.chan s.came }) };

    ghost cuts = { λ s. if s.was_cut then 1 else 0 };

    fn send(&mut self, chan: Chan, bytes: &[u8]) -> Result<(), Failed> {
        self.schedule.call()?;
        let room = LARGEST_FRAME - self.sent.as_slice().len();
        if chan != self.chan || bytes.len() > room {
            return Err(self.schedule.fault());
        }
        self.sent.push(bytes);
        Ok(())
    }

    fn receive(&mut self, chan: Chan, into: &mut [u8]) -> Result<usize, Failed> {
        self.schedule.call()?;
        if chan != self.chan {
            return Err(self.schedule.fault());
        }
        let room = LARGEST_FRAME - self.came.as_slice().len();
        let most = into.len().min(self.piece).min(room);
        match self.source.read(&mut into[..most]) {
            Ok(count) if count > 0 || into.is_empty() => {
                self.came.push(&into[..count]);
                Ok(count)
            }
            _ => Err(self.schedule.fault()),
        }
    }

    fn cut(&mut self, _: Chan) {
        self.was_cut = true;
    }
}
