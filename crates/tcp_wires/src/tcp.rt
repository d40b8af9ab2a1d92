//! Wires over TCP.
ghost use Rattle.std.specs.Prelude.{◌<◌, length, IfOk};
ghost use Rattle.std.specs.Io.{ReadsAtMost};

use ctrl_client::Wires;
use std::io;
use std::io::{Read, Write};
use std::net::{Ipv4Addr, Net, TcpStream};
use vt_base::{Chan, Failed};

// The connection of one channel. Once it has failed, each call on it fails.
#[derive(Drop)]
struct Line {
    stream: TcpStream,
    failed: bool,
}

/// Wires over two TCP connections to one emulator. After a call on a channel has failed, or the channel was cut, each later
/// call on it fails: bytes of an earlier reply may still come, and nobody can tell where they end.
#[derive(Drop)]
pub struct TcpWires {
    ctrl: Line,
    data: Line,
    faults: u64,
}

impl Line {
    fn connect<R: Net<Stream = TcpStream>>(rt: &R, port: u16) -> io::Result<Line> {
        let stream = TcpStream::connect(rt, (Ipv4Addr::LOCALHOST, port))?;
        // (A command and its response are small, and each waits for the other.)
        stream.set_nodelay(true)?;
        Ok(Line {
            stream,
            failed: false,
        })
    }

    fn send(&mut self, bytes: &[u8]) -> Result<(), Failed> {
        if self.failed || self.stream.write_all(bytes).is_err() {
            self.failed = true;
            return Err(Failed);
        }
        Ok(())
    }

    fn receive(&mut self, into: &mut [u8]) -> Result<usize, Failed>
        ensures bound { ReadsAtMost result into.new }
        ensures some { 0 < length into.old → IfOk result (λ n. 0 < n) }
    {
        if self.failed {
            return Err(Failed);
        }
        match self.stream.read(into) {
            Ok(count) if count > 0 || into.is_empty() => Ok(count),
            _ => {
                self.failed = true;
                Err(Failed)
            }
        }
    }
}

impl TcpWires {
    /// Connects both channels of an emulator at these ports of this machine, the control channel first.
    pub fn connect<R: Net<Stream = TcpStream>>(
        rt: &R,
        ctrl: u16,
        data: u16,
    ) -> io::Result<TcpWires> {
        Ok(TcpWires {
            ctrl: Line::connect(rt, ctrl)?,
            data: Line::connect(rt, data)?,
            faults: 0,
        })
    }
}

impl Wires for TcpWires {
    ghost use Rattle.std.specs.Prelude.{None, false};

    ghost link = { λ _. None };

    ghost faults = { λ w. w.faults };

    ghost Schedule = { Unit {0} };

    ghost schedule = { λ _. tt };

    ghost fails = { λ _. false };

    ghost later = { λ schedule. schedule };

    ghost traffic = { λ _. None };

    ghost cuts = { λ _. 0 };

    fn send(&mut self, chan: Chan, bytes: &[u8]) -> Result<(), Failed> {
        let sent = match chan {
            Chan::Data => self.data.send(bytes),
            Chan::Ctrl => self.ctrl.send(bytes),
        };
        if sent.is_err() {
            self.faults = self.faults.saturating_add(1);
        }
        sent
    }

    fn receive(&mut self, chan: Chan, into: &mut [u8]) -> Result<usize, Failed> {
        let received = match chan {
            Chan::Data => self.data.receive(into),
            Chan::Ctrl => self.ctrl.receive(into),
        };
        if received.is_err() {
            self.faults = self.faults.saturating_add(1);
        }
        received
    }

    fn cut(&mut self, chan: Chan) {
        match chan {
            Chan::Data => self.data.failed = true,
            Chan::Ctrl => self.ctrl.failed = true,
        }
    }
}
