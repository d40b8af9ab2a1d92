//! Connections in memory, and one over loopback.
use crate::emulator::serve_first;
use crate::{Served, serve_emulator};
use ctrl_client::{Wires, init, receive_exact};
use std::alloc::{AllocError, Global};
use std::net::{Ipv4Addr, Net, SocketAddr, TcpListener, TcpStream};
use std::sync::{Arc, Mutex};
use std::test::*;
use std::thread;
use tcp_wires::TcpWires;
use tpm_core::Banks;
use vt_base::{Bytes, Chan, MemSink, MemSource};
use vt_emulator::Emulator;

// TPM2_Startup(CLEAR), and its responses of a TPM that is on and off.
const STARTUP: [u8; 12] = [0x80, 1, 0, 0, 0, 0x0C, 0, 0, 1, 0x44, 0, 0];

const STARTED: [u8; 10] = [0x80, 1, 0, 0, 0, 0x0A, 0, 0, 0, 0];

const IS_OFF: [u8; 10] = [0x80, 1, 0, 0, 0, 0x0A, 0, 0, 1, 1];

// A connection: its channel, the bytes that come, those that are written, and how it ends.
struct Case {
    chan: Chan,
    input: &'static [u8],
    output: &'static [u8],
    end: Served,
}

static CASES: [Case; 6] = [
    // SET_STATEBLOB of 4097 bytes: refused, and nothing can be read behind it.
    Case {
        chan: Chan::Ctrl,
        input: &[0, 0, 0, 0x0D, 0, 0, 0, 0, 0, 0, 0, 1, 0, 0, 0x10, 1],
        output: &[0, 0, 0, 3],
        end: Served::Closed,
    },
    // INIT without the second half of its flags.
    Case {
        chan: Chan::Ctrl,
        input: &[0, 0, 0, 2, 0, 0],
        output: &[],
        end: Served::Cut(6),
    },
    // A byte that no blob begins with: refused, and the channel stays open.
    Case {
        chan: Chan::Ctrl,
        input: &[0, 0, 0, 0x0D, 0, 0, 0, 0, 0, 0, 0, 1, 0, 0, 0, 1, 0x58],
        output: &[0, 0, 0, 3],
        end: Served::Ended,
    },
    // A command to an emulator that is off.
    Case {
        chan: Chan::Data,
        input: &STARTUP,
        output: &IS_OFF,
        end: Served::Ended,
    },
    // SHUTDOWN, and a request that nobody hears any more.
    Case {
        chan: Chan::Ctrl,
        input: &[0, 0, 0, 3, 0, 0, 0, 1],
        output: &[0, 0, 0, 0],
        end: Served::Closed,
    },
    // Every kind of reply, and a code that no request has.
    Case {
        chan: Chan::Ctrl,
        input: &[
            0, 0, 0, 1, //
            0, 0, 0, 2, 0, 0, 0, 0, //
            0, 0, 0, 0x11, 0, 0, 0x0F, 0x80, //
            0, 0, 0, 0x0C, 0, 0, 0, 0, 0, 0, 0, 2, 0, 0, 0, 0, //
            0, 0, 0, 0x0C, 0, 0, 0, 0, 0, 0, 0, 4, 0, 0, 0, 0, //
            0, 0, 0, 0x63,
        ],
        output: &[
            0, 0, 0, 0, 0, 0, 0x2F, 0xEF, //
            0, 0, 0, 0, //
            0, 0, 0, 0, 0, 0, 0x0F, 0x80, 0, 0, 4, 0, 0, 0, 0x10, 0, //
            0, 0, 0, 0, 0, 0, 0, 0, 0, 0, 0, 0x0A, 0, 0, 0, 0x0A, //
            0x43, 0x52, 0x42, 0x56, 2, 0, 0, 0, 1, 0, //
            0, 0, 0, 3, 0, 0, 0, 0, 0, 0, 0, 0, 0, 0, 0, 0, //
            0, 0, 0, 0x0A,
        ],
        end: Served::Closed,
    },
];

// What a fresh emulator writes over a channel, and how that ends.
fn serve_in_memory(
    alloc: Global,
    chan: Chan,
    input: &[u8],
) -> Result<(Served, MemSink), AllocError> {
    let mut emulator = Emulator::new(alloc, [0; 32], Banks::Two, 4096)?;
    let mut source = MemSource::new(Bytes::from_slice(alloc, input)?, Vec::new(alloc));
    let mut sink = MemSink::new(alloc, 1000, Vec::new(alloc))?;
    let end = serve_emulator(alloc, &mut emulator, chan, &mut source, &mut sink);
    Ok((end, sink))
}

// The first case that differs.
fn differing_case(alloc: Global) -> Result<Option<usize>, AllocError> {
    for i in 0..CASES.len() {
        let case = &CASES[i];
        let (end, sink) = serve_in_memory(alloc, case.chan, case.input)?;
        if end != case.end || sink.bytes() != case.output {
            return Ok(Some(i));
        }
    }
    Ok(None)
}

#[test]
fn connections_end_by_their_bytes(rt: HostRuntime) -> Result<(), Fail> {
    assert!(rt; differing_case(rt.alloc())?.is_none());
    Ok(())
}

// A start over both channels of an emulator, and its response.
fn start<W: Wires>(wires: &mut W, into: &mut [u8; 10]) -> bool {
    init(wires, 0).is_ok()
        && wires.send(Chan::Data, &STARTUP).is_ok()
        && receive_exact(wires, Chan::Data, into).is_ok()
}

// The same over TCP.
fn start_over<R: Net<Stream = TcpStream>>(rt: &R, ctrl: u16, data: u16) -> Option<[u8; 10]> {
    let mut wires = TcpWires::connect(rt, ctrl, data).ok()?;
    let mut into = [0; 10];
    let started = start(&mut wires, &mut into);
    started.then_some(into)
}

#[test]
fn starts_over_loopback(rt: HostRuntime) -> Result<(), Fail> {
    let alloc = rt.alloc();
    let any = SocketAddr::from((Ipv4Addr::LOCALHOST, 0));
    let ctrl = TcpListener::bind(&rt, any)?;
    let data = TcpListener::bind(&rt, any)?;
    let (ctrl_port, data_port) = (ctrl.local_addr()?.port(), data.local_addr()?.port());
    let shared = Arc::new(
        alloc,
        Mutex::new(Emulator::new(alloc, [0; 32], Banks::Two, 4096)?),
    )?;
    let other = Arc::try_clone(&shared)?;
    let (ctrl_end, (data_end, response)) = thread::join(
        &rt,
        move || serve_first(rt, alloc, ctrl, Chan::Ctrl, shared),
        move || {
            thread::join(
                &rt,
                move || serve_first(rt, alloc, data, Chan::Data, other),
                move || start_over(&rt, ctrl_port, data_port),
            )
        },
    );
    assert!(rt; ctrl_end == Served::Ended);
    assert!(rt; data_end == Served::Ended);
    assert!(rt; response == Some(STARTED));
    Ok(())
}
