//! An emulator that is served on two ports, each by a thread of its own.
use crate::ending::{Ending, ending_of_both};
use crate::words::{Begin, EmulatorCommand};
use emulator_server::{LockedDesk, Served, serve_emulator};
use std::alloc::Global;
use std::net::{Ipv4Addr, Net, TcpListener, TcpStream};
use std::sync::{Arc, Mutex, Wait};
use std::thread::Threads;
use std::{io, thread};
use tpm_core::{Banks, SEED_SIZE};
use vt_base::{Chan, Status, StdSink, StdSource};
use vt_emulator::Emulator;

// How many bytes of a blob go with one reply at most.
const PIECE: u32 = 4096;

/// Serves an emulator until both its connections have ended. The status is that of the first of them that ended neither
/// between two messages nor closed, the control connection before the other.
pub fn run<R>(rt: &R, alloc: Global, command: &EmulatorCommand) -> Ending
where
    R: Threads + Wait + Net<Listener = TcpListener, Stream = TcpStream> + Copy + Drop + Send + Sync,
{
    let made = match command.begin {
        Begin::New => Emulator::new(alloc, [0; SEED_SIZE], Banks::Two, PIECE),
        Begin::Empty => Emulator::empty(alloc, PIECE),
    };
    let Ok(emulator) = made else {
        return Ending::Status(Status::Memory);
    };
    let (Ok(ctrl), Ok(data)) = (listen(rt, command.ctrl), listen(rt, command.data)) else {
        return Ending::NoSocket;
    };
    serve_both(rt, alloc, ctrl, data, emulator)
}

fn listen<R: Net<Listener = TcpListener, Stream = TcpStream>>(
    rt: &R,
    port: u16,
) -> io::Result<TcpListener> {
    TcpListener::bind(rt, (Ipv4Addr::LOCALHOST, port))
}

fn serve_both<R>(
    rt: &R,
    alloc: Global,
    ctrl: TcpListener,
    data: TcpListener,
    emulator: Emulator,
) -> Ending
where
    R: Threads + Wait + Copy + Drop + Send + Sync,
{
    let Ok(shared) = Arc::new(alloc, Mutex::new(emulator)) else {
        return Ending::Status(Status::Memory);
    };
    let Ok(other) = Arc::try_clone(&shared) else {
        return Ending::Status(Status::Memory);
    };
    let mine = *rt;
    let (ctrl, data) = thread::join(
        rt,
        move || serve_first(mine, alloc, ctrl, Chan::Ctrl, shared),
        move || serve_first(mine, alloc, data, Chan::Data, other),
    );
    ending_of_both(ctrl, data)
}

/// Takes one connection, and serves it. No other is taken: the listener is dropped, and whoever comes later is refused.
pub fn serve_first<R: Wait + Drop>(
    rt: R,
    alloc: Global,
    listener: TcpListener,
    chan: Chan,
    emulator: Arc<Mutex<Emulator>, Global>,
) -> Served {
    let accepted = listener.accept();
    drop(listener);
    let Ok((stream, _)) = accepted else {
        return Served::ReadFault;
    };
    // (Without it each response would wait for the peer's acknowledgement. Where it can't be set, that is all that happens.)
    let _slower = stream.set_nodelay(true);
    let mut desk = LockedDesk::new(rt, emulator);
    let mut source = StdSource::new(&stream);
    let mut sink = StdSink::new(&stream);
    serve_emulator(alloc, &mut desk, chan, &mut source, &mut sink)
}
