//! Each call on the wires of a host fails in turn, before commands and moves.
//!
//! What is expected is counted line by line, by the table of injected faults in `docs/PROGRAMS.md`. No host is looked at.
use crate::failing::ends;
use std::alloc::{AllocError, Global};
use std::test::*;
use vt_base::{HostName, Status};

/// The numbers of the calls that fail, each in a script of its own, are those from 1 to this one.
const CALLS: u64 = 60;

/// How many moves a script has at most. By then each of the calls was made.
const MOVES: usize = 7;

/// How many calls an `offer` makes.
const OFFER: u64 = 9;

/// How many calls a request with a small reply makes.
const REQUEST: u64 = 2;

/// The two ends of a move.
#[derive(Clone, Copy, Debug, PartialEq, Eq)]
enum End {
    Source,
    Target,
}

/// The deliveries of a move, each to an end, with the calls that it makes on the wires of that host: an Offer, four times
/// Need and Piece, Prepared and Commit. The first part is no blob.
const DELIVERIES: [(End, u64); 11] = [
    (End::Target, 2),
    (End::Source, 0),
    (End::Target, 0),
    (End::Source, 3),
    (End::Target, 3),
    (End::Source, 3),
    (End::Target, 3),
    (End::Source, 3),
    (End::Target, 5),
    (End::Source, 0),
    (End::Target, 0),
];

/// How a script begins.
#[derive(Clone, Copy, Debug, PartialEq, Eq)]
enum Beginning {
    /// Two commands, and then a move.
    Commands,
    /// The second command is claimed when the guest is offered.
    Draining,
    /// The first command is cancelled at its emulator, and then there is a reset.
    Asked,
}

/// The guest starts TPM2_Startup(CLEAR).
const STARTUP: [&[u8]; 6] = [
    b"w 8 4 1\n",
    b"w 40 4 1\n",
    b"w 80 4 180\n",
    b"w 84 4 c00\n",
    b"w 88 4 4401\n",
    b"w 4c 4 1\n",
];

/// The guest starts GetRandom of 16 bytes.
const RANDOM: [&[u8]; 5] = [
    b"w 40 4 1\n",
    b"w 80 4 180\n",
    b"w 84 4 c00\n",
    b"w 88 4 10007b01\n",
    b"w 4c 4 1\n",
];

/// Where the guest is: on with its work, or its device is lost.
#[derive(Clone, Copy, Debug, PartialEq, Eq)]
enum Guest {
    On,
    Lost,
}

/// How a move or a part of it went.
#[derive(Clone, Copy, Debug, PartialEq, Eq)]
enum Went {
    On,
    /// A call failed, and the guest runs on where it was offered.
    Back,
}

/// A script, the replies to it, and what is counted for them.
#[derive(Drop)]
struct Script {
    lines: Vec<u8>,
    replies: Vec<u8>,
    /// On whose wires a call is to fail.
    host: HostName,
    /// How many calls are to come up to the one that fails; 0 once it failed.
    left: u64,
    epoch: u64,
    message: u64,
}

// The other host.
fn other(host: HostName) -> HostName {
    match host {
        HostName::A => HostName::B,
        HostName::B => HostName::A,
    }
}

impl Script {
    fn new(alloc: Global, host: HostName, call: u64) -> Result<Script, AllocError> {
        let name = match host {
            HostName::A => "a",
            HostName::B => "b",
        };
        let line = format!(in alloc; "fail {name} {call}\n")?;
        let mut script = Script {
            lines: Vec::new(alloc),
            replies: Vec::new(alloc),
            host,
            left: call,
            epoch: 0,
            message: 0,
        };
        script.say(line.as_bytes(), b"ok\n")?;
        Ok(script)
    }

    // A line and its reply.
    fn say(&mut self, line: &[u8], reply: &[u8]) -> Result<(), AllocError> {
        self.lines.extend_from_slice(line)?;
        self.replies.extend_from_slice(reply)
    }

    // Counts the calls of a line on the wires of a host, and answers whether one of them fails.
    fn fails(&mut self, host: HostName, calls: u64) -> bool {
        if host != self.host || self.left == 0 {
            return false;
        }
        if self.left <= calls {
            self.left = 0;
            return true;
        }
        self.left = self.left.saturating_sub(calls);
        false
    }

    // Writes of the guest at A.
    fn writes(&mut self, lines: &[&[u8]]) -> Result<(), AllocError> {
        for line in lines {
            self.say(line, b"ok\n")?;
        }
        Ok(())
    }

    // A step of the worker at A, with the calls that it makes.
    fn works(
        &mut self,
        alloc: Global,
        step: &str,
        number: u64,
        calls: u64,
    ) -> Result<Guest, AllocError> {
        let is_lost = self.fails(HostName::A, calls);
        let word = if is_lost { "lost" } else { step };
        let reply = format!(in alloc; "{word} {number}\n")?;
        self.say(b"work\n", reply.as_bytes())?;
        Ok(if is_lost { Guest::Lost } else { Guest::On })
    }

    // Up to this step of a command, which makes so many calls. No step follows one that lost the command.
    fn work_up_to(
        &mut self,
        alloc: Global,
        number: u64,
        steps: &[(&str, u64)],
    ) -> Result<Guest, AllocError> {
        for (step, calls) in steps {
            if self.works(alloc, step, number, *calls)? == Guest::Lost {
                return Ok(Guest::Lost);
            }
        }
        Ok(Guest::On)
    }

    // The next message is sent: its number.
    fn send(&mut self) -> u64 {
        self.message = self.message.saturating_add(1);
        self.message
    }

    // The guest is offered: the words that say so.
    fn offered(&mut self, alloc: Global) -> Result<String, AllocError> {
        self.epoch = self.epoch.saturating_add(1);
        let message = self.send();
        let epoch = self.epoch;
        format!(in alloc; "offered {epoch} sent {message}\n")
    }

    // The guest is offered at a host.
    fn offers(&mut self, alloc: Global, source: HostName) -> Result<Went, AllocError> {
        if self.fails(source, OFFER) {
            self.say(b"offer\n", b"link\n")?;
            return Ok(Went::Back);
        }
        let reply = self.offered(alloc)?;
        self.say(b"offer\n", reply.as_bytes())?;
        Ok(Went::On)
    }

    // The last message is delivered.
    fn delivers(&mut self, alloc: Global, reply: &str) -> Result<(), AllocError> {
        let message = self.message;
        let line = format!(in alloc; "deliver {message}\n")?;
        self.say(line.as_bytes(), reply.as_bytes())
    }

    // The last message is delivered, and another is sent; the words before that.
    fn delivers_and_sends(&mut self, alloc: Global, words: &str) -> Result<(), AllocError> {
        let next = self.message.saturating_add(1);
        let reply = format!(in alloc; "{words}sent {next}\n")?;
        self.delivers(alloc, reply.as_str())?;
        self.send();
        Ok(())
    }

    // A call failed at the delivery to an end. The target refuses; the source gives up.
    fn fails_at(&mut self, alloc: Global, end: End) -> Result<(), AllocError> {
        match end {
            End::Target => {
                self.delivers_and_sends(alloc, "refused link ")?;
                self.delivers(alloc, "resumed\n")
            }
            End::Source => {
                self.delivers(alloc, "link\n")?;
                let message = self.send();
                let reply = format!(in alloc; "resumed sent {message}\n")?;
                self.say(b"giveup\n", reply.as_bytes())
            }
        }
    }

    // The messages of a move from this host are delivered, each once.
    fn deliver_all(&mut self, alloc: Global, source: HostName) -> Result<Went, AllocError> {
        for (row, (end, calls)) in DELIVERIES.iter().enumerate() {
            let host = match end {
                End::Source => source,
                End::Target => other(source),
            };
            if self.fails(host, *calls) {
                self.fails_at(alloc, *end)?;
                return Ok(Went::Back);
            }
            if row == 10 {
                self.delivers(alloc, "running\n")?;
            } else {
                self.delivers_and_sends(alloc, "")?;
            }
        }
        Ok(Went::On)
    }

    // A whole move from this host.
    fn moves(&mut self, alloc: Global, source: HostName) -> Result<Went, AllocError> {
        match self.offers(alloc, source)? {
            Went::Back => Ok(Went::Back),
            Went::On => self.deliver_all(alloc, source),
        }
    }

    // Moves, up to the one behind that which met the fault; where the guest is, it is offered next.
    fn move_on(&mut self, alloc: Global, first: HostName) -> Result<(), AllocError> {
        let mut source = first;
        for _ in 0..MOVES {
            let is_last = self.left == 0;
            if self.moves(alloc, source)? == Went::On {
                source = other(source);
            }
            if is_last {
                return Ok(());
            }
        }
        Ok(())
    }

    // The device is lost: it is neither worked at, nor reset, nor offered.
    fn is_lost(&mut self) -> Result<(), AllocError> {
        self.say(b"work\n", b"idle\n")?;
        self.say(b"r 44 4\n", b"00000001\n")?;
        self.say(b"w 40 4 1\n", b"ok\n")?;
        self.say(b"r 44 4\n", b"00000001\n")?;
        self.say(b"reset\n", b"failed device\n")?;
        self.say(b"offer\n", b"failed device\n")
    }

    // The second command; the guest may be offered when it is claimed. Which host goes on.
    fn random(&mut self, alloc: Global, is_draining: bool) -> Result<Option<HostName>, AllocError> {
        self.writes(&RANDOM)?;
        self.works(alloc, "claim", 2, 0)?;
        if is_draining {
            self.say(b"offer\n", b"draining 2\n")?;
        }
        if self.work_up_to(alloc, 2, &[("sent", 1), ("exec", 1)])? == Guest::Lost {
            return Ok(None);
        }
        if is_draining {
            return self.drains(alloc);
        }
        match self.works(alloc, "done", 2, 1)? {
            Guest::Lost => Ok(None),
            Guest::On => Ok(Some(HostName::A)),
        }
    }

    // The second command is done, and then the guest is offered and moved.
    fn drains(&mut self, alloc: Global) -> Result<Option<HostName>, AllocError> {
        if self.fails(HostName::A, 1) {
            self.say(b"work\n", b"lost 2\n")?;
            return Ok(None);
        }
        if self.fails(HostName::A, OFFER) {
            self.say(b"work\n", b"done 2 link\n")?;
            return Ok(Some(HostName::A));
        }
        let offered = self.offered(alloc)?;
        let text = offered.as_str();
        let reply = format!(in alloc; "done 2 {text}")?;
        self.say(b"work\n", reply.as_bytes())?;
        Ok(Some(match self.deliver_all(alloc, HostName::A)? {
            Went::On => HostName::B,
            Went::Back => HostName::A,
        }))
    }

    // A cancel at the emulator: whether it arrived.
    fn asks(&mut self) -> Result<bool, AllocError> {
        let is_behind = self.host == HostName::A && self.left == REQUEST;
        if self.fails(HostName::A, REQUEST) {
            self.say(b"ask\n", b"link\n")?;
            return Ok(is_behind);
        }
        self.say(b"ask\n", b"asked\n")?;
        Ok(true)
    }

    // A reset.
    fn resets(&mut self) -> Result<Guest, AllocError> {
        if self.fails(HostName::A, REQUEST) {
            self.say(b"reset\n", b"link\n")?;
            return Ok(Guest::Lost);
        }
        self.say(b"reset\n", b"reset\n")?;
        Ok(Guest::On)
    }

    // The first command with a cancel at the emulator, and a reset behind it.
    fn cancel_and_reset(&mut self, alloc: Global) -> Result<Guest, AllocError> {
        if self.work_up_to(alloc, 1, &[("claim", 0), ("sent", 1)])? == Guest::Lost {
            return Ok(Guest::Lost);
        }
        let step = if self.asks()? { "cancelled" } else { "done" };
        if self.work_up_to(alloc, 1, &[("exec", 1), (step, 0)])? == Guest::Lost {
            return Ok(Guest::Lost);
        }
        self.resets()
    }

    // The script up to the first whole move: which host goes on.
    fn begin(&mut self, alloc: Global, how: Beginning) -> Result<Option<HostName>, AllocError> {
        self.writes(&STARTUP)?;
        if how == Beginning::Asked {
            return match self.cancel_and_reset(alloc)? {
                Guest::Lost => Ok(None),
                Guest::On => Ok(Some(HostName::A)),
            };
        }
        let steps = [("claim", 0), ("sent", 1), ("exec", 1), ("done", 0)];
        match self.work_up_to(alloc, 1, &steps)? {
            Guest::Lost => Ok(None),
            Guest::On => self.random(alloc, how == Beginning::Draining),
        }
    }
}

// What the guest reads at last: the size of the random bytes' response, or nothing after a reset.
fn last_word(how: Beginning) -> &'static [u8] {
    match how {
        Beginning::Asked => b"ffffffff\n",
        Beginning::Commands | Beginning::Draining => b"00001c00\n",
    }
}

// A script in which this call fails, and the replies to it.
fn script_of(
    alloc: Global,
    how: Beginning,
    host: HostName,
    call: u64,
) -> Result<Script, AllocError> {
    let mut script = Script::new(alloc, host, call)?;
    match script.begin(alloc, how)? {
        None => script.is_lost()?,
        Some(host) => {
            script.move_on(alloc, host)?;
            script.say(b"r 84 4\n", last_word(how))?;
        }
    }
    Ok(script)
}

// Whether the replies are as they are counted.
fn is_answered(
    alloc: Global,
    how: Beginning,
    host: HostName,
    call: u64,
) -> Result<bool, AllocError> {
    let script = script_of(alloc, how, host, call)?;
    // The fault was met: otherwise a script would show nothing of it.
    Ok(script.left == 0 && ends(alloc, "replay", &script.lines, Status::Ok, &script.replies)?)
}

// The first call on the wires of this host whose failure is answered otherwise.
fn wrong_call(alloc: Global, how: Beginning, host: HostName) -> Result<Option<u64>, AllocError> {
    for call in 1..=CALLS {
        if !is_answered(alloc, how, host, call)? {
            return Ok(Some(call));
        }
    }
    Ok(None)
}

#[test]
fn a_failed_call_of_commands_and_moves(rt: HostRuntime) -> Result<(), Fail> {
    let how = Beginning::Commands;
    assert_eq!(rt; wrong_call(rt.alloc(), how, HostName::A)?, None);
    assert_eq!(rt; wrong_call(rt.alloc(), how, HostName::B)?, None);
    Ok(())
}

#[test]
fn a_failed_call_of_a_host_that_drains(rt: HostRuntime) -> Result<(), Fail> {
    let how = Beginning::Draining;
    assert_eq!(rt; wrong_call(rt.alloc(), how, HostName::A)?, None);
    assert_eq!(rt; wrong_call(rt.alloc(), how, HostName::B)?, None);
    Ok(())
}

#[test]
fn a_failed_call_of_a_cancel_and_a_reset(rt: HostRuntime) -> Result<(), Fail> {
    let how = Beginning::Asked;
    assert_eq!(rt; wrong_call(rt.alloc(), how, HostName::A)?, None);
    assert_eq!(rt; wrong_call(rt.alloc(), how, HostName::B)?, None);
    Ok(())
}
