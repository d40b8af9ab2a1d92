//! How the program ends: its text, its exit status and why.
ghost use Rattle.std.specs.Prelude.{◌≡◌};
ghost use Rattle.crbd.specs.Endings.{ending_number, ending_of, first_counts};

use emulator_server::Served;
use vt_base::Status;

const HELP: &str =
    "crbd: these words are no command. The one command serves a TPM emulator on two ports of 127.0.0.1:
  crbd emulator CTRL DATA new    one with a TPM that power never came to
  crbd emulator CTRL DATA empty  one without a TPM, which a host gives the blobs of one
CTRL and DATA are 1 to 65535. One connection is taken on each, and the program ends when both have ended.
statuses: 0 done, 2 words, 4 read, 5 write, 6 memory, 7 limit, 8 cut, 10 no socket
docs/CONTROL.md has the messages.";

/// How the program ends.
#[derive(Clone, Copy)]
pub enum Ending {
    Status(Status),
    /// A connection ended inside a message.
    Cut,
    /// A port couldn't be listened on.
    NoSocket,
}

/// How the program ends where its connections ended so. That of the control channel counts, and if it ended well, the other.
pub fn ending_of_both(control: Served, commands: Served) -> Ending
    ensures { result ≡ first_counts (ending_of control) (ending_of commands) }
{
    match ending_of(control) {
        Ending::Status(Status::Ok) => ending_of(commands),
        ending => ending,
    }
}

fn ending_of(served: Served) -> Ending
    ensures { result ≡ ending_of served }
{
    match served {
        Served::Ended | Served::Closed => Ending::Status(Status::Ok),
        Served::ReadFault => Ending::Status(Status::ReadFault),
        Served::WriteFault => Ending::Status(Status::WriteFault),
        Served::Memory => Ending::Status(Status::Memory),
        Served::Turns => Ending::Status(Status::Limit),
        Served::Cut(_) => Ending::Cut,
        // (An emulator's connection never ends so.)
        Served::Bad(_) | Served::Wires(_) => Ending::Status(Status::Refused),
    }
}

impl Ending {
    /// The exit status.
    pub fn number(&self) -> u8
        ensures { result ≡ ending_number self.now }
    {
        match self {
            Ending::Status(status) => status.number(),
            Ending::Cut => 8,
            Ending::NoSocket => 10,
        }
    }

    /// What is written to standard output.
    pub fn text(&self) -> Option<&'static str> {
        match self {
            Ending::Status(Status::Usage) => {
                Some("usage: crbsim replay, drive, suspend, resume, check or bulk")
            }
            Ending::NoSocket => Some("no socket"),
            _ => None,
        }
    }

    /// Why it ended so, in one sentence for a person.
    pub fn explanation(&self) -> Option<&'static str> {
        match self {
            Ending::Status(Status::Ok) => None,
            Ending::Status(Status::Usage) => Some(HELP),
            Ending::Status(Status::ReadFault) => {
                Some("crbd: a connection couldn't be taken or read.")
            }
            Ending::Status(Status::WriteFault) => {
                Some("crbd: a connection or standard output couldn't be written.")
            }
            Ending::Status(Status::Memory) => Some("crbd: there wasn't enough memory."),
            Ending::Status(_) => Some("crbd: a connection brought 1,000,000 messages."),
            Ending::Cut => Some("crbd: a connection ended inside a message."),
            Ending::NoSocket => Some("crbd: a port of 127.0.0.1 couldn't be listened on."),
        }
    }
}
