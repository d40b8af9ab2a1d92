// How a program ends.
ghost use Rattle.std.specs.Prelude.{◌≡◌};
ghost use Rattle.vt_base.specs.Status.{status_number};

/// How a program ends.
#[derive(Clone, Copy, Debug, PartialEq, Eq)]
pub enum Status {
    /// All was done.
    Ok,
    /// The words of the command line are not in its grammar.
    Usage,
    /// A line of the script is not in its grammar.
    Script,
    /// The input failed.
    ReadFault,
    /// The output failed.
    WriteFault,
    /// There was no memory.
    Memory,
    /// The input is larger than the program takes.
    Limit,
    /// What was asked for is refused in this state.
    Refused,
    /// What was asked for can't be done yet.
    NotYet,
}

impl Status {
    /// The exit status of the process: 0 for `Ok`, then 2 to 9 in the order above.
    pub fn number(&self) -> u8
        ensures value { result ≡ status_number self.now }
    {
        match *self {
            Status::Ok => 0,
            Status::Usage => 2,
            Status::Script => 3,
            Status::ReadFault => 4,
            Status::WriteFault => 5,
            Status::Memory => 6,
            Status::Limit => 7,
            Status::Refused => 8,
            Status::NotYet => 9,
        }
    }
}
