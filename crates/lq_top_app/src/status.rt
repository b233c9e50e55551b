// The ways to end.
ghost use Rattle.std.specs.Prelude.{◌≡◌};

/// How a run ends.
#[derive(Clone, Copy, Debug, PartialEq, Eq)]
pub enum Status {
    /// The program is accepted.
    Good,
    /// No selection of instances makes all implications valid.
    Rejected,
    /// A number was past 128 bits, or a check took more pivots than the limit.
    Undecided,
    /// The texts are refused with a code.
    Refused,
    /// The words are no command.
    Usage,
    /// A file is absent, could not be read or is too long.
    File,
    /// The report could not be written whole.
    SinkFault,
    /// Memory ran out, and nothing was written.
    Memory,
}

impl Status {
    ghost use Rattle.lq_top_app.specs.Numbers.{number_of};

    /// The exit status of the process, 0 to 7 in the order above.
    pub fn number(&self) -> u8
        ensures { result ≡ number_of self.now }
    {
        match self {
            Status::Good => 0,
            Status::Rejected => 1,
            Status::Undecided => 2,
            Status::Refused => 3,
            Status::Usage => 4,
            Status::File => 5,
            Status::SinkFault => 6,
            Status::Memory => 7,
        }
    }
}
