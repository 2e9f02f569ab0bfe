//! How a call ends.

/// How a call of the program ended. The program exits with its number. A number means what it means of hpr, where
/// hpr has it too: 1 is an answer there too, and not a failure.
#[derive(Clone, Copy)]
pub enum Status {
    /// The command did what it is for.
    Done,
    /// The answer is no: of `fmt --check`, the file hasn't the canonical text.
    No,
    /// Bad input: a file, a text, or a byte that isn't there.
    Refused,
    /// A file could not be read.
    ReadFault,
    /// The output could not be written.
    WriteFault,
    /// The words are no call of a command.
    Words,
    /// Memory ran out.
    Memory,
}

impl Status {
    ghost use Rattle.std.specs.Prelude.{◌≡◌};
    ghost use Rattle.hpr_kit.specs.Number.{number_of};

    /// The exit status of the program: 0, 1 and 4 to 8 in the declared order.
    pub fn number(&self) -> u8
        ensures { result ≡ number_of self.now }
    {
        match self {
            Status::Done => 0,
            Status::No => 1,
            Status::Refused => 4,
            Status::ReadFault => 5,
            Status::WriteFault => 6,
            Status::Words => 7,
            Status::Memory => 8,
        }
    }
}
