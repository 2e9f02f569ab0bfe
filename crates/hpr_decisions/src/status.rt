//! How a call ends.

/// How a call of the program ended. The program exits with its number.
#[derive(Clone, Copy)]
pub enum Status {
    /// The command did what it is for.
    Done,
    /// The variants interfere.
    Interference,
    /// No program has the merged graph.
    NoProgram,
    /// The search budget is spent.
    Spent,
    /// Bad input: a file, a text, a word of the state, a point or a command of a script.
    Refused,
    /// A file could not be read.
    ReadFault,
    /// The output could not be written.
    WriteFault,
    /// The words are no call of a command.
    Words,
    /// Memory ran out.
    Memory,
    /// A run did not end normally.
    NotEnded,
    /// A merged program that was made elsewhere hasn't the merged graph, or the variants interfere.
    Rejected,
}

impl Status {
    ghost use Rattle.std.specs.Prelude.{◌≡◌};
    ghost use Rattle.hpr_decisions.specs.Number.{number_of};

    /// The exit status of the program: 0 to 10 in the declared order.
    pub fn number(&self) -> u8
        ensures { result ≡ number_of self.now }
    {
        match self {
            Status::Done => 0,
            Status::Interference => 1,
            Status::NoProgram => 2,
            Status::Spent => 3,
            Status::Refused => 4,
            Status::ReadFault => 5,
            Status::WriteFault => 6,
            Status::Words => 7,
            Status::Memory => 8,
            Status::NotEnded => 9,
            Status::Rejected => 10,
        }
    }
}
