//! How a run of the program ends.
ghost use Rattle.std.specs.Prelude.{◌≡◌};
ghost use Rattle.cs_answers.specs.Statuses.{status_code};

/// How a run of the program ends, and what it wrote.
#[derive(Clone, Copy, PartialEq, Eq, Debug)]
pub enum Status {
    /// Everything was analyzed, and there is nothing to report. The whole text is written.
    Clean,
    /// Something is reported. The whole text is written.
    Found,
    /// The command line isn't valid. The line that states this is written.
    BadWords,
    /// The file is refused. The line that states this is written.
    BadFile,
    /// The source failed. Nothing is written.
    ReadFault,
    /// The sink failed, or took nothing. A part of the text is written.
    WriteFault,
    /// Memory ran out. Nothing is written.
    Memory,
    /// The file has no function with the name and a body. The line that states this is written.
    NoEntry,
}

impl Status {
    /// Returns the exit status of the program.
    pub fn code(self) -> u8
        ensures { result ≡ status_code self }
    {
        match self {
            Status::Clean => 0,
            Status::Found => 1,
            Status::BadWords => 2,
            Status::BadFile => 3,
            Status::ReadFault => 4,
            Status::WriteFault => 5,
            Status::Memory => 6,
            Status::NoEntry => 7,
        }
    }
}
