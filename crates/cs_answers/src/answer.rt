//! The answer of a run of the program, or why there is none.
ghost use Rattle.std.specs.Prelude.{◌≡◌};
ghost use Rattle.cs_answers.specs.Statuses.{ended_by, ended_with};

use crate::status::Status;
use cs_io::WriteRefusal;
use std::alloc::AllocError;

/// The text of a run, and its status if the text is written completely.
#[derive(Drop)]
pub struct Answer {
    pub status: Status,
    pub text: Vec<u8>,
}

impl Answer {
    /// Returns how the run ends, given how its text was written.
    pub fn ended(&self, text: Result<(), WriteRefusal>) -> Status
        ensures { result ≡ ended_with self.now.status text }
    {
        match text {
            Ok(()) => self.status,
            Err(WriteRefusal::WriteFault) => Status::WriteFault,
        }
    }
}

/// Why there is no text.
#[derive(Clone, Copy, PartialEq, Eq, Debug)]
pub enum Failure {
    /// The source failed.
    Read,
    /// Memory ran out.
    Memory,
}

impl Failure {
    /// Returns how the run ends.
    pub fn ended(self) -> Status
        ensures { result ≡ ended_by self }
    {
        match self {
            Failure::Read => Status::ReadFault,
            Failure::Memory => Status::Memory,
        }
    }
}

impl From<AllocError> for Failure {
    ghost use Rattle.cs_answers.specs.declared.answer.Failure.TheVariants.{Memory};

    ghost from_gives = { λ _ failure. failure ≡ Memory };

    fn from(_error: AllocError) -> Failure {
        Failure::Memory
    }
}
