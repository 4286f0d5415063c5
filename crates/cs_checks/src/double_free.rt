//! Blocks that are freed twice (C11 7.22.3.3).
ghost use Rattle.std.specs.Prelude.{◌≡◌};

use cs_checker::{Answer, Checker, Subject};
use cs_model::{Freeable, Kind};

/// `free` of a block that was freed.
#[derive(Drop)]
pub struct DoubleFreeChecker {
    examined: u64,
}

impl DoubleFreeChecker {
    pub fn new() -> DoubleFreeChecker
        ensures { result.examined ≡ 0 }
    {
        DoubleFreeChecker { examined: 0 }
    }
}

impl Checker for DoubleFreeChecker {
    ghost use Rattle.cs_model.specs.declared.kind.Kind.TheVariants.{DoubleFree};

    ghost kind_of = { λ checker. DoubleFree };

    ghost count_of = { λ checker. checker.examined };

    fn kind(&self) -> Kind {
        Kind::DoubleFree
    }

    fn examine(&mut self, subject: &Subject) -> Answer {
        self.examined = self.examined.saturating_add(1);
        if let Subject::Release {
            block: Freeable::Freed,
            ..
        } = subject
        {
            return Answer::of_test(true);
        }
        Answer::never()
    }

    fn examined(&self) -> u64 {
        self.examined
    }
}
