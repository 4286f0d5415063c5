//! Accesses to locals of ended frames (C11 6.2.4).
ghost use Rattle.std.specs.Prelude.{◌≡◌};

use cs_checker::{Answer, Checker, Subject};
use cs_model::{Kind, Standing};

/// Accesses to a local of a frame that has ended.
#[derive(Drop)]
pub struct DeadLocalChecker {
    examined: u64,
}

impl DeadLocalChecker {
    pub fn new() -> DeadLocalChecker
        ensures { result.examined ≡ 0 }
    {
        DeadLocalChecker { examined: 0 }
    }
}

impl Checker for DeadLocalChecker {
    ghost use Rattle.cs_model.specs.declared.kind.Kind.TheVariants.{DeadLocal};

    ghost kind_of = { λ checker. DeadLocal };

    ghost count_of = { λ checker. checker.examined };

    fn kind(&self) -> Kind {
        Kind::DeadLocal
    }

    fn examine(&mut self, subject: &Subject) -> Answer {
        self.examined = self.examined.saturating_add(1);
        if let Subject::Reached {
            standing: Standing::Ended,
        } = subject
        {
            return Answer::of_test(true);
        }
        Answer::never()
    }

    fn examined(&self) -> u64 {
        self.examined
    }
}
