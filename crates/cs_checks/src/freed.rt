//! Accesses to freed blocks (C11 6.2.4, 7.22.3).
ghost use Rattle.std.specs.Prelude.{◌≡◌};

use cs_checker::{Answer, Checker, Subject};
use cs_model::{Kind, Standing};

/// Accesses to a block that was freed.
#[derive(Drop)]
pub struct FreedChecker {
    examined: u64,
}

impl FreedChecker {
    pub fn new() -> FreedChecker
        ensures { result.examined ≡ 0 }
    {
        FreedChecker { examined: 0 }
    }
}

impl Checker for FreedChecker {
    ghost use Rattle.cs_model.specs.declared.kind.Kind.TheVariants.{Freed};

    ghost kind_of = { λ checker. Freed };

    ghost count_of = { λ checker. checker.examined };

    fn kind(&self) -> Kind {
        Kind::Freed
    }

    fn examine(&mut self, subject: &Subject) -> Answer {
        self.examined = self.examined.saturating_add(1);
        if let Subject::Reached {
            standing: Standing::Freed,
        } = subject
        {
            return Answer::of_test(true);
        }
        Answer::never()
    }

    fn examined(&self) -> u64 {
        self.examined
    }
}
