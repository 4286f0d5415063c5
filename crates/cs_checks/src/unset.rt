//! Uses of values that were never written (C11 6.3.2.1, annex J.2).
ghost use Rattle.std.specs.Prelude.{◌≡◌};

use cs_checker::{Answer, Checker, Subject};
use cs_model::Kind;

/// Loads of cells that were never written, and uses of results that were never returned.
#[derive(Drop)]
pub struct UnsetChecker {
    examined: u64,
}

impl UnsetChecker {
    pub fn new() -> UnsetChecker
        ensures { result.examined ≡ 0 }
    {
        UnsetChecker { examined: 0 }
    }
}

impl Checker for UnsetChecker {
    ghost use Rattle.cs_model.specs.declared.kind.Kind.TheVariants.{Unset};

    ghost kind_of = { λ checker. Unset };

    ghost count_of = { λ checker. checker.examined };

    fn kind(&self) -> Kind {
        Kind::Unset
    }

    fn examine(&mut self, subject: &Subject) -> Answer {
        self.examined = self.examined.saturating_add(1);
        if let Subject::Cell { unset } = subject {
            return Answer::of_test(*unset);
        }
        Answer::never()
    }

    fn examined(&self) -> u64 {
        self.examined
    }
}
