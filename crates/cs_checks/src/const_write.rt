//! Stores to constant objects (C11 6.4.5, 6.7.3).
ghost use Rattle.std.specs.Prelude.{◌≡◌};

use cs_checker::{Answer, Checker, Subject};
use cs_model::Kind;

/// Stores to a constant object or to a string literal.
#[derive(Drop)]
pub struct ConstWriteChecker {
    examined: u64,
}

impl ConstWriteChecker {
    pub fn new() -> ConstWriteChecker
        ensures { result.examined ≡ 0 }
    {
        ConstWriteChecker { examined: 0 }
    }
}

impl Checker for ConstWriteChecker {
    ghost use Rattle.cs_model.specs.declared.kind.Kind.TheVariants.{ConstWrite};

    ghost kind_of = { λ checker. ConstWrite };

    ghost count_of = { λ checker. checker.examined };

    fn kind(&self) -> Kind {
        Kind::ConstWrite
    }

    fn examine(&mut self, subject: &Subject) -> Answer {
        self.examined = self.examined.saturating_add(1);
        if let Subject::Written { constant } = subject {
            return Answer::of_test(*constant);
        }
        Answer::never()
    }

    fn examined(&self) -> u64 {
        self.examined
    }
}
