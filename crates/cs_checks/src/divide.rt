//! Divisions by zero (C11 6.5.5).
ghost use Rattle.std.specs.Prelude.{◌≡◌};

use crate::intervals::ZERO;
use cs_checker::{Answer, Checker, NO_NUMBER, Subject};
use cs_model::Kind;

/// Divisions and remainders by zero.
#[derive(Drop)]
pub struct DivideChecker {
    examined: u64,
}

impl DivideChecker {
    pub fn new() -> DivideChecker
        ensures { result.examined ≡ 0 }
    {
        DivideChecker { examined: 0 }
    }
}

impl Checker for DivideChecker {
    ghost use Rattle.cs_model.specs.declared.kind.Kind.TheVariants.{Divide};

    ghost kind_of = { λ checker. Divide };

    ghost count_of = { λ checker. checker.examined };

    fn kind(&self) -> Kind {
        Kind::Divide
    }

    fn examine(&mut self, subject: &Subject) -> Answer {
        self.examined = self.examined.saturating_add(1);
        if let Subject::Divisor { term } = subject {
            return Answer::of_term(*term, [ZERO, NO_NUMBER]);
        }
        Answer::never()
    }

    fn examined(&self) -> u64 {
        self.examined
    }
}
