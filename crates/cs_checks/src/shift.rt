//! Shifts by counts outside the operand's width (C11 6.5.7).
ghost use Rattle.std.specs.Prelude.{◌≡◌};

use crate::intervals::{NEGATIVE, at_least};
use cs_checker::{Answer, Checker, Subject};
use cs_model::Kind;

/// Shifts by a count that is below 0 or at least the operand's width.
#[derive(Drop)]
pub struct ShiftChecker {
    examined: u64,
}

impl ShiftChecker {
    pub fn new() -> ShiftChecker
        ensures { result.examined ≡ 0 }
    {
        ShiftChecker { examined: 0 }
    }
}

impl Checker for ShiftChecker {
    ghost use Rattle.cs_model.specs.declared.kind.Kind.TheVariants.{Shift};

    ghost kind_of = { λ checker. Shift };

    ghost count_of = { λ checker. checker.examined };

    fn kind(&self) -> Kind {
        Kind::Shift
    }

    fn examine(&mut self, subject: &Subject) -> Answer {
        self.examined = self.examined.saturating_add(1);
        if let Subject::Shift { count, width } = subject {
            return Answer::of_term(*count, [NEGATIVE, at_least(*width)]);
        }
        Answer::never()
    }

    fn examined(&self) -> u64 {
        self.examined
    }
}
