//! Accesses outside their objects (C11 6.5.6).
ghost use Rattle.std.specs.Prelude.{◌≡◌};

use crate::intervals::NEGATIVE;
use cs_checker::{Answer, Checker, NO_NUMBER, Subject};
use cs_model::Kind;

/// Accesses below or past the extent of their objects or where no cell of their type begins, and pointers that leave the range of offsets.
#[derive(Drop)]
pub struct BoundsChecker {
    examined: u64,
}

impl BoundsChecker {
    pub fn new() -> BoundsChecker
        ensures { result.examined ≡ 0 }
    {
        BoundsChecker { examined: 0 }
    }
}

impl Checker for BoundsChecker {
    ghost use Rattle.cs_model.specs.declared.kind.Kind.TheVariants.{Bounds};

    ghost kind_of = { λ checker. Bounds };

    ghost count_of = { λ checker. checker.examined };

    fn kind(&self) -> Kind {
        Kind::Bounds
    }

    fn examine(&mut self, subject: &Subject) -> Answer {
        self.examined = self.examined.saturating_add(1);
        if let Subject::Rest { term } = subject {
            return Answer::of_sum(*term, [NEGATIVE, NO_NUMBER]);
        }
        if let Subject::Slot { fits } = subject {
            return Answer::of_test(!*fits);
        }
        Answer::never()
    }

    fn examined(&self) -> u64 {
        self.examined
    }
}
