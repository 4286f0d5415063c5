//! Frees of pointers that no allocation returned (C11 7.22.3.3).
ghost use Rattle.std.specs.Prelude.{◌≡◌};
ghost use Rattle.cs_model.specs.declared.kind.Kind.TheVariants.{BadFree};
ghost use Rattle.cs_checker.specs.Answers.{YieldsFaults, HasTermsFor};

use crate::intervals::{NEGATIVE, POSITIVE};
use cs_checker::{Answer, Checker, Subject};
use cs_model::{Freeable, Kind};
use cs_terms::Lin;

/// `free` of a local, a global or a literal, or of a live block at an offset other than 0.
#[derive(Drop)]
pub struct BadFreeChecker {
    examined: u64,
}

impl BadFreeChecker {
    pub fn new() -> BadFreeChecker
        ensures { result.examined ≡ 0 }
    {
        BadFreeChecker { examined: 0 }
    }
}

impl Checker for BadFreeChecker {
    ghost kind_of = { λ checker. BadFree };

    ghost count_of = { λ checker. checker.examined };

    fn kind(&self) -> Kind {
        Kind::BadFree
    }

    fn examine(&mut self, subject: &Subject) -> Answer {
        self.examined = self.examined.saturating_add(1);
        if let Subject::Release { block, offset } = subject {
            return released(*block, *offset);
        }
        Answer::never()
    }

    fn examined(&self) -> u64 {
        self.examined
    }
}

fn released(block: Freeable, offset: Lin) -> Answer
    ensures faults { YieldsFaults BadFree (Subject.Release block offset) result.conds }
    ensures terms { HasTermsFor (Subject.Release block offset) result.conds }
{
    match block {
        Freeable::Fixed => Answer::of_test(true),
        Freeable::Live => Answer::of_term(offset, [NEGATIVE, POSITIVE]),
        Freeable::Freed => Answer::never(),
    }
}
