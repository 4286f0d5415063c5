//! Accesses through null, and arithmetic on null (C11 6.5.3.2, 6.5.6).
ghost use Rattle.std.specs.Prelude.{◌≡◌};
ghost use Rattle.cs_model.specs.declared.kind.Kind.TheVariants.{Null};
ghost use Rattle.cs_checker.specs.Answers.{YieldsFaults, HasTermsFor};

use crate::intervals::{NEGATIVE, POSITIVE};
use cs_checker::{Answer, Checker, Subject};
use cs_model::Kind;
use cs_terms::Lin;

/// Accesses through null, and null moved by an amount other than 0.
#[derive(Drop)]
pub struct NullChecker {
    examined: u64,
}

impl NullChecker {
    pub fn new() -> NullChecker
        ensures { result.examined ≡ 0 }
    {
        NullChecker { examined: 0 }
    }
}

impl Checker for NullChecker {
    ghost kind_of = { λ checker. Null };

    ghost count_of = { λ checker. checker.examined };

    fn kind(&self) -> Kind {
        Kind::Null
    }

    fn examine(&mut self, subject: &Subject) -> Answer {
        self.examined = self.examined.saturating_add(1);
        if let Subject::Through { null } = subject {
            return Answer::of_test(*null);
        }
        if let Subject::Move { null, amount } = subject {
            return moved(*null, *amount);
        }
        Answer::never()
    }

    fn examined(&self) -> u64 {
        self.examined
    }
}

fn moved(null: bool, amount: Lin) -> Answer
    ensures faults { YieldsFaults Null (Subject.Move null amount) result.conds }
    ensures terms { HasTermsFor (Subject.Move null amount) result.conds }
{
    if null {
        Answer::of_term(amount, [NEGATIVE, POSITIVE])
    } else {
        Answer::never()
    }
}
