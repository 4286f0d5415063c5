//! Order comparisons and differences of pointers to different objects (C11 6.5.6, 6.5.8).
ghost use Rattle.std.specs.Prelude.{◌≡◌};

use cs_checker::{Answer, Checker, Subject};
use cs_model::Kind;

/// Order comparisons and differences of pointers to different objects.
#[derive(Drop)]
pub struct UnrelatedChecker {
    examined: u64,
}

impl UnrelatedChecker {
    pub fn new() -> UnrelatedChecker
        ensures { result.examined ≡ 0 }
    {
        UnrelatedChecker { examined: 0 }
    }
}

impl Checker for UnrelatedChecker {
    ghost use Rattle.cs_model.specs.declared.kind.Kind.TheVariants.{Unrelated};

    ghost kind_of = { λ checker. Unrelated };

    ghost count_of = { λ checker. checker.examined };

    fn kind(&self) -> Kind {
        Kind::Unrelated
    }

    fn examine(&mut self, subject: &Subject) -> Answer {
        self.examined = self.examined.saturating_add(1);
        if let Subject::Pair { same } = subject {
            return Answer::of_test(!*same);
        }
        Answer::never()
    }

    fn examined(&self) -> u64 {
        self.examined
    }
}
