//! The trait of checkers, and lists of them.
ghost use Rattle.std.specs.Prelude.{◌≡◌, ◌++◌, ◌∷◌, [], map, IfOk, OnOk, OnErr};
ghost use Rattle.cs_checker.specs.Asked.{IsAnsweredBy, IsAsked};

use crate::answer::Answer;
use crate::subject::Subject;
use cs_model::Kind;
use std::alloc::{AllocError, Global};

/// A checker of one kind of fault.
pub trait Checker: Drop {
    ghost use Rattle.std.specs.Prelude.{◌≡◌, ℕ};
    ghost use Rattle.cs_model.specs.declared.kind.Kind.{Kind};
    ghost use Rattle.cs_checker.specs.Answers.{YieldsFaults, HasTermsFor};
    ghost use Rattle.cs_checker.specs.Asked.{CountsOne};

    ghost kind_of: { Self → Kind };

    ghost count_of: { Self → ℕ };

    /// Returns the kind of its faults.
    fn kind(&self) -> Kind
        ensures { result ≡ kind_of self.now };

    /// Returns the conditions under which the operation ends in a fault of this kind.
    fn examine(&mut self, subject: &Subject) -> Answer
        ensures faults { YieldsFaults (kind_of self.old) subject.now result.conds }
        ensures terms { HasTermsFor subject.now result.conds }
        ensures kind { kind_of self.new ≡ kind_of self.old }
        ensures count { CountsOne (count_of self.old) (count_of self.new) };

    /// Returns how often `examine` was called, up to the greatest `u64`.
    fn examined(&self) -> u64
        ensures { result ≡ count_of self.now };
}

/// Appends a checker to the list.
pub fn add(
    checkers: &mut Vec<Box<dyn Checker>>,
    checker: Box<dyn Checker>,
) -> Result<(), AllocError>
    ensures kinds { OnOk result (map (λ b. kind_of b) checkers.new.items
        ≡ map (λ b. kind_of b) checkers.old.items ++ kind_of checker ∷ []) }
    ensures err { OnErr result (checkers.new.items ≡ checkers.old.items) }
{
    checkers.push(checker)?;
    Ok(())
}

/// Queries each checker once, in order, and returns their answers.
pub fn ask_each(
    alloc: Global,
    checkers: &mut Vec<Box<dyn Checker>>,
    subject: &Subject,
) -> Result<Vec<Answer>, AllocError>
    ensures asked { IfOk result (λ answers.
        IsAsked (λ b. kind_of b) (λ b. count_of b) subject.now checkers.old.items
        checkers.new.items answers.items) }
    ensures kinds { map (λ b. kind_of b) checkers.new.items
        ≡ map (λ b. kind_of b) checkers.old.items }
    ensures err { OnErr result (checkers.new.items ≡ checkers.old.items) }
{
    let mut answers = Vec::with_capacity(alloc, checkers.len())?;
    for checker in checkers.iter_mut() {
        let answer = ask(checker, subject);
        let Ok(()) = answers.push(answer) else {
            unreachable!()
        };
    }
    Ok(answers)
}

fn ask(checker: &mut Box<dyn Checker>, subject: &Subject) -> Answer
    ensures { IsAnsweredBy (kind_of checker.old) (kind_of checker.new) (count_of checker.old)
        (count_of checker.new) subject.now result }
{
    checker.examine(subject)
}
