//! One attempt to carry out an operation.
ghost use Rattle.std.specs.Prelude.{◌≡◌, ◌⊎◌, List, map, OnOk};
ghost use Rattle.cs_regions.specs.declared.base.Base.{Base};
ghost use Rattle.cs_terms.specs.Term.{Valuation};
ghost use Rattle.cs_events.specs.Acts.{Act};
ghost use Rattle.cs_cfg.specs.Working.{CodeState};
ghost use Rattle.cs_progress.specs.Answering.{IsAnsweredLater};
ghost use Rattle.cs_progress.specs.Acting.{Passes};
ghost use Rattle.cs_operators.specs.Asking.{KeepKinds, IsNoFault, HasEveryKind, ChecksFor};

use cs_access::{Rest, can_check, check};
use cs_ast::Place;
use cs_checker::{Checker, Subject};
use cs_progress::{Next, Pause, Progress};
use cs_state::State;
use std::alloc::Global;

/// The progress of an operation, and the checkers that it queries about what it is about to do.
#[derive(Drop)]
pub struct Attempt {
    pub alloc: Global,
    pub progress: Progress,
    pub checkers: Vec<Box<dyn Checker>>,
}

impl Attempt {
    /// Returns an attempt at the beginning of an operation.
    pub fn new(alloc: Global, checkers: Vec<Box<dyn Checker>>) -> Attempt
        ensures checkers { result.checkers.items ≡ checkers.items }
        ensures used { result.progress.used ≡ 0 }
    {
        Attempt {
            alloc,
            progress: Progress::new(),
            checkers,
        }
    }

    /// Checks that what is about to be done is a fault under no valuation that fits; else the operation waits with the faulty parts. What
    /// comes before an answered event was checked before that event.
    pub fn check(&mut self, state: &State, at: Place, subject: Subject) -> Result<(), Pause>
        ensures kinds { KeepKinds (λ b. kind_of b) self.old.checkers.items
            self.new.checkers.items }
        ensures passed { OnOk result (IsAnsweredLater state.now self.old.progress.used
            ⊎ IsNoFault state.now subject (map (λ b. kind_of b) self.old.checkers.items)) }
        ensures used { self.new.progress.used ≡ self.old.progress.used }
        ensures act { HasEveryKind (λ b. kind_of b) self.old.checkers.items
            → (bases : List Base) (checked : Valuation → Act CodeState → Act CodeState)
            → ChecksFor state.now subject at checked
            → Passes bases state.now self.old.progress self.new.progress result checked }
    {
        if self.progress.is_answered_later(state) {
            return Ok(());
        }
        if !can_check(state, &subject) {
            return Err(Pause::Memory);
        }
        let checked = check(self.alloc, state, &subject, &mut self.checkers)?;
        if let Rest::Whole = checked.rest {
            return Ok(());
        }
        let checked = Box::new(self.alloc, checked)?;
        Err(self.progress.wait(Next::Checks(at, checked)))
    }
}
