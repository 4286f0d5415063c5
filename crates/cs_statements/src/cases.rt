//! The labels of a `switch` (C11 6.8.4.2, paragraph 3).
ghost use Rattle.std.specs.Prelude.{◌≡◌, ◌||◌, [], Some, None, OnOk, OnErr, ℤ};
ghost use Rattle.std.specs.HashSet.{contains};
ghost use Rattle.std.specs.Ordering.{int_eq};
ghost use Rattle.cs_declarations.specs.Answered.{Leaves};
ghost use Rattle.cs_statements.specs.Statements.{is_case, same_value, case_put};

use cs_ast::Place;
use cs_ast::typed::statement::Case;
use cs_scopes::{TypeCode, TypeRefusal};
use std::alloc::{AllocError, Global};
use std::collections::HashSet;
use std::marker::Model;

/// The cases so far, and a set of their numbers. A contract sees them as a list.
#[derive(Drop)]
pub struct Cases {
    list: Vec<Case>,
    numbers: HashSet<i128>,
    has_default: bool,
}

impl Model for Cases {
    ghost use Rattle.std.specs.Prelude.{List};
    ghost use Rattle.cs_ast.specs.declared.typed.statement.Case.{Case};
    ghost use Rattle.cs_statements.specs.CaseNumbers.{HasNumbers};

    ghost Value = { List Case };

    ghost view = { λ all. all.list.items };

    ghost invariant = { λ all. HasNumbers all.numbers all.has_default all.list.items };
}

impl Cases {
    /// Returns an empty list.
    pub fn new(alloc: Global) -> Cases
        ensures { result ≡ [] }
    {
        Cases {
            list: Vec::new(alloc),
            numbers: HashSet::new(alloc),
            has_default: false,
        }
    }

    /// Adds a label before the statement with a number; a label that the `switch` already has is refused.
    pub fn add(&mut self, place: Place, value: Option<i128>, item: usize) -> Result<(), TypeRefusal>
        ensures { Leaves (case_put place value item self.old) result self.new }
    {
        let item = u32::try_from(item).map_err(|_| AllocError)?;
        if self.has(value) {
            return Err(TypeRefusal::Code(TypeCode::CaseTwice, place));
        }
        self.list.push(Case { value, item })?;
        if let Err(error) = note(&mut self.numbers, &mut self.has_default, value) {
            let _ = self.list.pop();
            return Err(TypeRefusal::from(error));
        }
        Ok(())
    }

    // Whether there is a label with this number, or `default`.
    fn has(&self, value: Option<i128>) -> bool
        ensures { result ≡ is_case value self.now }
    {
        match value {
            Some(number) => self.numbers.contains(&number),
            None => self.has_default,
        }
    }

    /// Returns the cases in their order.
    pub fn into_list(self) -> Vec<Case>
        ensures { result.items ≡ self }
    {
        self.list
    }
}

// Enters the number of a label, or notes that there is a `default`.
fn note(
    numbers: &mut HashSet<i128>,
    has_default: &mut bool,
    value: Option<i128>,
) -> Result<(), AllocError>
    ensures number { OnOk result ((n : ℤ)
        → contains int_eq numbers.new n
        ≡ (contains int_eq numbers.old n || same_value value (Some n))) }
    ensures default { OnOk result (has_default.new ≡ (has_default.old || same_value value None)) }
    ensures kept { OnErr result ((n : ℤ)
        → contains int_eq numbers.new n ≡ contains int_eq numbers.old n) }
    ensures default_kept { OnErr result (has_default.new ≡ has_default.old) }
{
    match value {
        Some(number) => {
            numbers.insert(number)?;
        }
        None => *has_default = true,
    }
    Ok(())
}
