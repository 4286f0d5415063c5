//! The valuations under which a condition holds, and those under which it doesn't.
ghost use Rattle.std.specs.Prelude.{pos, IfOk};
ghost use Rattle.cs_terms.specs.Term.{value_of};
ghost use Rattle.cs_events.specs.Operations.{compares};
ghost use Rattle.cs_eval.specs.Operands.{IsTermInside};
ghost use Rattle.cs_eval.specs.Parts.{AreHalves};

use cs_ast::typed::operator::CmpOp;
use cs_constraints::Constraints;
use cs_signs::by_sign;
use cs_terms::Lin;
use std::alloc::{AllocError, Global};

/// The valuations under which a condition holds, and those under which it doesn't; `None` if there are none.
#[derive(Drop)]
pub(crate) struct Halves {
    pub holds: Option<Constraints>,
    pub fails: Option<Constraints>,
}

/// Splits constraints by a comparison of the term with 0.
pub(crate) fn split_by_sign(
    alloc: Global,
    constraints: &Constraints,
    op: CmpOp,
    term: Lin,
) -> Result<Halves, AllocError>
    requires { IsTermInside constraints.now term }
    ensures { IfOk result
        (AreHalves constraints.now term.sym (λ v. compares op (value_of v term) (pos 0))) }
{
    let sets = by_sign(alloc, op)?;
    let holds = constraints.assume(term, &sets.with)?;
    let fails = constraints.assume(term, &sets.without)?;
    Ok(Halves { holds, fails })
}
