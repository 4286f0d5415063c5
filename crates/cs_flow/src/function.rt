//! The control points of a function.
ghost use Rattle.std.specs.Prelude.{◌≡◌, Some, IfOk};
ghost use Rattle.cs_ast.specs.TypedProgram.{routine};
ghost use Rattle.cs_cfg.specs.ControlPoints as cfg;
ghost use Rattle.cs_flow.specs.PointView.{points_of};

use crate::labels::Labels;
use crate::point::meets;
use crate::points::Points;
use crate::targets::Targets;
use cs_ast::typed::program::Function;
use cs_ast::typed::statement::Stmt;
use cs_events::PointKind;
use std::alloc::{AllocError, Global};

/// Returns the control points of a function with a body, in file order. Outside of loops and `switch`, `break` and
/// `continue` end the frame.
pub(crate) fn control_points(
    alloc: Global,
    function: &Function,
    body: &Stmt,
) -> Result<Points, AllocError>
    requires { function.now.body ≡ Some body.now }
    ensures { IfOk result (λ points.
        points_of points ≡ cfg.control_points (routine function.now)) }
{
    let labels = Labels::of(alloc, body)?;
    let to = Targets {
        out: None,
        again: None,
        labels: &labels,
    };
    let mut points = Points::new(alloc);
    points.put_last(PointKind::End, function.end)?;
    let first = points.statement(body, to, meets(PointKind::End, function.end))?;
    points.put_passed(PointKind::Enter, function.place, first)?;
    Ok(points)
}
