//! Control points, the ways out of them, and what is reached next.
ghost use Rattle.std.specs.Prelude.{◌≡◌};
ghost use Rattle.cs_cfg.specs.ControlPoints as cfg;
ghost use Rattle.cs_flow.specs.PointView.{next_of};

use cs_ast::Place;
use cs_events::PointKind;

/// A control point that a run reaches.
#[derive(Clone, Copy)]
pub struct Met {
    pub kind: PointKind,
    pub place: Place,
}

/// What is reached next: nothing if the frame ends without reaching a control point, as after a `break` outside of loops.
pub type Next = Option<Met>;

/// Returns a control point of a kind at a source position, as the next one.
pub fn meets(kind: PointKind, place: Place) -> Next
    ensures { next_of result ≡ cfg.met kind place }
{
    Some(Met { kind, place })
}

/// A way out of a control point.
#[derive(Clone, Copy)]
pub enum Exit {
    /// The only way.
    Onward,
    /// The branch of a test that is true, or false.
    Truth(bool),
    /// A case of a `switch`, by its number among those with a value.
    Case(usize),
}

/// A way out of a control point, and what is reached next.
#[derive(Clone, Copy)]
pub struct Way {
    pub exit: Exit,
    pub next: Next,
}

/// A control point with its ways.
#[derive(Drop)]
pub struct ControlPoint {
    pub kind: PointKind,
    pub place: Place,
    pub ways: Vec<Way>,
}
