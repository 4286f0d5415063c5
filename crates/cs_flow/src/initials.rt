//! The control points of initializers (C11 6.7.9).
ghost use Rattle.std.specs.Prelude.{◌≡◌, ◌++◌, IfOk, OnOk};
ghost use Rattle.cs_ast.specs.TypedView.{initial, initial_list};
ghost use Rattle.cs_cfg.specs.ControlPoints as cfg;
ghost use Rattle.cs_flow.specs.PointView.{next_of, points_of};

use crate::point::Next;
use crate::points::Points;
use cs_ast::typed::statement::Initial;
use std::alloc::AllocError;

impl Points {
    /// Puts the control points of an initializer before the others, given what is reached after it; returns what is reached first.
    #[cycle(initial)]
    pub(crate) fn initial(&mut self, first: &Initial, following: Next) -> Result<Next, AllocError>
        ensures points { OnOk result
            (points_of self.new ≡ cfg.points_initial (initial first.now) (next_of following)
            ++ points_of self.old) }
        ensures first { IfOk result (λ first_met.
            next_of first_met ≡ cfg.first_initial (initial first.now) (next_of following)) }
    {
        match first {
            Initial::Value(e) => self.expression(e, following),
            Initial::List(parts) => self.parts(parts, following),
            Initial::Text(_) => Ok(following),
        }
    }

    /// The same for the initializers of parts, which are stored one after another.
    #[cycle(initial)]
    fn parts(&mut self, list: &[Initial], following: Next) -> Result<Next, AllocError>
        ensures points { OnOk result
            (points_of self.new ≡ cfg.points_parts (initial_list list.now) (next_of following)
            ++ points_of self.old) }
        ensures first { IfOk result (λ first_met.
            next_of first_met ≡ cfg.first_parts (initial_list list.now) (next_of following)) }
    {
        let mut next = following;
        for part in list.iter().rev() {
            next = self.initial(part, next)?;
        }
        Ok(next)
    }
}
