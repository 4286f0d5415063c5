//! The control points of a function, collected from its end.
ghost use Rattle.std.specs.Prelude.{◌≡◌, ◌∷◌, ◌++◌, List, [], OnOk, map, true, false};
ghost use Rattle.cs_events.specs.declared.point.PointKind.TheVariants as kinds;
ghost use Rattle.cs_cfg.specs.ControlPoints as cfg;
ghost use Rattle.cs_flow.specs.PointView.{next_of, point_of, points_of};

use crate::point::{ControlPoint, Exit, Next, Way};
use cs_ast::Place;
use cs_events::PointKind;
use std::alloc::{AllocError, Global};
use std::collections::VecDeque;

/// Control points in file order. They are collected in reverse order, so that what is reached after a part of a function is known when the
/// part's points are made.
#[derive(Drop)]
pub(crate) struct Points {
    pub(crate) list: VecDeque<ControlPoint>,
}

impl Points {
    /// Returns an empty list.
    pub(crate) fn new(alloc: Global) -> Points
        ensures { points_of result ≡ [] }
    {
        Points {
            list: VecDeque::new(alloc),
        }
    }

    /// Puts a control point before the others.
    pub(crate) fn put(&mut self, point: ControlPoint) -> Result<(), AllocError>
        ensures { OnOk result (points_of self.new ≡ point_of point ∷ points_of self.old) }
    {
        self.list.push_front(point)?;
        Ok(())
    }

    /// Puts other control points before these, in their order.
    pub(crate) fn put_all(&mut self, mut others: Points) -> Result<(), AllocError>
        ensures { OnOk result (points_of self.new ≡ points_of others ++ points_of self.old) }
    {
        while let Some(point) = others.list.pop_back() {
            self.put(point)?;
        }
        Ok(())
    }

    /// Puts a control point with one way before the others.
    pub(crate) fn put_passed(
        &mut self,
        kind: PointKind,
        place: Place,
        next: Next,
    ) -> Result<(), AllocError>
        ensures { OnOk result (points_of self.new
            ≡ cfg.passed kind place (next_of next) ∷ points_of self.old) }
    {
        let alloc = *self.list.allocator();
        let exit = Exit::Onward;
        let ways = vec![in alloc; Way { exit, next }]?;
        self.put(ControlPoint { kind, place, ways })
    }

    /// Puts a test before the others, given what is reached if it is true, and if it is false.
    pub(crate) fn put_tested(
        &mut self,
        place: Place,
        one: Next,
        other: Next,
    ) -> Result<(), AllocError>
        ensures { OnOk result (points_of self.new
            ≡ cfg.tested place (next_of one) (next_of other) ∷ points_of self.old) }
    {
        let alloc = *self.list.allocator();
        let holds = Way {
            exit: Exit::Truth(true),
            next: one,
        };
        let fails = Way {
            exit: Exit::Truth(false),
            next: other,
        };
        let ways = vec![in alloc; holds, fails]?;
        let kind = PointKind::Branch;
        self.put(ControlPoint { kind, place, ways })
    }

    /// Puts a control point, after which no other point of the function is reached, before the others.
    pub(crate) fn put_last(&mut self, kind: PointKind, place: Place) -> Result<(), AllocError>
        ensures { OnOk result (points_of self.new
            ≡ cfg.last_point kind place ∷ points_of self.old) }
    {
        let ways = Vec::new(*self.list.allocator());
        self.put(ControlPoint { kind, place, ways })
    }
}
