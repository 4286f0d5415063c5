//! The control points at the labels of a function (C11 6.8.1).
ghost use Rattle.std.specs.Prelude.{◌≡◌, ℕ, IfOk, OnOk};
ghost use Rattle.cs_ast.specs.TypedView.{statement, statement_list};
ghost use Rattle.cs_cfg.specs.ControlPoints.{at_label};
ghost use Rattle.cs_flow.specs.LabelView.{labels_of, label_in, label_in_list, one_label};
ghost use Rattle.cs_flow.specs.PointView.{next_of};

use crate::point::{Next, meets};
use cs_ast::Place;
use cs_ast::typed::statement::{Stmt, StmtKind};
use cs_events::PointKind;
use std::alloc::{AllocError, Global};
use std::collections::HashMap;

/// The source positions of a function's labels, by their numbers. If two labels have the same number, the first one is used.
#[derive(Drop)]
pub(crate) struct Labels {
    places: HashMap<u32, Place>,
}

impl Labels {
    /// Returns the labels of a function's body.
    pub(crate) fn of(alloc: Global, body: &Stmt) -> Result<Labels, AllocError>
        ensures { IfOk result (λ labels.
            (label : ℕ) → labels_of labels label ≡ label_in label (statement body.now)) }
    {
        let mut labels = Labels {
            places: HashMap::new(alloc),
        };
        labels.find(body)?;
        Ok(labels)
    }

    /// Returns the control point at a label; nothing if there is no such label.
    pub(crate) fn next(&self, label: u32) -> Next
        ensures { next_of result ≡ labels_of self.now label }
    {
        match self.places.get(&label) {
            Some(place) => meets(PointKind::Label, *place),
            None => None,
        }
    }

    /// Adds the labels of a statement that aren't there yet.
    #[cycle(labels)]
    fn find(&mut self, s: &Stmt) -> Result<(), AllocError>
        ensures { OnOk result ((label : ℕ)
            → labels_of self.new label
            ≡ at_label (labels_of self.old label) (label_in label (statement s.now))) }
    {
        match &*s.kind {
            StmtKind::Block(list) => self.find_in(list),
            StmtKind::If(_, body) => self.find(body),
            StmtKind::IfElse(_, body, other) => {
                self.find(body)?;
                self.find(other)
            }
            StmtKind::While(_, body) => self.find(body),
            StmtKind::Do(body, _) => self.find(body),
            StmtKind::For(_, _, _, body) => self.find(body),
            StmtKind::Switch(_, _, list) => self.find_in(list),
            StmtKind::Label(label, body) => {
                self.add(*label, s.place)?;
                self.find(body)
            }
            StmtKind::Declare(_, _) | StmtKind::Run(_) | StmtKind::Goto(_) => Ok(()),
            StmtKind::Break | StmtKind::Continue | StmtKind::Return(_) => Ok(()),
        }
    }

    /// The same for consecutive statements.
    #[cycle(labels)]
    fn find_in(&mut self, list: &[Stmt]) -> Result<(), AllocError>
        ensures { OnOk result ((label : ℕ)
            → labels_of self.new label
            ≡ at_label (labels_of self.old label)
            (label_in_list label (statement_list list.now))) }
    {
        for s in list {
            self.find(s)?;
        }
        Ok(())
    }

    /// Adds a label at a source position, unless it is there.
    fn add(&mut self, label: u32, place: Place) -> Result<(), AllocError>
        ensures { OnOk result ((wanted : ℕ)
            → labels_of self.new wanted
            ≡ at_label (labels_of self.old wanted) (one_label label place wanted)) }
    {
        if self.places.get(&label).is_none() {
            self.places.insert(label, place)?;
        }
        Ok(())
    }
}
