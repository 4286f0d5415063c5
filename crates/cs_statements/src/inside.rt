//! What is known inside a function at a point.
ghost use Rattle.std.specs.Prelude.{◌≡◌, length, IfOk, OnOk};
ghost use Rattle.cs_types.specs.Shape.{shape_of};
ghost use Rattle.cs_ast.specs.declared.place.Place.{Place as AnyPlace};
ghost use Rattle.cs_declarations.specs.Answered.{AnswersWith};
ghost use Rattle.cs_statements.specs.Locals.{local_added, local_initialized, locals_added, with_local};
ghost use Rattle.cs_statements.specs.Statements.{in_loop, in_switch, tested_in, dropped_in, selected, tested_if, word_fault, dropped_if, first_place, declaration_typed};
ghost use Rattle.cs_statements.specs.View.{inside_of, where_of, typed_part, optional_part, local_of, typed_statements_of};

use crate::labels::Labels;
use cs_ast::Place;
use cs_ast::raw::declaration::{RawInit, RawSpecs};
use cs_ast::raw::expression::RawExpr;
use cs_ast::typed::expression::Expr;
use cs_ast::typed::program::Local;
use cs_ast::typed::statement::{Stmt, StmtKind};
use cs_consts::{discarded, selector, test, test_fault};
use cs_declarations::{Environment, Storage, initial_typed, object_type, specs_type};
use cs_names::Name;
use cs_scopes::{Meaning, TypeCode, TypeRefusal};
use cs_types::CType;
use std::alloc::{AllocError, Global};

/// What is known at a point, the parameters and locals, and how many labels were met.
#[derive(Drop)]
pub struct Inside {
    pub known: Environment,
    pub locals: Vec<Local>,
    pub met: u32,
}

/// The context of a statement: the function's result and labels, and whether a `break` and a `continue` have a target.
#[derive(Clone, Copy)]
pub struct Where<'a> {
    pub returns: &'a CType,
    pub labels: &'a Labels,
    pub breaks: bool,
    pub continues: bool,
}

impl<'a> Where<'a> {
    /// Returns the context inside a loop.
    pub fn in_loop(self) -> Where<'a>
        ensures { where_of result ≡ in_loop (where_of self.entry) }
    {
        Where {
            breaks: true,
            continues: true,
            ..self
        }
    }

    /// Returns the context inside a `switch`.
    pub fn in_switch(self) -> Where<'a>
        ensures { where_of result ≡ in_switch (where_of self.entry) }
    {
        Where {
            breaks: true,
            ..self
        }
    }
}

impl Inside {
    /// Types an expression that is tested by the keyword at `place`.
    pub fn tested(
        &mut self,
        alloc: Global,
        place: Place,
        tree: &RawExpr,
    ) -> Result<Expr, TypeRefusal>
        ensures { AnswersWith typed_part (tested_in place (inside_of self.old) tree.now) result
            self.new }
    {
        test(
            alloc,
            &self.known.context,
            &mut self.known.literals,
            place,
            tree,
        )
    }

    /// Types an expression whose value is discarded.
    pub fn dropped(&mut self, alloc: Global, tree: &RawExpr) -> Result<Expr, TypeRefusal>
        ensures { AnswersWith typed_part (dropped_in (inside_of self.old) tree.now) result
            self.new }
    {
        discarded(alloc, &self.known.context, &mut self.known.literals, tree)
    }

    /// Types the integer that controls a `switch`.
    pub fn selected(
        &mut self,
        alloc: Global,
        place: Place,
        tree: &RawExpr,
    ) -> Result<Expr, TypeRefusal>
        ensures { AnswersWith typed_part (selected place (inside_of self.old) tree.now) result
            self.new }
    {
        selector(
            alloc,
            &self.known.context,
            &mut self.known.literals,
            place,
            tree,
        )
    }

    /// Types a test that may be missing.
    pub fn tested_if(
        &mut self,
        alloc: Global,
        place: Place,
        tree: &Option<RawExpr>,
    ) -> Result<Option<Expr>, TypeRefusal>
        ensures { AnswersWith optional_part (tested_if place (inside_of self.old) tree.now) result
            self.new }
    {
        match tree {
            Some(tree) => Ok(Some(self.tested(alloc, place, tree)?)),
            None => Ok(None),
        }
    }

    /// Returns the code with which a keyword refuses such a test, by what is known here.
    pub fn word_fault(
        &self,
        alloc: Global,
        tree: &Option<RawExpr>,
    ) -> Result<Option<TypeCode>, AllocError>
        ensures { IfOk result (λ code.
            (at : AnyPlace) → code ≡ word_fault at (inside_of self.now)
            tree.now) }
    {
        match tree {
            Some(tree) => test_fault(alloc, &self.known.context, tree),
            None => Ok(None),
        }
    }

    /// Types an expression whose value is discarded, if there is one.
    pub fn dropped_if(
        &mut self,
        alloc: Global,
        tree: &Option<RawExpr>,
    ) -> Result<Option<Expr>, TypeRefusal>
        ensures { AnswersWith optional_part (dropped_if (inside_of self.old) tree.now) result
            self.new }
    {
        match tree {
            Some(tree) => Ok(Some(self.dropped(alloc, tree)?)),
            None => Ok(None),
        }
    }

    // The statement that declares a local, whose name is known already, with its initializer.
    fn initialized(
        &mut self,
        alloc: Global,
        number: u32,
        ty: &CType,
        declared: &RawInit,
    ) -> Result<Stmt, TypeRefusal>
        ensures { AnswersWith local_of
            (local_initialized number (shape_of ty.now) declared.now.declarator.place
            declared.now.initial (inside_of self.old)) result self.new }
    {
        let Some(first) = &declared.initial else {
            return Ok(Stmt {
                place: declared.declarator.place,
                kind: Box::new(alloc, StmtKind::Declare(number, None))?,
            });
        };
        let known = &mut self.known;
        let found = initial_typed(
            alloc,
            &known.context,
            &mut known.literals,
            Storage::Function,
            first.place,
            ty,
            &first.initial,
        )?;
        Ok(Stmt {
            place: first.place,
            kind: Box::new(alloc, StmtKind::Declare(number, Some(found)))?,
        })
    }

    // Declares an object of a block, whose name is known after its declarator, and returns the statement that declares it.
    fn declare_local(
        &mut self,
        alloc: Global,
        base: &CType,
        declared: &RawInit,
    ) -> Result<Stmt, TypeRefusal>
        ensures { AnswersWith local_of
            (local_added (shape_of base.now) declared.now (inside_of self.old)) result self.new }
    {
        let declarator = &declared.declarator;
        if self.known.is_declared_here(&declarator.name) {
            return Err(TypeRefusal::Code(TypeCode::DeclaredTwice, declarator.place));
        }
        let ty = object_type(alloc, &self.known.context, base, declared)?;
        let number = self.add_local(alloc, &declarator.name, &ty)?;
        self.initialized(alloc, number, &ty, declared)
    }

    // Adds a local, declares its name, and returns its number.
    fn add_local(&mut self, alloc: Global, name: &Name, ty: &CType) -> Result<u32, AllocError>
        ensures number { IfOk result (λ number. number ≡ length (inside_of self.old).variables) }
        ensures added { OnOk result
            (inside_of self.new ≡ with_local name.now (shape_of ty.now) (inside_of self.old)) }
    {
        let number = u32::try_from(self.locals.len()).map_err(|_| AllocError)?;
        self.known
            .declare(name, Meaning::Local(number, ty.copy(alloc)?))?;
        self.locals.push(Local {
            name: name.copy()?,
            ty: ty.copy(alloc)?,
            block: None,
        })?;
        Ok(number)
    }

    // Appends the statements of declared objects of a block.
    fn declare_locals(
        &mut self,
        alloc: Global,
        base: &CType,
        objects: &[RawInit],
        before: Vec<Stmt>,
    ) -> Result<Vec<Stmt>, TypeRefusal>
        ensures { AnswersWith (λ list following. typed_statements_of list.items following)
            (locals_added (shape_of base.now) objects.now
            (typed_statements_of before.items self.old)) result self.new }
    {
        let mut statements = before;
        for declared in objects {
            statements.push(self.declare_local(alloc, base, declared)?)?;
        }
        Ok(statements)
    }

    /// Appends the statements of a declaration in a block: one for each of its objects.
    pub fn declare(
        &mut self,
        alloc: Global,
        specs: &RawSpecs,
        objects: &[RawInit],
        before: Vec<Stmt>,
    ) -> Result<Vec<Stmt>, TypeRefusal>
        ensures { AnswersWith (λ list following. typed_statements_of list.items following)
            (declaration_typed specs.now objects.now (typed_statements_of before.items self.old))
            result self.new }
    {
        let base = specs_type(alloc, &mut self.known, first_place(objects), specs)?;
        self.declare_locals(alloc, &base, objects, before)
    }
}

// The position of the first of some declared objects, which requires their type.
fn first_place(objects: &[RawInit]) -> Place
    ensures { result ≡ first_place objects.now }
{
    match objects {
        [] => Place {
            file: 0,
            line: 0,
            column: 0,
        },
        [first, ..] => first.declarator.place,
    }
}
