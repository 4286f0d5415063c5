//! File-scope objects (C11 6.9.2).
ghost use Rattle.std.specs.Prelude.{◌≡◌, Some, IfOk};
ghost use Rattle.cs_types.specs.Shape.{shape_of};
ghost use Rattle.cs_ast.specs.TypedView.{initial};
ghost use Rattle.cs_declarations.specs.Answered.{AnswersWith, Leaves};
ghost use Rattle.cs_declarations.specs.Environment.{meaning_here};
ghost use Rattle.cs_declarations.specs.View.{environment_of};
ghost use Rattle.cs_file_scope.specs.Objects as objects;
ghost use Rattle.cs_file_scope.specs.Objects.{is_completed, may_be_object, new_object, with_globals, changed, made_constant, holding, is_initialized, object_initialized, object_added, objects_added};
ghost use Rattle.cs_file_scope.specs.View.{filed_of, object_of};

use crate::filed::Filed;
use cs_ast::raw::declaration::{RawDeclarator, RawFirstValue, RawInit, RawSpecs};
use cs_ast::typed::program::Global;
use cs_ast::typed::statement::Initial;
use cs_declarations::{Storage, initial_typed, object_type};
use cs_names::Name;
use cs_scopes::{Meaning, TypeCode, TypeRefusal, is_constant_object, starred};
use cs_types::{CType, is_complete};
use std::alloc::{AllocError, Global as Allocation};

impl Filed {
    // Whether the type before a declarator's name is complete (C11 6.7, paragraph 7).
    fn is_completed(
        &self,
        alloc: Allocation,
        base: &CType,
        declarator: &RawDeclarator,
    ) -> Result<bool, AllocError>
        ensures { IfOk result (λ completed.
            completed ≡ is_completed (filed_of self.now) (shape_of base.now) declarator.now) }
    {
        let ty = starred(alloc, &declarator.pointers, base.copy(alloc)?)?;
        Ok(is_complete(&self.known.context.table, &ty))
    }

    // Whether a name may be declared as an object, with or without an initializer: the file hasn't declared it yet, or as an
    // object, which is initialized once and has a complete type.
    fn may_be_object(&self, name: &Name, completed: bool, initializes: bool) -> bool
        ensures { result ≡ may_be_object (filed_of self.now).globals completed initializes
            (meaning_here name.now (environment_of self.now.known)) }
    {
        match self.known.meaning_here(name) {
            None => true,
            Some(Meaning::Global(number, _)) => {
                completed && !(initializes && self.is_initialized(*number))
            }
            Some(_) => false,
        }
    }

    // Adds an object, and declares its name.
    fn add_object(
        &mut self,
        alloc: Allocation,
        declarator: &RawDeclarator,
        ty: CType,
    ) -> Result<u32, AllocError>
        ensures { IfOk result (λ number.
            object_of number self.new ≡ new_object (filed_of self.old) declarator.now
            (shape_of ty)) }
    {
        let number = u32::try_from(self.globals.len()).map_err(|_| AllocError)?;
        let copy = ty.copy(alloc)?;
        self.known
            .declare(&declarator.name, Meaning::Global(number, copy))?;
        self.globals.push(Global {
            name: declarator.name.copy()?,
            place: declarator.place,
            ty,
            constant: false,
            initial: None,
        })?;
        Ok(number)
    }

    // Makes an object const if this declaration says so.
    fn note_constant(&mut self, number: u32, constant: bool)
        ensures { filed_of self.new
            ≡ with_globals (changed number (made_constant constant) (filed_of self.old).globals)
            (filed_of self.old) }
    {
        if let Some(global) = self.globals.get_mut(number as usize) {
            global.constant = global.constant || constant;
        }
    }

    // Whether an object has an initializer.
    fn is_initialized(&self, number: u32) -> bool
        ensures { result ≡ is_initialized number (filed_of self.now).globals }
    {
        match self.globals.get(number as usize) {
            Some(global) => global.initial.is_some(),
            None => false,
        }
    }

    // Sets the initializer of an object.
    fn hold(&mut self, number: u32, found: Initial)
        ensures { filed_of self.new
            ≡ with_globals (changed number (holding (initial found)) (filed_of self.old).globals)
            (filed_of self.old) }
    {
        if let Some(global) = self.globals.get_mut(number as usize) {
            global.initial = Some(found);
        }
    }

    // Types the initializer of an object and sets it.
    #[tactic(auto, using(cs_scopes::proofs::Lifting::lifts))]
    fn initialize(
        &mut self,
        alloc: Allocation,
        number: u32,
        ty: &CType,
        first: &RawFirstValue,
    ) -> Result<(), TypeRefusal>
        ensures { Leaves (object_initialized (shape_of ty.now) (Some first.now)
            (object_of number self.old)) result (filed_of self.new) }
    {
        let found = initial_typed(
            alloc,
            &self.known.context,
            &mut self.known.literals,
            Storage::File,
            first.place,
            ty,
            &first.initial,
        )?;
        self.hold(number, found);
        Ok(())
    }

    // The number of a declared object: a new one, or the one that was declared before with the same type.
    fn object_of(
        &mut self,
        alloc: Allocation,
        declarator: &RawDeclarator,
        ty: &CType,
    ) -> Result<u32, TypeRefusal>
        ensures { AnswersWith object_of
            (objects.object_of (filed_of self.old) declarator.now
            (meaning_here declarator.now.name (environment_of self.old.known)) (shape_of ty.now))
            result self.new }
    {
        match self.known.meaning_here(&declarator.name) {
            Some(Meaning::Global(number, before)) => {
                if *before == *ty {
                    Ok(*number)
                } else {
                    Err(TypeRefusal::Code(TypeCode::DeclaredTwice, declarator.place))
                }
            }
            _ => {
                let number = self.add_object(alloc, declarator, ty.copy(alloc)?)?;
                Ok(number)
            }
        }
    }

    // Declares a file-scope object.
    #[tactic(auto, using(cs_scopes::proofs::Lifting::lifts))]
    fn declare_object(
        &mut self,
        alloc: Allocation,
        specs: &RawSpecs,
        base: &CType,
        declared: &RawInit,
    ) -> Result<(), TypeRefusal>
        ensures { Leaves (object_added specs.now (shape_of base.now) declared.now
            (filed_of self.old)) result (filed_of self.new) }
    {
        let declarator = &declared.declarator;
        let completed = self.is_completed(alloc, base, declarator)?;
        if !self.may_be_object(&declarator.name, completed, declared.initial.is_some()) {
            return Err(TypeRefusal::Code(TypeCode::DeclaredTwice, declarator.place));
        }
        let ty = object_type(alloc, &self.known.context, base, declared)?;
        let number = self.object_of(alloc, declarator, &ty)?;
        self.note_constant(number, is_constant_object(specs, &declarator.pointers));
        match &declared.initial {
            Some(first) => self.initialize(alloc, number, &ty, first),
            None => Ok(()),
        }
    }

    /// Declares file-scope objects.
    pub fn declare_objects(
        &mut self,
        alloc: Allocation,
        specs: &RawSpecs,
        base: &CType,
        objects: &[RawInit],
    ) -> Result<(), TypeRefusal>
        ensures { Leaves (objects_added specs.now (shape_of base.now) objects.now
            (filed_of self.old)) result (filed_of self.new) }
    {
        for declared in objects {
            self.declare_object(alloc, specs, base, declared)?;
        }
        Ok(())
    }
}
