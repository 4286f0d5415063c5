//! What is known at a point of a file.
ghost use Rattle.std.specs.Prelude.{◌≡◌, ◌-◌, ◌||◌, None, OnOk, IfOk, length, take, is_some, option_copied};
ghost use Rattle.std.specs.Option.{option_map};
ghost use Rattle.cs_types.specs.Layout.{members_of};
ghost use Rattle.cs_types.specs.Shape.{shape_of};
ghost use Rattle.cs_scopes.specs.Meanings.{meaning_of};
ghost use Rattle.cs_declarations.specs.Environment.{table_of, with_reading, with_tag, declaring, is_declared_here, meaning_here, entered, left_to, snapshot_of};
ghost use Rattle.cs_declarations.specs.Bodies.{with_struct, with_tagged_struct, with_members, name_or_none, tag_in, is_among, typedef_added, typedefs_added};
ghost use Rattle.cs_declarations.specs.Answered.{Leaves};
ghost use Rattle.cs_declarations.specs.LaidOut.{IsSound};
ghost use Rattle.cs_declarations.specs.View.{environment_of, snapshot, laying};

use crate::laying::Laying;
use crate::sizes::declarator_type;
use cs_ast::raw::declaration::RawDeclarator;
use cs_names::{Bytes, Name};
use cs_scopes::{Context, Declaration, Meaning, Tag, TagMeaning, TypeCode, TypeRefusal, struct_of};
use cs_types::{CType, StructType, members_of};
use std::alloc::{AllocError, Global};

/// The structs, the tags, the declarations in scope and the string literals before a point of a file.
#[derive(Drop)]
pub struct Environment {
    pub context: Context,
    /// The structs whose bodies are being read, the innermost last.
    pub reading: Vec<u32>,
    /// How many declarations precede the innermost scope.
    pub outer: usize,
    pub literals: Vec<Bytes>,
}

/// Where a scope began, and where the enclosing one did.
#[derive(Clone, Copy)]
pub struct ScopeSnapshot {
    pub declarations: usize,
    pub outer: usize,
}

impl Environment {
    /// Declares a name in the innermost scope (C11 6.2.1).
    pub fn declare(&mut self, name: &Name, meaning: Meaning) -> Result<(), AllocError>
        ensures { OnOk result (environment_of self.new
            ≡ declaring name.now (meaning_of meaning) (environment_of self.old)) }
    {
        let name = name.copy()?;
        self.context
            .scope
            .declarations
            .declare(Declaration { name, meaning })
    }

    /// Whether a name is declared in the innermost scope (C11 6.7, paragraph 3).
    pub fn is_declared_here(&self, name: &Name) -> bool
        ensures { result ≡ is_declared_here name.now (environment_of self.now) }
    {
        self.context
            .scope
            .declarations
            .is_declared_since(name, self.outer)
    }

    /// Returns the meaning that a name was declared with in the innermost scope.
    pub fn meaning_here(&self, name: &Name) -> Option<&Meaning>
        ensures { option_map meaning_of (option_copied result)
            ≡ meaning_here name.now (environment_of self.now) }
    {
        if self.is_declared_here(name) {
            self.context.scope.declarations.newest(name)
        } else {
            None
        }
    }

    /// Begins a scope (C11 6.2.1, paragraph 4).
    pub fn enter(&mut self) -> ScopeSnapshot
        ensures entered { environment_of self.new ≡ entered (environment_of self.old) }
        ensures snapshot { snapshot result ≡ snapshot_of (environment_of self.old) }
    {
        let around = ScopeSnapshot {
            declarations: self.context.scope.declarations.len(),
            outer: self.outer,
        };
        self.outer = around.declarations;
        around
    }

    /// Ends the scope that began there: its declarations are no longer in scope.
    pub fn leave(&mut self, around: ScopeSnapshot)
        ensures { environment_of self.new ≡ left_to (snapshot around) (environment_of self.old) }
    {
        self.context.scope.declarations.leave(around.declarations);
        self.outer = around.outer;
    }

    // The number of structs.
    fn number_of_structs(&self) -> Result<u32, AllocError>
        ensures { IfOk result (λ number. number ≡ length (table_of (environment_of self.now))) }
    {
        u32::try_from(self.context.table.list.as_slice().len()).map_err(|_| AllocError)
    }

    /// Adds a struct of this name without members, and returns its number.
    pub fn add_struct(&mut self, name: Name) -> Result<u32, AllocError>
        ensures number { IfOk result (λ number.
            number ≡ length (table_of (environment_of self.old))) }
        ensures known { OnOk result
            (environment_of self.new ≡ with_struct name (environment_of self.old)) }
    {
        let number = self.number_of_structs()?;
        self.context.table.list.push(StructType {
            tag: name,
            members: None,
            size: 0,
            align: 0,
        })?;
        Ok(number)
    }

    /// Adds a struct with this tag, which is new, and returns its number.
    pub fn add_tagged_struct(&mut self, tag: &Name) -> Result<u32, AllocError>
        requires { tag_in (environment_of self.old) tag.now ≡ None }
        ensures number { IfOk result (λ number.
            number ≡ length (table_of (environment_of self.old))) }
        ensures known { OnOk result
            (environment_of self.new ≡ with_tagged_struct tag.now (environment_of self.old)) }
    {
        let number = self.add_struct(tag.copy()?)?;
        self.add_tag(tag, TagMeaning::Struct(number))?;
        Ok(number)
    }

    /// Adds a tag, which is new.
    pub fn add_tag(&mut self, tag: &Name, meaning: TagMeaning) -> Result<(), AllocError>
        requires { tag_in (environment_of self.old) tag.now ≡ None }
        ensures { OnOk result (environment_of self.new
            ≡ with_tag tag.now meaning (environment_of self.old)) }
    {
        let name = tag.copy()?;
        self.context.scope.tags.add(Tag { name, meaning })
    }

    /// Whether a struct has a body, or a body of it is being read.
    pub fn has_body(&self, number: u32) -> bool
        ensures { result ≡ (is_among number (environment_of self.now).reading
            || is_some (members_of (table_of (environment_of self.now)) number)) }
    {
        self.is_being_read(number) || members_of(&self.context.table, number).is_some()
    }

    // Whether a body of a struct is being read.
    fn is_being_read(&self, number: u32) -> bool
        ensures { result ≡ is_among number (environment_of self.now).reading }
    {
        self.reading.iter().any(|other| *other == number)
    }

    /// Gives a struct the members of its body, which has been read.
    pub fn complete_struct(
        &mut self,
        alloc: Global,
        number: u32,
        tag: &Option<Name>,
        laid: Laying,
    ) -> Result<(), AllocError>
        ensures { OnOk result (environment_of self.new
            ≡ with_reading (take (length (environment_of self.old).reading - 1)
            (environment_of self.old).reading)
            (with_members number (name_or_none tag.now) (laying laid) (environment_of self.old))) }
    {
        let tag = name_or_none(alloc, tag)?;
        let complete = struct_of(tag, laid.members, laid.size, laid.align)?;
        let _ = self.reading.pop();
        let number = number as usize;
        if number < self.context.table.list.as_slice().len() {
            self.context.table.list.set(number, complete);
        }
        Ok(())
    }

    // Declares a typedef name (C11 6.7.8).
    #[tactic(auto, using(cs_scopes::proofs::Lifting::lifts))]
    fn declare_typedef(
        &mut self,
        alloc: Global,
        base: &CType,
        declarator: &RawDeclarator,
    ) -> Result<(), TypeRefusal>
        ensures { Leaves (typedef_added (shape_of base.now) declarator.now
            (environment_of self.old)) result (environment_of self.new) }
    {
        if self.is_declared_here(&declarator.name) {
            return Err(TypeRefusal::Code(TypeCode::DeclaredTwice, declarator.place));
        }
        let ty = declarator_type(alloc, &self.context, base, None, declarator)?;
        self.declare(&declarator.name, Meaning::Typedef(ty))?;
        Ok(())
    }

    /// Declares the typedef names of these declarators; `base` is the type of the specifiers.
    pub fn declare_typedefs(
        &mut self,
        alloc: Global,
        base: &CType,
        declarators: &[RawDeclarator],
    ) -> Result<(), TypeRefusal>
        ensures reported { Leaves
            (typedefs_added (shape_of base.now) declarators.now (environment_of self.old)) result
            (environment_of self.new) }
        ensures laid_out { IsSound (environment_of self.old)
            → OnOk result (IsSound (environment_of self.new)) }
    {
        for declarator in declarators {
            self.declare_typedef(alloc, base, declarator)?;
        }
        Ok(())
    }
}

// The name that a struct has in the table: its tag, or the empty name.
fn name_or_none(alloc: Global, tag: &Option<Name>) -> Result<Name, AllocError>
    ensures { IfOk result (λ name. name ≡ name_or_none tag.now) }
{
    match tag {
        Some(name) => name.copy(),
        None => Name::from_slice(alloc, b""),
    }
}
