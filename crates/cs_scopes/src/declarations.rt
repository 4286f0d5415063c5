//! The declarations in scope, the innermost last (C11 6.2.1), and the tags (C11 6.2.3).
ghost use Rattle.std.specs.Prelude.{◌≡◌, ◌++◌, [], ◌∷◌, None, OnOk, OnErr, option_copied, option_to_list, is_some, length, take, drop};
ghost use Rattle.std.specs.Option.{option_map};
ghost use Rattle.cs_scopes.specs.Meanings.{meaning_of, declaration_of};
ghost use Rattle.cs_scopes.specs.Scopes.{newest, tagged};
ghost use Rattle.cs_scopes.specs.Entries.{tags_in};

use crate::entries::{Entry, add, drop_after, find, is_after, take_last};
use crate::scope::{Declaration, Meaning, Tag, TagMeaning};
use cs_names::Name;
use indexmap::IndexMap;
use std::alloc::{AllocError, Global};
use std::marker::Model;

/// The declarations in scope, the innermost last. A contract sees them as a list without boxes.
#[derive(Drop)]
pub struct Declarations {
    list: Vec<Entry>,
    // The index of each name's last declaration, if one is in scope, so that a look-up isn't slower with many names.
    places: IndexMap<Name, Option<usize>>,
}

impl Model for Declarations {
    ghost use Rattle.std.specs.Prelude.{List};
    ghost use Rattle.cs_scopes.specs.Meanings.{Declaration as DeclarationOf};
    ghost use Rattle.cs_scopes.specs.MeaningCodes.{declarations_code};
    ghost use Rattle.cs_scopes.specs.Entries.{declarations_in, Indexed};

    ghost Value = { List DeclarationOf };

    ghost coded = { declarations_code };

    ghost view = { λ all. declarations_in all.list.items };

    ghost invariant = { λ all. Indexed all.places all.list.items };
}

impl Declarations {
    /// Returns an empty list.
    pub fn new(alloc: Global) -> Declarations
        ensures { result ≡ [] }
    {
        Declarations {
            list: Vec::new(alloc),
            places: IndexMap::new(alloc),
        }
    }

    /// Returns the number of declarations.
    pub fn len(&self) -> usize
        ensures { result ≡ length self.now }
    {
        self.list.len()
    }

    /// Appends a declaration, which is the innermost now.
    pub fn declare(&mut self, declaration: Declaration) -> Result<(), AllocError>
        ensures ok { OnOk result (self.new ≡ self.old ++ declaration_of declaration ∷ []) }
        ensures err { OnErr result (self.new ≡ self.old) }
    {
        add(&mut self.list, &mut self.places, declaration)
    }

    /// Removes the innermost declaration and returns it, if there is one.
    pub fn pop(&mut self) -> Option<Declaration>
        ensures taken { self.old ≡ self.new ++ option_to_list (option_map declaration_of result) }
        ensures none { result ≡ None → self.old ≡ [] }
    {
        take_last(&mut self.list, &mut self.places)
    }

    /// Ends a scope that `outer` declarations precede: those in it are no longer in scope (C11 6.2.1, paragraph 4).
    pub fn leave(&mut self, outer: usize)
        ensures { self.new ≡ take outer self.old }
    {
        drop_after(&mut self.list, &mut self.places, outer);
    }

    /// Returns the meaning of a name: that of its last declaration.
    pub fn newest(&self, name: &Name) -> Option<&Meaning>
        ensures { option_map meaning_of (option_copied result) ≡ newest name.now self.now }
    {
        find(&self.list, &self.places, name)
    }

    /// Whether a name is declared in the scope that `outer` declarations precede (C11 6.7, paragraph 3).
    pub fn is_declared_since(&self, name: &Name, outer: usize) -> bool
        ensures { result ≡ is_some (newest name.now (drop outer self.now)) }
    {
        is_after(&self.list, &self.places, name, outer)
    }
}

/// The tags of a file. A contract sees them as a list.
#[derive(Drop)]
pub struct Tags {
    meanings: IndexMap<Name, TagMeaning>,
}

impl Model for Tags {
    ghost use Rattle.std.specs.Prelude.{List};
    ghost use Rattle.cs_scopes.specs.declared.scope.Tag.{Tag};
    ghost use Rattle.cs_scopes.specs.Entries.{tags_in};

    ghost Value = { List Tag };

    ghost view = { λ all. tags_in all.meanings.entries };
}

impl Tags {
    /// Returns an empty table.
    pub fn new(alloc: Global) -> Tags
        ensures { result ≡ [] }
    {
        Tags {
            meanings: IndexMap::new(alloc),
        }
    }

    /// Appends a new tag.
    pub fn add(&mut self, tag: Tag) -> Result<(), AllocError>
        requires { tagged tag.name self.old ≡ None }
        ensures ok { OnOk result (self.new ≡ self.old ++ tag ∷ []) }
        ensures err { OnErr result (self.new ≡ self.old) }
    {
        enter_tag(&mut self.meanings, tag)
    }

    /// Returns the meaning of a tag.
    pub fn meaning(&self, name: &Name) -> Option<TagMeaning>
        ensures { result ≡ tagged name.now self.now }
    {
        tag_meaning(&self.meanings, name)
    }
}

// Puts a new tag into the table.
#[tactic(auto, using(crate::proofs::DeclaredNames::tag_tables))]
fn enter_tag(meanings: &mut IndexMap<Name, TagMeaning>, tag: Tag) -> Result<(), AllocError>
    requires { tagged tag.name (tags_in meanings.old.entries) ≡ None }
    ensures ok { OnOk result (tags_in meanings.new.entries
        ≡ tags_in meanings.old.entries ++ tag ∷ []) }
    ensures err { OnErr result (tags_in meanings.new.entries ≡ tags_in meanings.old.entries) }
{
    match meanings.insert(tag.name, tag.meaning) {
        Ok(_) => Ok(()),
        Err(_) => Err(AllocError),
    }
}

// The meaning of a tag in the table.
#[tactic(auto, using(crate::proofs::DeclaredNames::tag_tables))]
fn tag_meaning(meanings: &IndexMap<Name, TagMeaning>, name: &Name) -> Option<TagMeaning>
    ensures { result ≡ tagged name.now (tags_in meanings.now.entries) }
{
    meanings.get(name).copied()
}
