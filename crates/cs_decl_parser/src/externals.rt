//! The sequence of a file's external declarations (C11 6.9).
ghost use Rattle.std.specs.Prelude.{◌≡◌, ◌<◌, ◌^◌, length, map, OnOk};
ghost use Rattle.std.specs.Result.{IfErr};
ghost use Rattle.cs_ast.specs.RawDeclarationView.{declarator as declarator_of};
ghost use Rattle.cs_ast.specs.RawStatementView.{external as external_view};
ghost use Rattle.cs_grammar.specs.FilePhrases.{names_after, with_names};
ghost use Rattle.cs_decl_parser.specs.Files.{parts_of, IsTheFile};
ghost use Rattle.cs_decl_parser.specs.FileStops.{FileStops};
ghost use Rattle.cs_decl_parser.specs.ReadParts.{IsFresh, StandsAmidst};
ghost use Rattle.cs_decl_parser.specs.FilePlaces.{AreFilePlaced};

use crate::external::external;
use cs_ast::Token;
use cs_ast::raw::declaration::RawDeclarator;
use cs_ast::raw::external::{RawExternal, RawExternalKind};
use cs_declarator_parser::source::Source;
use cs_declarator_parser::stop::Stop;
use cs_grammar::TypedefNames;
use std::alloc::{AllocError, Global};

/// The external declarations that have been parsed.
#[derive(Drop)]
pub struct Parts {
    pub list: Vec<RawExternal>,
    /// The typedef names that they declare.
    pub names: TypedefNames,
    /// The index of the token after the declarations.
    pub next: usize,
}

impl Parts {
    /// Returns the state before the first declaration.
    pub fn new(alloc: Global) -> Parts
        ensures { IsFresh result }
    {
        Parts {
            list: Vec::new(alloc),
            names: TypedefNames::new(alloc),
            next: 0,
        }
    }

    /// Parses the file that these tokens are. The names that a typedef declares are typedef names after it.
    pub fn read(&mut self, alloc: Global, tokens: &[Token]) -> Result<(), Stop>
        requires few { length tokens.now < 2 ^ 32 }
        requires fresh { IsFresh self.old }
        ensures file { OnOk result (IsTheFile tokens.now (parts_of self.new.list.items)) }
        ensures placed { OnOk result (AreFilePlaced self.new.list.items tokens.now) }
        ensures refused { IfErr result (FileStops tokens.now) }
        ensures amidst { IfErr result (StandsAmidst tokens.now self.new) }
    {
        'file: while self.next < tokens.len() {
            let source = Source {
                tokens,
                names: &self.names,
            };
            let taken = external(alloc, &source, self.next)?;
            self.next = taken.next;
            declare(&mut self.names, &taken.tree)?;
            self.list.push(taken.tree)?;
        }
        Ok(())
    }
}

/// Adds the typedef names that an external declaration declares.
fn declare(names: &mut TypedefNames, external: &RawExternal) -> Result<(), AllocError>
    ensures { OnOk result (names.new ≡ names_after names.old (external_view external.now)) }
{
    match &external.kind {
        RawExternalKind::Typedef(_, declarators) => add_names(names, declarators),
        _ => Ok(()),
    }
}

fn add_names(names: &mut TypedefNames, declarators: &[RawDeclarator]) -> Result<(), AllocError>
    ensures { OnOk result (names.new ≡ with_names names.old (map declarator_of declarators.now)) }
{
    for declarator in declarators {
        names.add(declarator.name.copy()?)?;
    }
    Ok(())
}
