//! The members of a structure (C11 6.7.2.1).
ghost use Rattle.std.specs.Prelude.{◌≤◌, ◌<◌, ◌^◌, length, drop, IfOk};
ghost use Rattle.cs_ast.specs.RawDeclarationView.{members_list};
ghost use Rattle.cs_grammar.specs.DeclarationClasses.{MemberGroups, MemberRows};
ghost use Rattle.cs_declarator_parser.specs.TreePlaces.{TreeAt};
ghost use Rattle.cs_declarator_parser.specs.Answers.{ExactAnswers};
ghost use Rattle.cs_declarator_parser.specs.SpecWords.{group};
ghost use Rattle.cs_declarator_parser.specs.Bounds.{IsBounded};
ghost use Rattle.cs_declarator_parser.specs.SpecPlaces.{IsGroupPlaced, AreGroupsPlaced};
ghost use Rattle.cs_declarator_parser.specs.Aptness.{IsAnswerApt};

use crate::declarator::{Declares, declarators};
use crate::source::{Scope, Source, is_punctuator, refuse, refuse_deep};
use crate::specs::{begins_specs, specs};
use crate::stop::{Stop, Taken};
use cs_ast::Punctuator;
use cs_ast::raw::declaration::RawMember;
use std::alloc::Global;

/// Returns the members from after an opening brace to after the closing one. The height is that of the highest, 0 if
/// there is none.
#[cycle(specs)]
pub fn members(
    alloc: Global,
    source: &Source,
    from: usize,
    limit: u32,
) -> Result<Taken<Vec<RawMember>>, Stop>
    requires within { from ≤ length source.now.tokens.now }
    requires few { length source.now.tokens.now < 2 ^ 32 }
    ensures bounds { IsBounded limit source.now.tokens.now from result }
    ensures parsed { ExactAnswers (MemberRows source.now.names.now)
        (λ list. members_list list.items) limit source.now.tokens.now from result }
    ensures placed { IfOk result (λ taken.
        AreGroupsPlaced taken.tree.items (drop from source.now.tokens.now)) }
    ensures apt { IsAnswerApt Scope.File source.now.tokens.now result }
{
    let mut list = Vec::new(alloc);
    let mut height = 0;
    let mut next = from;
    'members: while !is_punctuator(source, next, Punctuator::CloseBrace) {
        let taken = member(alloc, source, next, limit)?;
        height = height.max(taken.height);
        next = taken.next;
        list.push(taken.tree)?;
    }
    Ok(Taken {
        tree: list,
        height,
        next: next + 1,
    })
}

/// Returns the members that share specifiers, with their semicolon.
#[cycle(specs)]
fn member(alloc: Global, source: &Source, from: usize, limit: u32) -> Result<Taken<RawMember>, Stop>
    requires within { from ≤ length source.now.tokens.now }
    requires few { length source.now.tokens.now < 2 ^ 32 }
    ensures bounds { IsBounded limit source.now.tokens.now from result }
    ensures parsed { ExactAnswers (MemberGroups source.now.names.now) group limit
        source.now.tokens.now from result }
    ensures placed { IfOk result (TreeAt IsGroupPlaced source.now.tokens.now from) }
    ensures apt { IsAnswerApt Scope.File source.now.tokens.now result }
{
    let scope = Scope::File;
    if !begins_specs(source, from) {
        return Err(refuse(source, from, scope));
    }
    if limit < 2 {
        return Err(refuse_deep(from));
    }
    let specs = specs(alloc, source, from, limit - 1)?;
    let members = declarators(alloc, source, specs.next, limit - 1, Declares::Members)?;
    Ok(Taken {
        tree: RawMember {
            specs: specs.tree,
            declarators: members.tree,
        },
        height: specs.height.max(members.height) + 1,
        next: members.next,
    })
}
