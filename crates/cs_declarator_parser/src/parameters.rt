//! The parameters of functions (C11 6.7.6.3).
ghost use Rattle.std.specs.List.{list_all};
ghost use Rattle.std.specs.Prelude.{◌≤◌, ◌<◌, ◌^◌, ◌+◌, ◌≡◌, ◌↔◌, length, map, drop, IfOk, IsTrue};
ghost use Rattle.cs_ast.specs.RawDeclarationView.{parameter as parameter_of, parameters as parameters_of};
ghost use Rattle.cs_grammar.specs.FilePhrases.{AreNamed};
ghost use Rattle.cs_grammar.specs.FileText.{parameter_text};
ghost use Rattle.cs_grammar.specs.DeclarationClasses.{ParameterRows, ParameterLists};
ghost use Rattle.cs_declarator_parser.specs.TreePlaces.{TreeAt};
ghost use Rattle.cs_declarator_parser.specs.Answers.{ExactAnswers};
ghost use Rattle.cs_declarator_parser.specs.DeclarationAnswers.{ParameterNameAnswer, IsVoidAlone};
ghost use Rattle.cs_declarator_parser.specs.ParameterAnswers.{ParameterAnswer, number_past, has_name};
ghost use Rattle.cs_declarator_parser.specs.SpecWords.{name_in};
ghost use Rattle.cs_declarator_parser.specs.Bounds.{IsBounded, IsRowBounded};
ghost use Rattle.cs_declarator_parser.specs.DeclarationPlaces.{AreInRow, IsNamePlaced, IsParameterPlaced, AreParametersPlaced};
ghost use Rattle.cs_declarator_parser.specs.Aptness.{IsAnswerApt};

use crate::declarator::{Declares, bounds};
use crate::names::free_name_at;
use crate::source::{Scope, Source, is_keyword, is_punctuator, place_at, refuse, refuse_but};
use crate::specs::specs;
use crate::stop::{Stop, Taken};
use crate::words::stars;
use cs_ast::raw::declaration::{RawParameter, RawParameters};
use cs_ast::raw::name::RawName;
use cs_ast::{Keyword, Punctuator};
use std::alloc::Global;

/// Returns the parameters from after an opening parenthesis to after the closing one, as one node.
pub fn parameters(
    alloc: Global,
    source: &Source,
    from: usize,
    limit: u32,
) -> Result<Taken<RawParameters>, Stop>
    requires within { from ≤ length source.now.tokens.now }
    requires few { length source.now.tokens.now < 2 ^ 32 }
    requires enough { 4 ≤ limit }
    ensures bounds { IsBounded limit source.now.tokens.now from result }
    ensures parsed { ExactAnswers (ParameterLists source.now.names.now) parameters_of limit
        source.now.tokens.now from result }
    ensures placed { IfOk result (TreeAt AreParametersPlaced source.now.tokens.now from) }
    ensures apt { IsAnswerApt Scope.File source.now.tokens.now result }
{
    if is_punctuator(source, from, Punctuator::CloseParenthesis) {
        return Ok(Taken {
            tree: RawParameters::Empty,
            height: 1,
            next: from + 1,
        });
    }
    if is_void_alone(source, from) {
        return Ok(Taken {
            tree: RawParameters::Void,
            height: 1,
            next: from + 2,
        });
    }
    let list = parameter_list(alloc, source, from, limit - 1)?;
    Ok(Taken {
        tree: RawParameters::List(list.tree),
        height: list.height + 1,
        next: list.next,
    })
}

/// Whether only `void` is before a closing parenthesis, from an index on.
fn is_void_alone(source: &Source, from: usize) -> bool
    requires few { from < 2 ^ 33 }
    ensures within { IsTrue result → from + 1 < length source.now.tokens.now }
    ensures void { IsTrue result ↔ IsVoidAlone source.now.tokens.now from }
{
    is_keyword(source, from, Keyword::Void)
        && is_punctuator(source, from + 1, Punctuator::CloseParenthesis)
}

/// Returns the parameters, at least one, with commas between them, to after the closing parenthesis. The height is that
/// of the highest.
fn parameter_list(
    alloc: Global,
    source: &Source,
    from: usize,
    limit: u32,
) -> Result<Taken<Vec<RawParameter>>, Stop>
    requires within { from ≤ length source.now.tokens.now }
    requires few { length source.now.tokens.now < 2 ^ 32 }
    requires enough { 2 ≤ limit }
    requires no_void { IsVoidAlone source.now.tokens.now from → ⊥ }
    ensures bounds { IsBounded limit source.now.tokens.now from result }
    ensures parsed { ExactAnswers (ParameterRows source.now.names.now)
        (λ list. map parameter_of list.items) limit source.now.tokens.now from result }
    ensures placed { IfOk result (λ taken.
        AreInRow IsParameterPlaced (λ p. parameter_text (parameter_of p)) taken.tree.items
        (drop from source.now.tokens.now)) }
    ensures apt { IsAnswerApt Scope.File source.now.tokens.now result }
{
    // Often there is one.
    let mut list = Vec::with_capacity(alloc, 1)?;
    let mut last = parameter(alloc, source, from, limit)?;
    let mut height = last.height;
    'parameters: while is_punctuator(source, last.next, Punctuator::Comma) {
        let another = parameter(alloc, source, last.next + 1, limit)?;
        list.push(last.tree)?;
        height = height.max(another.height);
        last = another;
    }
    list.push(last.tree)?;
    if !is_punctuator(source, last.next, Punctuator::CloseParenthesis) {
        return Err(refuse(source, last.next, Scope::File));
    }
    Ok(Taken {
        tree: list,
        height,
        next: last.next + 1,
    })
}

fn parameter(
    alloc: Global,
    source: &Source,
    from: usize,
    limit: u32,
) -> Result<Taken<RawParameter>, Stop>
    requires within { from ≤ length source.now.tokens.now }
    requires few { length source.now.tokens.now < 2 ^ 32 }
    requires enough { 2 ≤ limit }
    ensures bounds { IsBounded limit source.now.tokens.now from result }
    ensures parsed { ParameterAnswer source.now.names.now limit source.now.tokens.now from result }
    ensures placed { IfOk result (TreeAt IsParameterPlaced source.now.tokens.now from) }
    ensures apt { IsAnswerApt Scope.File source.now.tokens.now result }
{
    let specs = specs(alloc, source, from, limit - 1)?;
    let pointers = stars(alloc, source, specs.next)?;
    let name = parameter_name(source, pointers.next)?;
    let bounds = bounds(alloc, source, name.next, limit - 1, Declares::Names)?;
    Ok(Taken {
        tree: RawParameter {
            place: place_at(source, from),
            specs: specs.tree,
            pointers: pointers.tree,
            name: name.tree,
            bounds: bounds.tree,
        },
        height: specs.height.max(bounds.height) + 1,
        next: bounds.next,
    })
}

/// Returns the name of a parameter at an index, if it has one.
fn parameter_name(source: &Source, at: usize) -> Result<Taken<Option<RawName>>, Stop>
    requires within { at ≤ length source.now.tokens.now }
    requires few { length source.now.tokens.now < 2 ^ 32 }
    ensures bounds { IsRowBounded 0 source.now.tokens.now at result }
    ensures name { ParameterNameAnswer source.now.names.now source.now.tokens.now at result }
    ensures placed { IfOk result (TreeAt IsNamePlaced source.now.tokens.now at) }
    ensures apt { IsAnswerApt Scope.File source.now.tokens.now result }
{
    if is_punctuator(source, at, Punctuator::OpenParenthesis) {
        return Err(refuse_but(source, at, Scope::File, Punctuator::OpenParenthesis));
    }
    let name = free_name_at(source, at)?;
    let next = after_name(at, &name);
    Ok(Taken {
        tree: name,
        height: 0,
        next,
    })
}

/// Returns the index of the token after a name at `at`, or `at` if there is no name.
fn after_name(at: usize, name: &Option<RawName>) -> usize
    requires few { at < 2 ^ 32 }
    ensures { result ≡ number_past at (name_in name.now) }
{
    match name {
        Some(_) => at + 1,
        None => at,
    }
}

/// Whether every parameter has a name, so that a body may follow.
pub fn are_named(parameters: &RawParameters) -> bool
    ensures { IsTrue result ↔ AreNamed (parameters_of parameters.now) }
{
    match parameters {
        RawParameters::Empty | RawParameters::Void => true,
        RawParameters::List(list) => have_names(list),
    }
}

fn have_names(list: &[RawParameter]) -> bool
    ensures { result ≡ list_all has_name list.now }
{
    list.iter().all(|parameter| parameter.name.is_some())
}
