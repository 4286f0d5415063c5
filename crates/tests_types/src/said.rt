//! The type or value of an expression's text, or its refusal, in words.

use crate::scene::scene;
use crate::words::{integer, words};
use cs_ast::raw::expression::RawExpr;
use cs_consts::{discarded, value};
use cs_expr_parser::{ExprLevel, expression};
use cs_grammar::TypedefNames;
use cs_lexer::tokens;
use cs_limits::{MOST_BYTES, MOST_TOKENS};
use cs_names::Name;
use cs_scopes::{Context, TypeRefusal};
use cs_types::DataModel;
use std::alloc::{AllocError, Global};

// Returns the tree of a text, if all of it is one expression.
fn tree(alloc: Global, text: &str) -> Result<Option<RawExpr>, AllocError> {
    let bytes = text.as_bytes();
    if bytes.len() > MOST_BYTES {
        return Ok(None);
    }
    let Ok(lexed) = tokens(alloc, bytes) else {
        return Ok(None);
    };
    let list = lexed.list.as_slice();
    if list.len() > MOST_TOKENS {
        return Ok(None);
    }
    let mut names = TypedefNames::new(alloc);
    names.add(Name::from_slice(alloc, b"T")?)?;
    match expression(alloc, list, lexed.end, 0, &names, 200, ExprLevel::Expr) {
        Ok(phrase) if phrase.next == list.len() => Ok(Some(phrase.tree)),
        _ => Ok(None),
    }
}

fn refusal(alloc: Global, refusal: &TypeRefusal) -> Result<String, AllocError> {
    match refusal {
        TypeRefusal::Code(code, at) => {
            let number = code.number();
            format!(in alloc; "code {number} at {}", at.column)
        }
        TypeRefusal::Memory => Err(AllocError),
    }
}

// Returns the type and the value of a constant, or its refusal.
fn constant(alloc: Global, context: &Context, tree: &RawExpr) -> Result<String, AllocError> {
    match value(alloc, context, tree) {
        Ok((ty, number)) => {
            let ty = integer(ty);
            format!(in alloc; "{ty} {number}")
        }
        Err(error) => refusal(alloc, &error),
    }
}

// Returns the type of an expression's value, or its refusal.
fn type_of(alloc: Global, context: &Context, tree: &RawExpr) -> Result<String, AllocError> {
    let mut literals = Vec::new(alloc);
    match discarded(alloc, context, &mut literals, tree) {
        Ok(typed) => words(alloc, &context.table, &typed.ty, ""),
        Err(error) => refusal(alloc, &error),
    }
}

/// What is tested of an expression.
#[derive(Clone, Copy)]
pub enum Question {
    /// The type and the value of a constant.
    Constant,
    /// The type of its value.
    Type,
}

fn said_of(
    alloc: Global,
    model: DataModel,
    question: Question,
    tree: &RawExpr,
) -> Result<String, AllocError> {
    let context = scene(alloc, model)?;
    match question {
        Question::Constant => constant(alloc, &context, tree),
        Question::Type => type_of(alloc, &context, tree),
    }
}

/// Returns the answer to a question about an expression's text.
fn said(
    alloc: Global,
    model: DataModel,
    question: Question,
    text: &str,
) -> Result<String, AllocError> {
    match tree(alloc, text)? {
        Some(tree) => said_of(alloc, model, question, &tree),
        None => String::from_str(alloc, "no expression"),
    }
}

/// Returns those lines of a table, each an expression, ` => ` and an answer, for which the answer differs, with the actual one.
pub fn said_otherwise(
    alloc: Global,
    model: DataModel,
    question: Question,
    table: &str,
) -> Result<String, AllocError> {
    let mut found = String::new(alloc);
    for line in table.trim().lines() {
        let (text, expected) = line.split_once(" => ").unwrap_or((line, ""));
        let said = said(alloc, model, question, text)?;
        if said.as_str() != expected {
            let reported = format!(in alloc; "{text} gives {said}")?;
            found.push_str(reported.as_str())?;
        }
    }
    Ok(found)
}
