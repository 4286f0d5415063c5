//! Expressions of C, and how they are parsed: a table of trees, and one of refusals.
use crate::lexed::lexed;
use cs_ast::raw::expression::{RawExpr, RawExprKind};
use cs_ast::raw::written_type::{TypeWord, WrittenType};
use cs_ast::{Place, Token};
use cs_expr_parser::{ExprLevel, Phrase, expression};
use cs_grammar::{Reason, SyntaxRefusal, TypedefNames};
use cs_names::Name;
use std::alloc::{AllocError, Global};
use std::test::Fail;

// Returns the tokens of a text, if it has some; the column of a token is its number.
fn tokens_of(alloc: Global, text: &str) -> Option<Vec<Token>> {
    let mut list = lexed(alloc, text.as_bytes()).ok()?.list;
    let mut column = 0;
    for token in list.iter_mut() {
        token.place = Place {
            file: 0,
            line: 1,
            column,
        };
        column = column.saturating_add(1);
    }
    Some(list)
}

fn type_text(out: &mut String, ty: &WrittenType) -> Result<(), AllocError> {
    out.push_str(" ")?;
    for word in &ty.words {
        match word {
            TypeWord::Typedef(_) => out.push_str("T")?,
            TypeWord::Struct(_) => out.push_str("s")?,
            _ => out.push_str("i")?,
        }
    }
    for _pointer in &ty.pointers {
        out.push_str("*")?;
    }
    Ok(())
}

fn name_of(kind: &RawExprKind) -> &'static str {
    match kind {
        RawExprKind::Name(_) => "x",
        RawExprKind::Number(_) => "1",
        RawExprKind::Character(_) => "c",
        RawExprKind::Text(_) => "t",
        RawExprKind::Parenthesis(_) => "par",
        RawExprKind::Index(_, _) => "idx",
        RawExprKind::Call(_, _) => "call",
        RawExprKind::Member(_, _) => "dot",
        RawExprKind::Arrow(_, _) => "arr",
        RawExprKind::StepAfter(_, _) => "post",
        RawExprKind::StepBefore(_, _) => "pre",
        RawExprKind::Prefix(_, _) => "op",
        RawExprKind::SizeOf(_) => "size",
        RawExprKind::SizeOfType(_, _) => "sizet",
        RawExprKind::Cast(_, _, _) => "cast",
        RawExprKind::Infix(_, _, _) => "in",
        RawExprKind::Choice(_, _, _) => "cho",
        RawExprKind::Assign(_, _, _) => "ass",
        RawExprKind::Comma(_, _) => "com",
    }
}

// Appends a node's kind and the column of its position.
fn head(out: &mut String, tree: &RawExpr) -> Result<(), AllocError> {
    let name = name_of(&*tree.kind);
    let column = tree.place.column;
    write!(out, "{name}@{column}")
}

fn part(out: &mut String, tree: &RawExpr) -> Result<(), AllocError> {
    out.push_str(" ")?;
    head(out, tree)
}

fn row(out: &mut String, trees: &[RawExpr]) -> Result<(), AllocError> {
    for tree in trees {
        part(out, tree)?;
    }
    Ok(())
}

// Appends the parts of a node.
fn parts(out: &mut String, kind: &RawExprKind) -> Result<(), AllocError> {
    match kind {
        RawExprKind::Name(_) | RawExprKind::Number(_) => Ok(()),
        RawExprKind::Character(_) | RawExprKind::Text(_) => Ok(()),
        RawExprKind::Parenthesis(one) | RawExprKind::SizeOf(one) => part(out, one),
        RawExprKind::Member(one, _) | RawExprKind::Arrow(one, _) => part(out, one),
        RawExprKind::StepAfter(_, one) | RawExprKind::StepBefore(_, one) => part(out, one),
        RawExprKind::Prefix(_, one) => part(out, one),
        RawExprKind::Index(left, right) | RawExprKind::Infix(_, left, right) => {
            two_parts(out, left, right)
        }
        RawExprKind::Assign(_, left, right) | RawExprKind::Comma(left, right) => {
            two_parts(out, left, right)
        }
        RawExprKind::Choice(test, one, other) => {
            part(out, test)?;
            two_parts(out, one, other)
        }
        RawExprKind::Call(function, trees) => {
            part(out, function)?;
            row(out, trees)
        }
        RawExprKind::SizeOfType(ty, trees) => {
            type_text(out, ty)?;
            row(out, trees)
        }
        RawExprKind::Cast(ty, trees, operand) => {
            type_text(out, ty)?;
            row(out, trees)?;
            part(out, operand)
        }
    }
}

fn two_parts(out: &mut String, left: &RawExpr, right: &RawExpr) -> Result<(), AllocError> {
    part(out, left)?;
    part(out, right)
}

fn show_reason(reason: Reason) -> &'static str {
    match reason {
        Reason::Syntax => "syntax",
        Reason::Unsupported => "unsupported",
        Reason::TooDeep => "deep",
    }
}

// Returns the parser's result for the words: the tree, its height, the number of the token after it and why that is refused; or the refusal.
fn answer(alloc: Global, words: &str, limit: u32, level: ExprLevel) -> Result<String, AllocError> {
    match tokens_of(alloc, words) {
        Some(tokens) => answer_of(alloc, &tokens, limit, level),
        None => String::from_str(alloc, "no tokens"),
    }
}

fn answer_of(
    alloc: Global,
    tokens: &[Token],
    limit: u32,
    level: ExprLevel,
) -> Result<String, AllocError> {
    if tokens.len() > 99 {
        return String::from_str(alloc, "too many tokens");
    }
    let mut names = TypedefNames::new(alloc);
    names.add(Name::from_slice(alloc, b"T")?)?;
    let end = Place {
        file: 0,
        line: 1,
        column: 99,
    };
    match expression(alloc, tokens, end, 0, &names, limit, level) {
        Ok(phrase) => phrase_text(alloc, &phrase),
        Err(refusal) => refusal_text(alloc, &refusal),
    }
}

fn phrase_text(alloc: Global, phrase: &Phrase) -> Result<String, AllocError> {
    let mut out = String::new(alloc);
    head(&mut out, &phrase.tree)?;
    parts(&mut out, &*phrase.tree.kind)?;
    let why = show_reason(phrase.otherwise);
    let height = phrase.height;
    let next = phrase.next;
    write!(out, " {height} {next} {why}")?;
    Ok(out)
}

fn refusal_text(alloc: Global, refusal: &SyntaxRefusal) -> Result<String, AllocError> {
    match refusal {
        SyntaxRefusal::Syntax(place) => place_text(alloc, "syntax", *place),
        SyntaxRefusal::Unsupported(place, _) => place_text(alloc, "unsupported", *place),
        SyntaxRefusal::TooDeep(place) => place_text(alloc, "deep", *place),
        SyntaxRefusal::Memory => String::from_str(alloc, "memory"),
    }
}

fn place_text(alloc: Global, why: &str, place: Place) -> Result<String, AllocError> {
    let column = place.column;
    format!(in alloc; "{why} {column}")
}

fn level(name: &str) -> ExprLevel {
    match name {
        "Cond" => ExprLevel::Cond,
        "Assign" => ExprLevel::Assign,
        _ => ExprLevel::Expr,
    }
}

/// Returns those words of a table of limits, levels, words and results for which the result differs, with the actual one.
fn answered_otherwise(alloc: Global, table: &str) -> Result<String, AllocError> {
    let mut found = String::new(alloc);
    for row in table.trim().lines() {
        let (limit, rest) = row.split_once(' ').unwrap_or(("", row));
        let (level_name, rest) = rest.split_once(' ').unwrap_or(("", rest));
        let (words, expected) = rest.split_once(" => ").unwrap_or((rest, ""));
        let limit = limit.parse::<u32>().unwrap_or(0);
        let given = answer(alloc, words, limit, level(level_name))?;
        if given.as_str() != expected {
            let reported = format!(in alloc; "{words} gives {given}\n")?;
            found.push_str(reported.as_str())?;
        }
    }
    Ok(found)
}

/// Expressions with their trees, and what follows them.
const TREES: &str = r#"
200 Expr a => x@0 1 1 syntax
200 Expr a < b < c ; => in@3 in@1 x@4 3 5 syntax
200 Expr a + b * c => in@1 x@0 in@3 3 5 syntax
200 Expr a * b + c => in@3 in@1 x@4 3 5 syntax
200 Cond a || b && c == d => in@1 x@0 in@3 4 7 syntax
200 Expr a = b = c => ass@1 x@0 ass@3 3 5 syntax
200 Expr a , b , c => com@3 com@1 x@4 3 5 syntax
200 Assign a , b => x@0 1 1 syntax
200 Cond a = b => x@0 1 1 syntax
200 Expr a + b = c => in@1 x@0 x@2 2 3 syntax
200 Expr ( T ) a = b => cast@0 T x@3 2 4 syntax
200 Expr * a = b => ass@2 op@0 x@3 3 4 syntax
200 Expr a ? b , c : d ? e : f => cho@1 x@0 com@3 cho@7 3 11 syntax
200 Expr a ? b : c = d => cho@1 x@0 x@2 x@4 2 5 syntax
200 Expr f ( ) => call@1 x@0 2 3 syntax
200 Expr f ( a , b = 1 ) => call@1 x@0 x@2 ass@5 4 8 syntax
200 Expr a [ b ] [ 1 ] . T -> c ++ => post@11 arr@9 6 12 syntax
200 Expr - ++ a => op@0 pre@1 3 3 syntax
200 Expr sizeof a [ 1 ] => size@0 idx@2 3 5 syntax
200 Expr sizeof ( a ) [ 1 ] => size@0 idx@4 4 7 syntax
200 Expr sizeof ( int ) => sizet@0 i 2 4 syntax
200 Expr sizeof ( int ) ( a ) => sizet@0 i 2 4 syntax
200 Expr sizeof ( int ) * a => in@4 sizet@0 x@5 3 6 syntax
200 Expr sizeof ( T * const [ 1 + 1 ] ) { => sizet@0 T** in@7 3 11 unsupported
200 Expr a + sizeof ( T ) { => in@1 x@0 sizet@2 3 6 unsupported
200 Expr a { => x@0 1 1 syntax
200 Expr f ( a ) { => call@1 x@0 x@2 3 4 syntax
200 Expr a ... => x@0 1 1 unsupported
200 Expr a static => x@0 1 1 unsupported
200 Expr ( const unsigned long const int ) ( T ) a => cast@0 iiiii cast@7 3 11 syntax
200 Expr ( struct s * ) "a" => cast@0 s* t@5 2 6 syntax
200 Expr ( a ) ( 'c' ) => call@3 par@0 c@4 3 6 syntax
200 Expr ( T ) ( a ) => cast@0 T par@3 3 6 syntax
200 Expr a T => x@0 1 1 syntax
200 Expr & a & b => in@2 op@0 x@3 3 4 syntax
"#;

#[test]
fn expressions_have_these_trees(rt: HostRuntime) -> Result<(), Fail> {
    let found = answered_otherwise(rt.alloc(), TREES)?;
    assert_eq!(rt; found.as_str(), "");
    Ok(())
}

/// Texts that are refused or end early, each with the limit for its tree.
const REFUSED: &str = r#"
200 Expr + => syntax 99
200 Expr T => syntax 0
0 Expr a => deep 0
0 Expr ; a => syntax 0
9 Expr float => unsupported 0
200 Expr ( int => syntax 99
200 Expr ( int T ) => syntax 2
200 Expr ( int char ) => syntax 2
200 Expr ( long long long ) => syntax 3
200 Expr ( const ) => syntax 2
200 Expr ( const * ) => syntax 2
200 Expr ( struct ) => syntax 2
200 Expr ( struct { => unsupported 2
200 Expr ( struct s { => unsupported 3
200 Expr ( int struct { => syntax 2
200 Expr ( int ) { => unsupported 3
200 Expr ( int ) ; => syntax 3
200 Expr ( int * * a ) => syntax 4
200 Expr ( int [ ] ) => syntax 3
200 Expr ( int [ a = 1 ] ) => syntax 4
200 Expr ( sizeof ( int ) { => unsupported 5
200 Expr ( f ( a ) { => syntax 5
200 Expr ( static => unsupported 1
200 Expr a [ b ; => syntax 3
200 Expr a . 1 => syntax 2
200 Expr f ( a , ) => syntax 4
200 Expr f ( , ) => syntax 2
200 Expr a ? b ; => syntax 3
200 Expr ++ ( int ) a => syntax 2
200 Expr a + T => syntax 2
200 Expr a + * ; => syntax 3
1 Expr ( a ) => deep 0
1 Expr sizeof a => deep 0
2 Expr sizeof ( a ) => deep 2
2 Expr sizeof ( ; ) => syntax 2
2 Expr sizeof ( int ) => sizet@0 i 2 4 syntax
2 Expr a + b + c => in@1 x@0 x@2 2 3 deep
2 Expr a + b * c => in@1 x@0 x@2 2 3 deep
2 Expr a + - c => deep 2
2 Expr f ( a ) => deep 2
2 Expr f ( ) => call@1 x@0 2 3 syntax
1 Expr f ( ) => x@0 1 1 deep
2 Expr f ( ) ( ) => call@1 x@0 2 3 deep
2 Expr a = b = c => ass@1 x@0 x@2 2 3 deep
2 Expr a ? b : c , d => cho@1 x@0 x@2 x@4 2 5 deep
2 Expr a ? b , c : d => deep 3
2 Expr ( ( a ) ) => deep 1
2 Expr ( a + b ) => deep 2
2 Expr a . b . c => dot@1 x@0 2 3 deep
2 Expr ( int ) - a => deep 3
2 Expr ( int [ - 1 ] ) a => deep 3
2 Expr sizeof ( int ) ( a ) => sizet@0 i 2 4 syntax
2 Expr a , b = c => com@1 x@0 x@2 2 3 deep
2 Expr a + b = c => in@1 x@0 x@2 2 3 syntax
"#;

#[test]
fn other_tokens_are_refused_here(rt: HostRuntime) -> Result<(), Fail> {
    let found = answered_otherwise(rt.alloc(), REFUSED)?;
    assert_eq!(rt; found.as_str(), "");
    Ok(())
}
