//! The front end on a text.

use cs_ast::raw::external::Tree;
use cs_decl_parser::parse;
use cs_grammar::SyntaxRefusal;
use cs_lexer::tokens;
use cs_limits::{MOST_BYTES, MOST_TOKENS};
use std::alloc::{AllocError, Global};
use std::str::from_utf8;

/// The front end's result for a text.
#[derive(Drop)]
pub enum Reported {
    /// It can't be split into tokens, is too long or has too many tokens.
    NoTokens,
    /// A token is refused.
    Refused(SyntaxRefusal),
    /// It is a file.
    File(Tree),
}

/// Splits a text into tokens and parses them.
pub fn front(alloc: Global, text: &str) -> Reported {
    let bytes = text.as_bytes();
    if bytes.len() > MOST_BYTES {
        return Reported::NoTokens;
    }
    let Ok(lexed) = tokens(alloc, bytes) else {
        return Reported::NoTokens;
    };
    let list = lexed.list.as_slice();
    if list.len() > MOST_TOKENS {
        return Reported::NoTokens;
    }
    match parse(alloc, list, lexed.end) {
        Ok(tree) => Reported::File(tree),
        Err(refusal) => Reported::Refused(refusal),
    }
}

/// Returns a refusal in words: its kind, the unsupported word, its line and its column.
pub fn in_words(alloc: Global, refusal: &SyntaxRefusal) -> Result<String, AllocError> {
    match refusal {
        SyntaxRefusal::Syntax(at) => format!(in alloc; "syntax {}:{}", at.line, at.column),
        SyntaxRefusal::TooDeep(at) => format!(in alloc; "too deep {}:{}", at.line, at.column),
        SyntaxRefusal::Unsupported(at, word) => {
            let word = from_utf8(word.as_bytes()).unwrap_or("?");
            format!(in alloc; "left out {word} {}:{}", at.line, at.column)
        }
        SyntaxRefusal::Memory => String::from_str(alloc, "no memory"),
    }
}
