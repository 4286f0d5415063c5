//! The lexer: a preprocessed C text to its tokens with their positions.
#![tactic(auto)]

ghost use Rattle.cs_lexer.specs.Extent.{LexedTokensHaveFiles, LexedFilesAreFew, LexedTokensAreShort};
ghost use Rattle.cs_lexer.specs.Held.{LexedTokensAreHeld};

mod attributes;
mod byte;
mod comment;
mod cut;
mod digits;
mod directive;
mod escape;
mod files;
mod lexeme;
mod lexer;
mod number;
mod part;
mod piece;
mod punctuator;
mod quoted;
mod refusal;
mod spelling;
mod spot;
mod tail;
mod texts;
mod word;

pub use cs_ast::{Token, TokenKind};
pub use lexer::{Lexed, tokens};
pub use refusal::LexRefusal;

/// No token of a lexed text is a constant that is too wide for the types of its list (C11 6.4.4, paragraph 2).
pub fn lexed_tokens_are_held()
    ensures { LexedTokensAreHeld }
{}

/// The tokens of a lexed text are in its files, and the numbers of files and tokens are bounded by the text's bytes.
pub fn lexed_texts_are_bounded()
    ensures placed { LexedTokensHaveFiles }
    ensures few { LexedFilesAreFew }
    ensures short { LexedTokensAreShort }
{}
