//! The spellings of the words and punctuators of C that aren't supported.
ghost use Rattle.std.specs.Prelude.{◌≡◌};
ghost use Rattle.cs_grammar.specs.Spelling.{unsupported_spelling, word_spelling};

use cs_ast::{Keyword, Punctuator, TokenKind, Unsupported};

/// Returns the spelling of a token that is unsupported somewhere, and no bytes for any other token.
pub fn unsupported_text(kind: &TokenKind) -> &'static [u8]
    ensures { result.now ≡ unsupported_spelling kind.now }
{
    match kind {
        TokenKind::Unsupported(word) => word_text(*word),
        TokenKind::Punctuator(Punctuator::Ellipsis) => b"...",
        TokenKind::Punctuator(Punctuator::OpenBrace) => b"{",
        TokenKind::Punctuator(Punctuator::OpenParenthesis) => b"(",
        TokenKind::Punctuator(Punctuator::OpenBracket) => b"[",
        TokenKind::Punctuator(Punctuator::Dot) => b".",
        TokenKind::Punctuator(Punctuator::Colon) => b":",
        TokenKind::Keyword(Keyword::Static) => b"static",
        TokenKind::Keyword(Keyword::Typedef) => b"typedef",
        _ => b"",
    }
}

fn word_text(word: Unsupported) -> &'static [u8]
    ensures { result.now ≡ word_spelling word }
{
    match word {
        Unsupported::Float => b"float",
        Unsupported::Double => b"double",
        Unsupported::Union => b"union",
        Unsupported::Bool => b"_Bool",
        Unsupported::Complex => b"_Complex",
        Unsupported::Imaginary => b"_Imaginary",
        Unsupported::Atomic => b"_Atomic",
        Unsupported::Alignas => b"_Alignas",
        Unsupported::Alignof => b"_Alignof",
        Unsupported::Generic => b"_Generic",
        Unsupported::Noreturn => b"_Noreturn",
        Unsupported::StaticAssert => b"_Static_assert",
        Unsupported::ThreadLocal => b"_Thread_local",
        Unsupported::Int128 => b"__int128",
        Unsupported::Asm => b"asm",
        Unsupported::AsmUnderscored => b"__asm__",
        Unsupported::AsmPrefixed => b"__asm",
        Unsupported::Typeof => b"typeof",
        Unsupported::TypeofUnderscored => b"__typeof__",
        Unsupported::Auto => b"auto",
    }
}
