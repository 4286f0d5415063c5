//! Keywords, unsupported words and punctuators, by their spellings.
ghost use Rattle.std.specs.Prelude.{◌≡◌, ◌≢◌, MatchOption};
ghost use Rattle.cs_lexer.specs.Spellings.{keyword_text, unsupported_text, punctuator_text, NoLongUnsupported, IsNoAssignment};

use cs_ast::{Keyword, Punctuator, Unsupported};

/// Returns the keyword with this spelling.
pub fn keyword_spelled(text: &[u8]) -> Option<Keyword>
    ensures { MatchOption result ((other : Keyword)
        → keyword_text other ≢ text.now) (λ found. keyword_text found ≡ text.now) }
{
    match text {
        b"break" => Some(Keyword::Break),
        b"case" => Some(Keyword::Case),
        b"char" => Some(Keyword::Char),
        b"const" => Some(Keyword::Const),
        b"continue" => Some(Keyword::Continue),
        b"default" => Some(Keyword::Default),
        b"do" => Some(Keyword::Do),
        b"else" => Some(Keyword::Else),
        b"enum" => Some(Keyword::Enum),
        b"for" => Some(Keyword::For),
        b"goto" => Some(Keyword::Goto),
        b"if" => Some(Keyword::If),
        b"int" => Some(Keyword::Int),
        b"long" => Some(Keyword::Long),
        b"return" => Some(Keyword::Return),
        b"short" => Some(Keyword::Short),
        b"signed" => Some(Keyword::Signed),
        b"sizeof" => Some(Keyword::Sizeof),
        b"static" => Some(Keyword::Static),
        b"struct" => Some(Keyword::Struct),
        b"switch" => Some(Keyword::Switch),
        b"typedef" => Some(Keyword::Typedef),
        b"unsigned" => Some(Keyword::Unsigned),
        b"void" => Some(Keyword::Void),
        b"while" => Some(Keyword::While),
        _ => None,
    }
}

// Returns the unsupported word of more than ten bytes with this spelling.
fn long_unsupported_spelled(text: &[u8]) -> Option<Unsupported>
    ensures { MatchOption result (NoLongUnsupported text.now)
        (λ found. unsupported_text found ≡ text.now) }
{
    if text == b"_Static_assert".as_slice() {
        Some(Unsupported::StaticAssert)
    } else if text == b"_Thread_local".as_slice() {
        Some(Unsupported::ThreadLocal)
    } else {
        None
    }
}

/// Returns the unsupported word with this spelling.
pub fn unsupported_spelled(text: &[u8]) -> Option<Unsupported>
    ensures { MatchOption result ((other : Unsupported)
        → unsupported_text other ≢ text.now) (λ found. unsupported_text found ≡ text.now) }
{
    if let Some(found) = long_unsupported_spelled(text) {
        return Some(found);
    }
    match text {
        b"float" => Some(Unsupported::Float),
        b"double" => Some(Unsupported::Double),
        b"union" => Some(Unsupported::Union),
        b"_Bool" => Some(Unsupported::Bool),
        b"_Complex" => Some(Unsupported::Complex),
        b"_Imaginary" => Some(Unsupported::Imaginary),
        b"_Atomic" => Some(Unsupported::Atomic),
        b"_Alignas" => Some(Unsupported::Alignas),
        b"_Alignof" => Some(Unsupported::Alignof),
        b"_Generic" => Some(Unsupported::Generic),
        b"_Noreturn" => Some(Unsupported::Noreturn),
        b"__int128" => Some(Unsupported::Int128),
        b"asm" => Some(Unsupported::Asm),
        b"__asm__" => Some(Unsupported::AsmUnderscored),
        b"__asm" => Some(Unsupported::AsmPrefixed),
        b"typeof" => Some(Unsupported::Typeof),
        b"__typeof__" => Some(Unsupported::TypeofUnderscored),
        b"auto" => Some(Unsupported::Auto),
        _ => None,
    }
}

// Returns the assignment operator with this spelling (C11 6.5.16).
fn assignment_spelled(text: &[u8]) -> Option<Punctuator>
    ensures { MatchOption result (IsNoAssignment text.now)
        (λ found. punctuator_text found ≡ text.now) }
{
    match text {
        b"=" => Some(Punctuator::Equal),
        b"*=" => Some(Punctuator::StarEqual),
        b"/=" => Some(Punctuator::SlashEqual),
        b"%=" => Some(Punctuator::PercentEqual),
        b"+=" => Some(Punctuator::PlusEqual),
        b"-=" => Some(Punctuator::MinusEqual),
        b"<<=" => Some(Punctuator::ShiftLeftEqual),
        b">>=" => Some(Punctuator::ShiftRightEqual),
        b"&=" => Some(Punctuator::AmpersandEqual),
        b"^=" => Some(Punctuator::CaretEqual),
        b"|=" => Some(Punctuator::BarEqual),
        _ => None,
    }
}

/// Returns the punctuator with this spelling.
pub fn punctuator_spelled(text: &[u8]) -> Option<Punctuator>
    ensures { MatchOption result ((other : Punctuator)
        → punctuator_text other ≢ text.now) (λ found. punctuator_text found ≡ text.now) }
{
    if let Some(found) = assignment_spelled(text) {
        return Some(found);
    }
    match text {
        b"[" => Some(Punctuator::OpenBracket),
        b"]" => Some(Punctuator::CloseBracket),
        b"(" => Some(Punctuator::OpenParenthesis),
        b")" => Some(Punctuator::CloseParenthesis),
        b"{" => Some(Punctuator::OpenBrace),
        b"}" => Some(Punctuator::CloseBrace),
        b"." => Some(Punctuator::Dot),
        b"->" => Some(Punctuator::Arrow),
        b"++" => Some(Punctuator::Increment),
        b"--" => Some(Punctuator::Decrement),
        b"&" => Some(Punctuator::Ampersand),
        b"*" => Some(Punctuator::Star),
        b"+" => Some(Punctuator::Plus),
        b"-" => Some(Punctuator::Minus),
        b"~" => Some(Punctuator::Tilde),
        b"!" => Some(Punctuator::Exclamation),
        b"/" => Some(Punctuator::Slash),
        b"%" => Some(Punctuator::Percent),
        b"<<" => Some(Punctuator::ShiftLeft),
        b">>" => Some(Punctuator::ShiftRight),
        b"<" => Some(Punctuator::Less),
        b">" => Some(Punctuator::More),
        b"<=" => Some(Punctuator::AtMost),
        b">=" => Some(Punctuator::AtLeast),
        b"==" => Some(Punctuator::EqualEqual),
        b"!=" => Some(Punctuator::Differs),
        b"^" => Some(Punctuator::Caret),
        b"|" => Some(Punctuator::Bar),
        b"&&" => Some(Punctuator::AndAnd),
        b"||" => Some(Punctuator::BarBar),
        b"?" => Some(Punctuator::Question),
        b":" => Some(Punctuator::Colon),
        b";" => Some(Punctuator::Semicolon),
        b"," => Some(Punctuator::Comma),
        b"..." => Some(Punctuator::Ellipsis),
        _ => None,
    }
}
