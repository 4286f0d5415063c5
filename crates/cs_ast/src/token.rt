//! Tokens (C11 6.4).

use crate::place::Place;
use cs_names::{Bytes, Name};

/// A token with its position.
#[derive(Clone, Drop, PartialEq, Eq)]
pub struct Token {
    pub kind: TokenKind,
    pub place: Place,
}

/// The kind of a token.
#[derive(Clone, Drop, PartialEq, Eq)]
pub enum TokenKind {
    /// A keyword that the grammar uses.
    Keyword(Keyword),
    /// A word of C that isn't supported: no production accepts it.
    Unsupported(Unsupported),
    /// The word `__attribute__` without a closed parenthesis after it: no production accepts it.
    Attribute,
    /// An identifier (C11 6.4.2).
    Name(Name),
    /// An integer constant (C11 6.4.4.1).
    Number(IntegerConstant),
    /// A character constant (C11 6.4.4.4): its value, which is that of a byte as a signed char.
    Character(i32),
    /// A string literal (C11 6.4.5): its bytes without the terminating zero byte.
    Text(Bytes),
    /// A punctuator (C11 6.4.6).
    Punctuator(Punctuator),
}

/// An integer constant: its value, and what else determines its type.
#[derive(Clone, Copy, PartialEq, Eq)]
pub struct IntegerConstant {
    pub value: u64,
    /// Whether it is written in base ten.
    pub decimal: bool,
    /// Whether its suffix has `u` or `U`.
    pub unsigned: bool,
    pub length: Length,
}

/// The `l`s of an integer constant's suffix.
#[derive(Clone, Copy, PartialEq, Eq)]
pub enum Length {
    Plain,
    Long,
    LongLong,
}

/// The keywords that the grammar uses (C11 6.4.1).
#[derive(Clone, Copy, PartialEq, Eq)]
pub enum Keyword {
    Break,
    Case,
    Char,
    Const,
    Continue,
    Default,
    Do,
    Else,
    Enum,
    For,
    Goto,
    If,
    Int,
    Long,
    Return,
    Short,
    Signed,
    Sizeof,
    Static,
    Struct,
    Switch,
    Typedef,
    Unsigned,
    Void,
    While,
}

/// The words of C and of its common extensions that aren't supported, one for each spelling.
#[derive(Clone, Copy, PartialEq, Eq)]
pub enum Unsupported {
    Float,
    Double,
    Union,
    /// `_Bool`
    Bool,
    /// `_Complex`
    Complex,
    /// `_Imaginary`
    Imaginary,
    /// `_Atomic`
    Atomic,
    /// `_Alignas`
    Alignas,
    /// `_Alignof`
    Alignof,
    /// `_Generic`
    Generic,
    /// `_Noreturn`
    Noreturn,
    /// `_Static_assert`
    StaticAssert,
    /// `_Thread_local`
    ThreadLocal,
    /// `__int128`
    Int128,
    /// `asm`
    Asm,
    /// `__asm__`
    AsmUnderscored,
    /// `__asm`
    AsmPrefixed,
    /// `typeof`
    Typeof,
    /// `__typeof__`
    TypeofUnderscored,
    Auto,
}

/// The punctuators.
#[derive(Clone, Copy, PartialEq, Eq)]
pub enum Punctuator {
    /// `[`
    OpenBracket,
    /// `]`
    CloseBracket,
    /// `(`
    OpenParenthesis,
    /// `)`
    CloseParenthesis,
    /// `{`
    OpenBrace,
    /// `}`
    CloseBrace,
    /// `.`
    Dot,
    /// `->`
    Arrow,
    /// `++`
    Increment,
    /// `--`
    Decrement,
    /// `&`
    Ampersand,
    /// `*`
    Star,
    /// `+`
    Plus,
    /// `-`
    Minus,
    /// `~`
    Tilde,
    /// `!`
    Exclamation,
    /// `/`
    Slash,
    /// `%`
    Percent,
    /// `<<`
    ShiftLeft,
    /// `>>`
    ShiftRight,
    /// `<`
    Less,
    /// `>`
    More,
    /// `<=`
    AtMost,
    /// `>=`
    AtLeast,
    /// `==`
    EqualEqual,
    /// `!=`
    Differs,
    /// `^`
    Caret,
    /// `|`
    Bar,
    /// `&&`
    AndAnd,
    /// `||`
    BarBar,
    /// `?`
    Question,
    /// `:`
    Colon,
    /// `;`
    Semicolon,
    /// `=`
    Equal,
    /// `*=`
    StarEqual,
    /// `/=`
    SlashEqual,
    /// `%=`
    PercentEqual,
    /// `+=`
    PlusEqual,
    /// `-=`
    MinusEqual,
    /// `<<=`
    ShiftLeftEqual,
    /// `>>=`
    ShiftRightEqual,
    /// `&=`
    AmpersandEqual,
    /// `^=`
    CaretEqual,
    /// `|=`
    BarEqual,
    /// `,`
    Comma,
    /// `...`
    Ellipsis,
}
