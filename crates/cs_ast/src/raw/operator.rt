//! The operators of written expressions (C11 6.5).

/// `++` or `--`, before or after its operand (C11 6.5.2.4, 6.5.3.1).
#[derive(Clone, Copy)]
pub enum Step {
    /// `++`
    Up,
    /// `--`
    Down,
}

/// The prefix operators (C11 6.5.3).
#[derive(Clone, Copy)]
pub enum PrefixOp {
    /// `&`
    Address,
    /// `*`
    Through,
    /// `+`
    Plus,
    /// `-`
    Minus,
    /// `~`
    Complement,
    /// `!`
    Not,
}

/// The left-associative infix operators (C11 6.5.5 to 6.5.14).
#[derive(Clone, Copy)]
pub enum InfixOp {
    /// `||`
    Or,
    /// `&&`
    And,
    /// `|`
    BitOr,
    /// `^`
    BitXor,
    /// `&`
    BitAnd,
    /// `==`
    Equal,
    /// `!=`
    Differs,
    /// `<`
    Less,
    /// `<=`
    AtMost,
    /// `>`
    More,
    /// `>=`
    AtLeast,
    /// `<<`
    ShiftLeft,
    /// `>>`
    ShiftRight,
    /// `+`
    Add,
    /// `-`
    Subtract,
    /// `*`
    Multiply,
    /// `/`
    Divide,
    /// `%`
    Remainder,
}

/// The assignment operators (C11 6.5.16).
#[derive(Clone, Copy)]
pub enum AssignOp {
    /// `=`
    Plain,
    /// `*=`
    Multiply,
    /// `/=`
    Divide,
    /// `%=`
    Remainder,
    /// `+=`
    Add,
    /// `-=`
    Subtract,
    /// `<<=`
    ShiftLeft,
    /// `>>=`
    ShiftRight,
    /// `&=`
    BitAnd,
    /// `^=`
    BitXor,
    /// `|=`
    BitOr,
}
