//! The operators of punctuators (C11 6.5).
ghost use Rattle.std.specs.Prelude.{◌≡◌};
ghost use Rattle.cs_grammar.specs.Levels.{infix_level as level_of_infix};
ghost use Rattle.cs_grammar.specs.Punctuators.{infix_punctuator, prefix_punctuator, step_punctuator, assign_punctuator, IsWhatStandsFor};

use cs_ast::Punctuator;
use cs_ast::raw::operator::{AssignOp, InfixOp, PrefixOp, Step};

/// Returns the infix operator that is written with a punctuator, if there is one (C11 6.5.5 to 6.5.14).
pub fn infix_operator(punctuator: Punctuator) -> Option<InfixOp>
    ensures { IsWhatStandsFor infix_punctuator punctuator result }
{
    match punctuator {
        Punctuator::BarBar => Some(InfixOp::Or),
        Punctuator::AndAnd => Some(InfixOp::And),
        Punctuator::Bar => Some(InfixOp::BitOr),
        Punctuator::Caret => Some(InfixOp::BitXor),
        Punctuator::Ampersand => Some(InfixOp::BitAnd),
        Punctuator::EqualEqual => Some(InfixOp::Equal),
        Punctuator::Differs => Some(InfixOp::Differs),
        Punctuator::Less => Some(InfixOp::Less),
        Punctuator::AtMost => Some(InfixOp::AtMost),
        Punctuator::More => Some(InfixOp::More),
        Punctuator::AtLeast => Some(InfixOp::AtLeast),
        Punctuator::ShiftLeft => Some(InfixOp::ShiftLeft),
        Punctuator::ShiftRight => Some(InfixOp::ShiftRight),
        Punctuator::Plus => Some(InfixOp::Add),
        Punctuator::Minus => Some(InfixOp::Subtract),
        Punctuator::Star => Some(InfixOp::Multiply),
        Punctuator::Slash => Some(InfixOp::Divide),
        Punctuator::Percent => Some(InfixOp::Remainder),
        _ => None,
    }
}

/// Returns the level of an infix operator: the greater, the tighter it binds.
pub fn infix_level(operator: InfixOp) -> u32
    ensures { result ≡ level_of_infix operator }
{
    match operator {
        InfixOp::Or => 3,
        InfixOp::And => 4,
        InfixOp::BitOr => 5,
        InfixOp::BitXor => 6,
        InfixOp::BitAnd => 7,
        InfixOp::Equal | InfixOp::Differs => 8,
        InfixOp::Less | InfixOp::AtMost | InfixOp::More | InfixOp::AtLeast => 9,
        InfixOp::ShiftLeft | InfixOp::ShiftRight => 10,
        InfixOp::Add | InfixOp::Subtract => 11,
        InfixOp::Multiply | InfixOp::Divide | InfixOp::Remainder => 12,
    }
}

/// Returns the prefix operator that is written with a punctuator, if there is one (C11 6.5.3).
pub fn prefix_operator(punctuator: Punctuator) -> Option<PrefixOp>
    ensures { IsWhatStandsFor prefix_punctuator punctuator result }
{
    match punctuator {
        Punctuator::Ampersand => Some(PrefixOp::Address),
        Punctuator::Star => Some(PrefixOp::Through),
        Punctuator::Plus => Some(PrefixOp::Plus),
        Punctuator::Minus => Some(PrefixOp::Minus),
        Punctuator::Tilde => Some(PrefixOp::Complement),
        Punctuator::Exclamation => Some(PrefixOp::Not),
        _ => None,
    }
}

/// Returns the increment or decrement that is written with a punctuator, if it is one (C11 6.5.2.4, 6.5.3.1).
pub fn step(punctuator: Punctuator) -> Option<Step>
    ensures { IsWhatStandsFor step_punctuator punctuator result }
{
    match punctuator {
        Punctuator::Increment => Some(Step::Up),
        Punctuator::Decrement => Some(Step::Down),
        _ => None,
    }
}

/// Returns the assignment operator that is written with a punctuator, if there is one (C11 6.5.16).
pub fn assign_operator(punctuator: Punctuator) -> Option<AssignOp>
    ensures { IsWhatStandsFor assign_punctuator punctuator result }
{
    match punctuator {
        Punctuator::Equal => Some(AssignOp::Plain),
        Punctuator::StarEqual => Some(AssignOp::Multiply),
        Punctuator::SlashEqual => Some(AssignOp::Divide),
        Punctuator::PercentEqual => Some(AssignOp::Remainder),
        Punctuator::PlusEqual => Some(AssignOp::Add),
        Punctuator::MinusEqual => Some(AssignOp::Subtract),
        Punctuator::ShiftLeftEqual => Some(AssignOp::ShiftLeft),
        Punctuator::ShiftRightEqual => Some(AssignOp::ShiftRight),
        Punctuator::AmpersandEqual => Some(AssignOp::BitAnd),
        Punctuator::CaretEqual => Some(AssignOp::BitXor),
        Punctuator::BarEqual => Some(AssignOp::BitOr),
        _ => None,
    }
}
