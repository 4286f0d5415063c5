//! The type errors for which a file is refused.
ghost use Rattle.std.specs.Prelude.{◌≡◌};
ghost use Rattle.cs_scopes.specs.Verdicts.{number_of};
ghost use Rattle.cs_scopes.specs.declared.refusal.TypeRefusal.TheVariants.{Memory};

use cs_ast::Place;
use std::alloc::{AllocError, AllocFailed};

/// What is wrong at a position.
#[derive(Clone, Copy, Debug, PartialEq, Eq)]
pub enum TypeCode {
    /// A name that isn't declared, or the tag of a struct without a body whose member is named.
    UnknownName,
    /// A second declaration of a name in one scope.
    DeclaredTwice,
    /// An operand that has to be an lvalue and isn't one, or an array that is assigned.
    NotLvalue,
    /// Operands of types that the operator doesn't support.
    OperandTypes,
    /// A call with more or fewer arguments than parameters.
    ArgumentCount,
    /// An incomplete type where a complete one is needed.
    IncompleteType,
    /// An array or another object of an unsupported size.
    Size,
    /// A call of `malloc` or `calloc` whose result isn't assigned or converted to a pointer.
    NoTarget,
    /// A conversion to or from a pointer type that isn't supported.
    PointerConversion,
    /// A `case` number or a `default` that a `switch` has twice.
    CaseTwice,
    /// A jump without a target, or a label that is defined twice.
    Jump,
    /// A member that the struct doesn't have.
    NoMember,
    /// An initializer of the wrong form.
    Initializer,
    /// A function's name where it isn't called.
    FunctionName,
    /// An expression that has to be constant and isn't, or has no value.
    NotConstant,
    /// An expression of type `void` where a value or an lvalue is needed.
    VoidValue,
    /// A `return` with a value in a function whose result is `void`, or without one in another function.
    Return,
    /// An object of too many scalars for one store.
    TooManyScalars,
}

impl TypeCode {
    /// Returns the number of the code, from 1 to 18.
    pub fn number(self) -> u8
        ensures { result ≡ number_of self }
    {
        match self {
            TypeCode::UnknownName => 1,
            TypeCode::DeclaredTwice => 2,
            TypeCode::NotLvalue => 3,
            TypeCode::OperandTypes => 4,
            TypeCode::ArgumentCount => 5,
            TypeCode::IncompleteType => 6,
            TypeCode::Size => 7,
            TypeCode::NoTarget => 8,
            TypeCode::PointerConversion => 9,
            TypeCode::CaseTwice => 10,
            TypeCode::Jump => 11,
            TypeCode::NoMember => 12,
            TypeCode::Initializer => 13,
            TypeCode::FunctionName => 14,
            TypeCode::NotConstant => 15,
            TypeCode::VoidValue => 16,
            TypeCode::Return => 17,
            TypeCode::TooManyScalars => 18,
        }
    }
}

/// Why there is no typed result.
#[derive(Debug, Drop, PartialEq, Eq)]
pub enum TypeRefusal {
    /// What is wrong, at the first position with a type error.
    Code(TypeCode, Place),
    /// Memory ran out.
    Memory,
}

impl From<AllocError> for TypeRefusal {
    ghost from_gives = { λ _ refusal. refusal ≡ Memory };

    fn from(_error: AllocError) -> TypeRefusal {
        TypeRefusal::Memory
    }
}

impl<T: Drop> From<AllocFailed<T>> for TypeRefusal {
    ghost from_gives = { λ _ refusal. refusal ≡ Memory };

    fn from(_error: AllocFailed<T>) -> TypeRefusal {
        TypeRefusal::Memory
    }
}
