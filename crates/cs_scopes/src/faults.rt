//! Which of several faults at one position is reported: the least code.
ghost use Rattle.std.specs.Prelude.{◌≡◌};
ghost use Rattle.cs_scopes.specs.Faults.{lesser, least, least_code};

use crate::refusal::TypeCode;

// The lesser of two codes.
fn lesser(code: TypeCode, other: TypeCode) -> TypeCode
    ensures { result ≡ lesser code other }
{
    if code.number() <= other.number() {
        code
    } else {
        other
    }
}

/// Returns the lesser of a code and another one, if there is another.
pub fn least(code: TypeCode, other: Option<TypeCode>) -> TypeCode
    ensures { result ≡ least code other }
{
    match other {
        Some(other) => lesser(code, other),
        None => code,
    }
}

/// Returns the least of the codes at one position.
pub fn least_code(code: Option<TypeCode>, other: Option<TypeCode>) -> Option<TypeCode>
    ensures { result ≡ least_code code other }
{
    match code {
        Some(code) => Some(least(code, other)),
        None => other,
    }
}
