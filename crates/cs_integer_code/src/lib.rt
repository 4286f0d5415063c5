//! A law about well-formed programs: an integer function has integer code.
#![tactic(auto)]

ghost use Rattle.cs_integer_code.specs.IntegerCode.{IntegerFunctionsHaveIntegerCode};

/// Shows that in a well-formed program an integer function has integer code, if lowering keeps integers.
pub fn integer_functions_have_integer_code()
    ensures { IntegerFunctionsHaveIntegerCode }
{}
