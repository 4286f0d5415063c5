//! A law about well-formed programs: a premise of lowering, so that each of them has its code.
#![tactic(auto)]

ghost use Rattle.cs_allocations.specs.Allocations.{WellFormedProgramsAllocate};

/// In a well-formed program each call of `malloc` and `calloc` has the arguments that the function takes (C11 7.22.3).
pub fn well_formed_programs_allocate()
    ensures { WellFormedProgramsAllocate }
{}
