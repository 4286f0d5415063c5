//! Laws that hold for all tables.
ghost use Rattle.cs_state.specs.Laws.{InputsAreTheirSymbols, ObjectsAreNumbered, NumbersAreOfObjects};

/// In the run of a valuation, the input at a path is the number of the symbol that represents it.
pub fn inputs_are_their_symbols()
    ensures { InputsAreTheirSymbols }
{}

/// The object of a base region has the base region's number.
pub fn objects_are_numbered()
    ensures { ObjectsAreNumbered }
{}

/// If an object has a number, then the base region with this number is the object's.
pub fn numbers_are_of_objects()
    ensures { NumbersAreOfObjects }
{}
