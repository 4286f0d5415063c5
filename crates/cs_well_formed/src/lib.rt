//! Well-formed programs, in `specs/`: what holds of every typed program, and what later calls may require of one.
#![tactic(auto)]

ghost use Rattle.std.specs.Prelude.{ℕ};
ghost use Rattle.cs_well_formed.specs.Bounded.{FormedAreBounded, OperandsAreBounded, AssignedAreBounded, TestsAreBounded, SelectorsAreBounded, DiscardedAreBounded, LiteralsAreBounded, InitialsAreBounded, WordsAreBounded, TypedefsAreBounded, ParametersAreBounded};
ghost use Rattle.cs_well_formed.specs.Growth.{ExpressionsStay, InitialsStay, StatementsStay, AgreementStays, GlobalsStay, RoutinesStay};
ghost use Rattle.cs_well_formed.specs.Landing.{LabelsAreThere};
ghost use Rattle.cs_well_formed.specs.Laws.{FormedAreWell, OperandsAreWell, AssignedAreWell, TestsAreWell, SelectorsAreWell, DiscardedAreWell, ConstantsAreInRange, InitialsAreWell, FileInitialsAreConstant};
ghost use Rattle.cs_well_formed.specs.Leading.{WordsLead, TypedefsLead, ParametersLead, ObjectsAreWhole};
ghost use Rattle.cs_well_formed.specs.Naming.{ExpressionsAreNamed, InitialsAreNamed, StatementsAreNamed, WordsAreNamed, TypedefsAreNamed, ParametersAreNamed, ObjectsAreNamed};
ghost use Rattle.cs_well_formed.specs.Places.{IsOfFiles};
ghost use Rattle.cs_well_formed.specs.Tokens.{TextsHoldConstants, InitialTextsHoldConstants};

/// A typed expression is well formed, and has the type that its use requires.
pub fn expressions_are_well_formed()
    ensures formed { FormedAreWell }
    ensures operands { OperandsAreWell }
    ensures assigned { AssignedAreWell }
    ensures tests { TestsAreWell }
    ensures selectors { SelectorsAreWell }
    ensures discarded { DiscardedAreWell }
    ensures constants { ConstantsAreInRange }
{}

/// The initializer of an object of a complete type is well formed, if the structs of the program have layouts, and constant if
/// the object is one of file scope.
pub fn initializers_are_well_formed()
    ensures well_formed { InitialsAreWell }
    ensures constant { FileInitialsAreConstant }
{}

/// If the declared types of a program name structs of its table, so do the types of all nodes that are well formed in it; and
/// if what is known names structs, so do the types that are declared then.
pub fn types_are_named()
    ensures expressions { ExpressionsAreNamed }
    ensures initializers { InitialsAreNamed }
    ensures statements { StatementsAreNamed }
    ensures words { WordsAreNamed }
    ensures typedefs { TypedefsAreNamed }
    ensures parameters { ParametersAreNamed }
    ensures objects { ObjectsAreNamed }
{}

/// What is well formed stays so when the program grows, and what is known still agrees with it.
pub fn well_formed_stays()
    ensures expressions { ExpressionsStay }
    ensures initializers { InitialsStay }
    ensures statements { StatementsStay }
    ensures agreement { AgreementStays }
    ensures globals { GlobalsStay }
    ensures routines { RoutinesStay }
{}

/// The constants of a written tree are among its tokens: if none of them is too large, no constant is.
pub fn constants_are_tokens()
    ensures expressions { TextsHoldConstants }
    ensures initializers { InitialTextsHoldConstants }
{}

/// After a declaration structs keep their members, and what it declares exists; the type of a declared object is complete.
pub fn declarations_lead()
    ensures words { WordsLead }
    ensures typedefs { TypedefsLead }
    ensures parameters { ParametersLead }
    ensures objects { ObjectsAreWhole }
{}

/// If the labels of a body are numbered in their order, a `goto` leads to one that exists.
pub fn labels_are_there()
    ensures { LabelsAreThere }
{}

/// A typed tree has positions of the written one, and no more nodes than the size of its text allows.
pub fn typed_nodes_are_bounded()
    ensures formed { (count : ℕ) → FormedAreBounded (IsOfFiles count) }
    ensures operands { (count : ℕ) → OperandsAreBounded (IsOfFiles count) }
    ensures assigned { (count : ℕ) → AssignedAreBounded (IsOfFiles count) }
    ensures tests { (count : ℕ) → TestsAreBounded (IsOfFiles count) }
    ensures selectors { (count : ℕ) → SelectorsAreBounded (IsOfFiles count) }
    ensures discarded { (count : ℕ) → DiscardedAreBounded (IsOfFiles count) }
    ensures literals { LiteralsAreBounded }
    ensures initializers { (count : ℕ) → InitialsAreBounded (IsOfFiles count) }
{}

/// How much is known after a declaration is bounded by the size of its text.
pub fn declarations_are_bounded()
    ensures words { WordsAreBounded }
    ensures typedefs { TypedefsAreBounded }
    ensures parameters { ParametersAreBounded }
{}
