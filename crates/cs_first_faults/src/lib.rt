//! The first failing position of a file, defined apart from the order in which typing checks the rules: laws that typing refuses a file
//! there, with the least code at that position.
#![tactic(auto)]

ghost use Rattle.cs_first_faults.specs.Laws.{ExpressionsAreRefusedWhereTheyFailFirst, ConstantsAreRefusedWhereTheyFailFirst};
ghost use Rattle.cs_first_faults.specs.Laws.{InitializersAreRefusedWhereTheyFailFirst, DeclarationsAreRefusedWhereTheyFailFirst};
ghost use Rattle.cs_first_faults.specs.Laws.{StatementsAreRefusedWhereTheyFailFirst, FunctionsAreRefusedWhereTheyFailFirst};
ghost use Rattle.cs_first_faults.specs.Laws.{FilesAreRefusedWhereTheyFailFirst};

/// An expression has a type if no rule for it fails, and else is refused at its first failing position in the order of tokens, with the
/// least code there (C11 6.5).
pub fn expressions_are_refused_where_they_fail_first()
    ensures { ExpressionsAreRefusedWhereTheyFailFirst }
{}

/// The same for constant expressions (C11 6.6).
pub fn constants_are_refused_where_they_fail_first()
    ensures { ConstantsAreRefusedWhereTheyFailFirst }
{}

/// The same for initializers (C11 6.7.9).
pub fn initializers_are_refused_where_they_fail_first()
    ensures { InitializersAreRefusedWhereTheyFailFirst }
{}

/// The same for declarations: specifiers, declarators, typedefs, objects and locals (C11 6.7).
pub fn declarations_are_refused_where_they_fail_first()
    ensures { DeclarationsAreRefusedWhereTheyFailFirst }
{}

/// The same for statements (C11 6.8).
pub fn statements_are_refused_where_they_fail_first()
    ensures { StatementsAreRefusedWhereTheyFailFirst }
{}

/// The same for functions (C11 6.9.1).
pub fn functions_are_refused_where_they_fail_first()
    ensures { FunctionsAreRefusedWhereTheyFailFirst }
{}

/// The same for files (C11 6.9): typing returns a program if no rule for the tree fails, and else the first failing position with the
/// least code there.
pub fn files_are_refused_where_they_fail_first()
    ensures { FilesAreRefusedWhereTheyFailFirst }
{}
