//! Laws about files that are refused and accepted.
ghost use Rattle.cs_app.specs.Laws.{RefusedIsNotAccepted, TreesAreRefusedByTypes};

/// Shows that no file is both refused and accepted.
pub fn refused_is_not_accepted()
    ensures { RefusedIsNotAccepted }
{}

/// Shows that a file whose tokens are a tree, if it is refused, is refused for a type error of that tree.
pub fn trees_are_refused_by_types()
    ensures { TreesAreRefusedByTypes }
{}
