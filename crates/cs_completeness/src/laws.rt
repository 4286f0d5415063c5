//! Why analyses are complete, as lemmas.
ghost use Rattle.cs_completeness.specs.Laws.{SuspectsAreEvident, NoRunIsMissed, CutsHaveReasons};

/// Proves that each suspect of an end whose outcome is a fault or a budget has its evidence.
pub fn suspects_are_evident()
    ensures { SuspectsAreEvident }
{}

/// Proves that no run is missed if an exploration covers the runs of an entry, and each outcome that it found is reported.
pub fn no_run_is_missed()
    ensures { NoRunIsMissed }
{}

/// Proves that a cut caused by the budget of nodes has its reason in the runs of the program.
pub fn cuts_have_reasons()
    ensures { CutsHaveReasons }
{}
