//! Laws of corners.
ghost use Rattle.cs_corners.specs.Laws.{CornersHaveGround, GuessesAreUsable};

/// For an operation that isn't followed exactly, one or two corners are the ground of its guess.
pub fn corners_have_ground()
    ensures { CornersHaveGround }
{}

/// A number that may be guessed may be used, also with an operand that is the same at all corners.
pub fn guesses_are_usable()
    ensures { GuessesAreUsable }
{}
