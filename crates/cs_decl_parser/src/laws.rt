//! Laws of parsed and of refused files.
ghost use Rattle.cs_decl_parser.specs.Files.{RefusalsAreOne, FilesAreNotRefused};

/// Tokens have at most one refusal, with one position and one reason.
pub fn refusals_are_one()
    ensures { RefusalsAreOne }
{}

/// Tokens that are a file have no refusal.
pub fn files_are_not_refused()
    ensures { FilesAreNotRefused }
{}
