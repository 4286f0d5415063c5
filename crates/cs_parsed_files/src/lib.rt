//! A law about the trees of lexed and parsed files: the premise of typing for a well-formed program.
#![tactic(auto)]

ghost use Rattle.cs_parsed_files.specs.Trees.{LexedFilesHaveTrees};

/// The tree of a lexed and parsed file that is not too long has constants, positions and a size that its text allows.
pub fn lexed_files_have_trees()
    ensures { LexedFilesHaveTrees }
{}
