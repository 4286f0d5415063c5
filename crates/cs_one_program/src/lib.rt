//! A file has one program: laws about the trees of a file and their typing.
#![tactic(auto)]

ghost use Rattle.cs_one_program.specs.Laws.{FilesHaveOneTree, TypingSeesPartsAndPlaces, FilesHaveOneProgram};

/// Two trees of the same tokens have the same parts at the same positions (C11 6.9): they only differ in memory addresses.
pub fn files_have_one_tree()
    ensures { FilesHaveOneTree }
{}

/// The result of typing depends only on the parts of the tree and their positions.
pub fn typing_sees_parts_and_places()
    ensures { TypingSeesPartsAndPlaces }
{}

/// The same tokens are typed as one program, or are refused at one position with one code.
pub fn files_have_one_program()
    ensures { FilesHaveOneProgram }
{}
