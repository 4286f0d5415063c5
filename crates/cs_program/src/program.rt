//! From the bytes of a file to its program.
ghost use Rattle.std.specs.Prelude.{◌≤◌, ℕ, List, length, IfOk, IfErr};
ghost use Rattle.cs_ast.specs.TypedProgram.{typed_program};
ghost use Rattle.cs_lexer.specs.Lexing.{Lexes};
ghost use Rattle.cs_parsed_files.specs.Trees.{IsOfFile};
ghost use Rattle.cs_well_formed.specs.Files.{IsFileTree};
ghost use Rattle.cs_well_formed.specs.Programs.{IsWellFormed};
ghost use Rattle.cs_program.specs.Trees.{Parses};
ghost use Rattle.cs_program.specs.Answers.{IsProgramOf, IsRefusedFor};

use crate::refusal::FileRefusal;
use cs_ast::raw::external::RawExternal;
use cs_ast::typed::program::Program;
use cs_decl_parser::parse;
use cs_lexer::{Lexed, tokens};
use cs_limits::{MOST_BYTES, MOST_TOKENS};
use cs_names::Name;
use cs_types::DataModel;
use cs_typing::typed;
use std::alloc::Global;
use std::mem::forget;

/// The program of a file, and the names of the files that its positions are in.
#[derive(Drop)]
pub struct FileProgram {
    pub files: Vec<Name>,
    pub program: Program,
}

/// Returns the program of a preprocessed file under a data model, or the first check that the file doesn't pass.
pub fn program_of(alloc: Global, model: DataModel, file: &[u8]) -> Result<FileProgram, FileRefusal>
    ensures program { IfOk result (λ found. IsProgramOf model file.now found) }
    ensures well_formed { IfOk result (λ found. IsWellFormed (typed_program found.program)) }
    ensures refused { IfErr result (λ refusal. IsRefusedFor model file.now refusal) }
{
    if file.len() > MOST_BYTES {
        return Err(FileRefusal::TooLong);
    }
    match tokens(alloc, file) {
        Ok(lexed) => parsed(alloc, model, lexed),
        Err(refusal) => Err(FileRefusal::Tokens(refusal)),
    }
}

// The program of a file with these tokens.
fn parsed(alloc: Global, model: DataModel, lexed: Lexed) -> Result<FileProgram, FileRefusal>
    requires few { length lexed.list.items ≤ MOST_TOKENS }
    requires lexed { IsOfFile lexed }
    ensures program { IfOk result (λ found. (file : List ℕ) → length file ≤ MOST_BYTES
        → Lexes file lexed → IsProgramOf model file found) }
    ensures well_formed { IfOk result (λ found. IsWellFormed (typed_program found.program)) }
    ensures refused { IfErr result (λ refusal. (file : List ℕ) → length file ≤ MOST_BYTES
        → Lexes file lexed → IsRefusedFor model file refusal) }
{
    match parse(alloc, lexed.list.as_slice(), lexed.end) {
        Ok(tree) => {
            let answer = typed_as(alloc, model, lexed, &tree.externals);
            // The process handles one file and exits: the tree isn't freed node by node.
            forget(tree);
            answer
        }
        Err(refusal) => Err(FileRefusal::Syntax(refusal, lexed.files)),
    }
}

// The program of a file with this tree.
fn typed_as(
    alloc: Global,
    model: DataModel,
    lexed: Lexed,
    tree: &[RawExternal],
) -> Result<FileProgram, FileRefusal>
    requires { IsFileTree lexed.files.items lexed.list.items tree.now }
    ensures program { IfOk result (λ found. (file : List ℕ) → Parses file lexed tree.now
        → IsProgramOf model file found) }
    ensures well_formed { IfOk result (λ found. IsWellFormed (typed_program found.program)) }
    ensures refused { IfErr result (λ refusal. (file : List ℕ) → Parses file lexed tree.now
        → IsRefusedFor model file refusal) }
{
    match typed(alloc, model, &lexed.files, &lexed.list, tree) {
        Ok(program) => {
            // Nor are the tokens.
            forget(lexed.list);
            Ok(FileProgram {
                files: lexed.files,
                program,
            })
        }
        Err(refusal) => Err(FileRefusal::Types(refusal, lexed.files)),
    }
}
