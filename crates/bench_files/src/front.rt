//! Times the front end: splits a file into tokens, parses them, types the tree and lowers the program, and prints how many there were of
//! each. With the word `parse` or `type` it stops after that stage.

ghost use Rattle.std.specs.Prelude.{◌≤◌, length};
ghost use Rattle.cs_ast.specs.TypedProgram.{HasLayouts};

use cs_ast::raw::external::RawExternal;
use cs_ast::typed::program::Program;
use cs_decl_parser::parse;
use cs_grammar::SyntaxRefusal;
use cs_io::{StdSource, read_all};
use cs_lexer::{Lexed, tokens};
use cs_limits::{MOST_BYTES, MOST_TOKENS};
use cs_lower::lower;
use cs_scopes::TypeRefusal;
use cs_types::DataModel;
use cs_typing::typed;
use std::io;

/// The last stage that is timed.
#[derive(Clone, Copy)]
pub enum Stage {
    Parse,
    Type,
    Lower,
}

// Returns the stage that the first word names, or the last one if it names none.
fn last_stage(words: &[String]) -> Stage {
    match words.first() {
        Some(word) if word.as_str() == "parse" => Stage::Parse,
        Some(word) if word.as_str() == "type" => Stage::Type,
        _ => Stage::Lower,
    }
}

/// Runs the front end on standard input, to the stage that the first word names.
pub fn run(rt: &HostRuntime, words: &[String]) -> io::Result<()> {
    let mut source = StdSource::new(rt.stdin());
    match read_all(rt.alloc(), &mut source) {
        Ok(file) => cut(rt, file.as_slice(), last_stage(words)),
        Err(_) => println!(rt; "not read"),
    }
}

/// Splits a file into tokens, and parses them.
pub fn cut(rt: &HostRuntime, file: &[u8], last: Stage) -> io::Result<()>
    requires { length file.now ≤ MOST_BYTES }
{
    match tokens(rt.alloc(), file) {
        Ok(lexed) => {
            let count = lexed.list.as_slice().len();
            println!(rt; "{count} tokens")?;
            parsed(rt, &lexed, last)
        }
        Err(_) => println!(rt; "no tokens"),
    }
}

// Parses tokens, of which there are at most `MOST_TOKENS`.
fn parsed(rt: &HostRuntime, lexed: &Lexed, last: Stage) -> io::Result<()> {
    let list = lexed.list.as_slice();
    if list.len() > MOST_TOKENS {
        return println!(rt; "too many");
    }
    match parse(rt.alloc(), list, lexed.end) {
        Ok(tree) => {
            let count = tree.externals.as_slice().len();
            println!(rt; "{count} parts")?;
            with_types(rt, lexed, &tree.externals, last)
        }
        Err(SyntaxRefusal::Syntax(place)) => {
            println!(rt; "syntax {}:{}", place.line, place.column)
        }
        Err(SyntaxRefusal::Unsupported(place, _)) => {
            println!(rt; "unsupported {}:{}", place.line, place.column)
        }
        Err(SyntaxRefusal::TooDeep(place)) => {
            println!(rt; "too deep {}:{}", place.line, place.column)
        }
        Err(SyntaxRefusal::Memory) => println!(rt; "memory"),
    }
}

// Types a tree, and lowers the program.
fn with_types(
    rt: &HostRuntime,
    lexed: &Lexed,
    tree: &[RawExternal],
    last: Stage,
) -> io::Result<()> {
    if let Stage::Parse = last {
        return Ok(());
    }
    match typed(rt.alloc(), DataModel::Lp64, &lexed.files, &lexed.list, tree) {
        Ok(program) => {
            let count = program.functions.len();
            println!(rt; "{count} functions")?;
            match last {
                Stage::Parse | Stage::Type => Ok(()),
                Stage::Lower => lowered(rt, &program),
            }
        }
        Err(TypeRefusal::Code(code, place)) => {
            println!(rt; "type {} {}:{}", code.number(), place.line, place.column)
        }
        Err(TypeRefusal::Memory) => println!(rt; "memory"),
    }
}

// Lowers a program.
fn lowered(rt: &HostRuntime, program: &Program) -> io::Result<()>
    requires { HasLayouts program.now }
{
    match lower(rt.alloc(), program) {
        Ok(code) => {
            let count = code.flows.iter().flatten().count();
            println!(rt; "{count} graphs")
        }
        Err(_) => println!(rt; "memory"),
    }
}
