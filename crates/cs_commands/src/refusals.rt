//! The answers to refused files: the line of each refusal.
ghost use Rattle.std.specs.Prelude.{◌≡◌, ◌++◌, [], codes, slice_index_or, IfOk};
ghost use Rattle.cs_report.specs.RefusalLines.{refusal_line};
ghost use Rattle.cs_commands.specs.Refusals.{IsFileLine, IsLexLine, IsSyntaxLine, IsTypeLine, line_in};

use cs_answers::{Answer, Status};
use cs_ast::Place;
use cs_grammar::SyntaxRefusal;
use cs_lexer::LexRefusal;
use cs_names::Name;
use cs_program::FileRefusal;
use cs_report::append_refusal;
use cs_scopes::TypeRefusal;
use std::alloc::{AllocError, Global};

/// Returns the answer to a file that is too long.
pub fn refused_length(alloc: Global) -> Result<Answer, AllocError>
    ensures status { IfOk result (λ answer. answer.status ≡ Status.BadFile) }
    ensures text { IfOk result (λ answer.
        answer.text.items ≡ codes "refused too-long 4194305\n") }
{
    refused_line(alloc, b"refused too-long 4194305\n")
}

/// Returns the answer to a refused file.
pub fn refused(alloc: Global, refusal: FileRefusal) -> Result<Answer, AllocError>
    ensures status { IfOk result (λ answer. answer.status ≡ Status.BadFile) }
    ensures text { IfOk result (λ answer. IsFileLine refusal answer.text.items) }
{
    match refusal {
        FileRefusal::TooLong => refused_length(alloc),
        FileRefusal::Tokens(refusal) => refused_tokens(alloc, refusal),
        FileRefusal::Syntax(refusal, files) => refused_syntax(alloc, &files, refusal),
        FileRefusal::Types(refusal, files) => refused_type(alloc, &files, refusal),
    }
}

/// Returns the answer to a file that can't be split into tokens.
fn refused_tokens(alloc: Global, refusal: LexRefusal) -> Result<Answer, AllocError>
    ensures status { IfOk result (λ answer. answer.status ≡ Status.BadFile) }
    ensures text { IfOk result (λ answer. IsLexLine refusal answer.text.items) }
{
    match refusal {
        LexRefusal::BadByte(place, file) => refused_at(alloc, b"refused lex 1 ", &file, place),
        LexRefusal::Unclosed(place, file) => refused_at(alloc, b"refused lex 2 ", &file, place),
        LexRefusal::WideNumber(place, file) => refused_at(alloc, b"refused lex 3 ", &file, place),
        LexRefusal::BadLine(place, file) => refused_at(alloc, b"refused lex 4 ", &file, place),
        LexRefusal::TooManyTokens => refused_line(alloc, b"refused too-many-tokens 400001\n"),
        LexRefusal::Memory => Err(AllocError),
    }
}

/// Returns the answer to a file whose tokens aren't a tree that is low enough. The positions are in these files.
fn refused_syntax(
    alloc: Global,
    files: &[Name],
    refusal: SyntaxRefusal,
) -> Result<Answer, AllocError>
    ensures status { IfOk result (λ answer. answer.status ≡ Status.BadFile) }
    ensures text { IfOk result (λ answer. IsSyntaxLine files.now refusal answer.text.items) }
{
    match refusal {
        SyntaxRefusal::Syntax(place) => refused_in(alloc, b"refused syntax ", files, place),
        SyntaxRefusal::Unsupported(place, word) => refused_word(alloc, &word, files, place),
        SyntaxRefusal::TooDeep(place) => refused_in(alloc, b"refused too-deep ", files, place),
        SyntaxRefusal::Memory => Err(AllocError),
    }
}

/// Returns the answer to a file whose tree doesn't type-check. The positions are in these files.
fn refused_type(alloc: Global, files: &[Name], refusal: TypeRefusal) -> Result<Answer, AllocError>
    ensures status { IfOk result (λ answer. answer.status ≡ Status.BadFile) }
    ensures text { IfOk result (λ answer. IsTypeLine files.now refusal answer.text.items) }
{
    match refusal {
        TypeRefusal::Code(code, place) => {
            let words = format!(in alloc; "refused type {} ", code.number())?;
            refused_in(alloc, words.as_bytes(), files, place)
        }
        TypeRefusal::Memory => Err(AllocError),
    }
}

/// Returns the answer to a file with this unsupported word or punctuator at a position in one of these files.
fn refused_word(
    alloc: Global,
    word: &Name,
    files: &[Name],
    place: Place,
) -> Result<Answer, AllocError>
    ensures status { IfOk result (λ answer. answer.status ≡ Status.BadFile) }
    ensures text { IfOk result (λ answer.
        answer.text.items ≡ line_in files.now (codes "refused left-out " ++ word.now ++ codes " ")
        place) }
{
    let mut words = Vec::from_slice(alloc, b"refused left-out ")?;
    words.extend_from_slice(word.as_bytes())?;
    words.push(b' ')?;
    refused_in(alloc, &words, files, place)
}

/// Returns the answer to a file that is refused at a position in one of these files, with these words. The name of a file without one is
/// omitted.
fn refused_in(
    alloc: Global,
    words: &[u8],
    files: &[Name],
    place: Place,
) -> Result<Answer, AllocError>
    ensures status { IfOk result (λ answer. answer.status ≡ Status.BadFile) }
    ensures text { IfOk result (λ answer.
        answer.text.items ≡ line_in files.now words.now place) }
{
    match files.get(place.file as usize) {
        Some(file) => refused_at(alloc, words, file, place),
        None => {
            let nameless = Name::from_slice(alloc, b"")?;
            refused_at(alloc, words, &nameless, place)
        }
    }
}

/// Returns the answer to a file that is refused at a position in the file with this name, with these words.
fn refused_at(alloc: Global, words: &[u8], file: &Name, place: Place) -> Result<Answer, AllocError>
    ensures status { IfOk result (λ answer. answer.status ≡ Status.BadFile) }
    ensures text { IfOk result (λ answer.
        answer.text.items ≡ refusal_line words.now file.now place) }
{
    let mut text = Vec::from_slice(alloc, words)?;
    append_refusal(&mut text, "", file, place)?;
    Ok(Answer {
        status: Status::BadFile,
        text,
    })
}

/// Returns the answer to a refused file that consists of this line.
fn refused_line(alloc: Global, line: &[u8]) -> Result<Answer, AllocError>
    ensures status { IfOk result (λ answer. answer.status ≡ Status.BadFile) }
    ensures text { IfOk result (λ answer. answer.text.items ≡ line.now) }
{
    Ok(Answer {
        status: Status::BadFile,
        text: Vec::from_slice(alloc, line)?,
    })
}
