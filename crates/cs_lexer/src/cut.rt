//! Cuts a text into pieces.
ghost use Rattle.std.specs.Prelude.{◌≡◌, ◌≤◌, ◌<◌, ◌+◌, ◌^◌, ◌++◌, length, take, IfOk, OnOk, OnErr};
ghost use Rattle.cs_lexer.specs.Cuttings as spec;
ghost use Rattle.cs_lexer.specs.Spots as spots;
ghost use Rattle.cs_lexer.specs.Cuttings.{IsCutting, file_after, files_after};

use crate::files::Files;
use crate::lexeme::{Fault, Lexeme};
use crate::part::{begins_with, following, front};
use crate::piece::piece;
use crate::spot::{Spot, line_of, spot_after, start};
use cs_ast::{Place, Token, TokenKind};
use cs_limits::MOST_BYTES;
use cs_names::{Bytes, Name};
use std::alloc::{AllocError, Global};

/// How a cutting ends: at the end of the text, or at a fault.
#[derive(Clone, Copy)]
pub enum End {
    Whole,
    Refused(Fault),
}

/// The tokens and the files of a text up to its end or its first fault, and the position of that.
#[derive(Drop)]
pub struct Cutting {
    pub tokens: Vec<Token>,
    pub files: Files,
    pub place: Place,
    pub end: End,
}

// Returns the file after a linemarker.
fn marked_file(files: &mut Files, spot: Spot, name: Option<Name>) -> Result<u32, AllocError>
    requires { length files.old < 2 ^ 32 }
    ensures value { IfOk result (λ file. file ≡ file_after files.old spot name) }
    ensures added { OnOk result (files.new ≡ files_after files.old name) }
    ensures err { OnErr result (files.new ≡ files.old) }
{
    match name {
        Some(name) => files.number(name),
        None => Ok(spot.place.file),
    }
}

// Returns the position of the byte after a linemarker.
fn marked_spot(spot: Spot, file: u32, next: Option<u32>, bytes: &[u8]) -> Spot
    requires line { spot.place.line + length bytes.now < 2 ^ 32 }
    requires column { spot.place.column + length bytes.now < 2 ^ 32 }
    ensures { result ≡ spec.marked_spot spot file next bytes.now }
{
    match next {
        Some(line) => line_of(file, line),
        None => spot_after(spot, bytes),
    }
}

// Returns the kind of the token that has begun, if a fault is after its first byte.
fn begun_kind(alloc: Global, rest: &[u8]) -> TokenKind
    ensures { result ≡ spec.begun_kind rest.now }
{
    if begins_with(rest, b'"') {
        TokenKind::Text(Bytes::from_vec(Vec::new(alloc)))
    } else {
        TokenKind::Character(0)
    }
}

// Adds the token that a fault is in, if it has begun.
fn push_begun(
    alloc: Global,
    tokens: &mut Vec<Token>,
    rest: &[u8],
    size: usize,
    place: Place,
) -> Result<(), AllocError>
    ensures ok { OnOk result (tokens.new.items
        ≡ tokens.old.items ++ spec.begun rest.now size place) }
    ensures err { OnErr result (tokens.new.items ≡ tokens.old.items) }
{
    if size > 0 {
        let kind = begun_kind(alloc, rest);
        tokens.push(Token { kind, place })?;
    }
    Ok(())
}

// Returns the cutting that ends at a fault in the piece that the rest begins with.
fn refused(
    alloc: Global,
    before: Vec<Token>,
    files: Files,
    spot: Spot,
    rest: &[u8],
    fault: Fault,
    size: usize,
) -> Result<Cutting, AllocError>
    requires line { spot.place.line + length rest.now < 2 ^ 32 }
    requires column { spot.place.column + length rest.now < 2 ^ 32 }
    ensures end { IfOk result (λ cutting. cutting.end ≡ End.Refused fault) }
    ensures files { IfOk result (λ cutting. cutting.files ≡ files) }
    ensures tokens { IfOk result (λ cutting.
        cutting.tokens.items ≡ before.items ++ spec.begun rest.now size spot.place) }
    ensures place { IfOk result (λ cutting.
        cutting.place ≡ (spots.spot_after spot (take size rest.now)).place) }
{
    let mut tokens = before;
    push_begun(alloc, &mut tokens, rest, size, spot.place)?;
    Ok(Cutting {
        tokens,
        files,
        place: spot_after(spot, front(rest, size)).place,
        end: End::Refused(fault),
    })
}

/// Cuts a text into its pieces.
pub fn cut(alloc: Global, text: &[u8]) -> Result<Cutting, AllocError>
    requires { length text.now ≤ MOST_BYTES }
    ensures { IfOk result (λ cutting. IsCutting text.now cutting) }
{
    let mut tokens = Vec::new(alloc);
    let mut files = Files::new(alloc)?;
    let mut spot = start();
    let mut rest = text;
    while !rest.is_empty() {
        match piece(alloc, spot.is_line_start, rest)? {
            Lexeme::Gap(size) => {
                spot = spot_after(spot, front(rest, size));
                rest = following(rest, size);
            }
            Lexeme::Marker(size, next, name) => {
                let file = marked_file(&mut files, spot, name)?;
                spot = marked_spot(spot, file, next, front(rest, size));
                rest = following(rest, size);
            }
            Lexeme::Token(size, kind) => {
                let place = spot.place;
                tokens.push(Token { kind, place })?;
                spot = spot_after(spot, front(rest, size));
                rest = following(rest, size);
            }
            Lexeme::Refused(fault, size) => {
                return refused(alloc, tokens, files, spot, rest, fault, size);
            }
        }
    }
    Ok(Cutting {
        tokens,
        files,
        place: spot.place,
        end: End::Whole,
    })
}
