//! The parser of files.
ghost use Rattle.std.specs.Prelude.{◌<◌, ◌^◌, length, IfOk};
ghost use Rattle.std.specs.Result.{IfErr};
ghost use Rattle.cs_decl_parser.specs.Files.{parts_of, IsTheFile, IsFileRefusal};
ghost use Rattle.cs_decl_parser.specs.FileStops.{FileStops};
ghost use Rattle.cs_decl_parser.specs.ReadParts.{StandsAmidst};
ghost use Rattle.cs_decl_parser.specs.FilePlaces.{AreFilePlaced};

use crate::externals::Parts;
use crate::reason::reason_reported;
use cs_ast::raw::external::Tree;
use cs_ast::{Place, Token};
use cs_declarator_parser::stop::Stop;
use cs_expr_parser::refusal;
use cs_grammar::SyntaxRefusal;
use std::alloc::Global;

/// Returns the tree of the file that these tokens are (C11 6.9). `end` is the position of the end of input.
///
/// If they aren't a file within the height limit, the first token is refused such that no file within the limit begins
/// with the tokens up to it. The end of input counts as a token.
pub fn parse(alloc: Global, tokens: &[Token], end: Place) -> Result<Tree, SyntaxRefusal>
    requires few { length tokens.now < 2 ^ 32 }
    ensures taken { IfOk result (λ tree. IsTheFile tokens.now (parts_of tree.externals.items)) }
    ensures placed { IfOk result (λ tree. AreFilePlaced tree.externals.items tokens.now) }
    ensures refused { IfErr result (IsFileRefusal tokens.now end) }
{
    let mut parts = Parts::new(alloc);
    match parts.read(alloc, tokens) {
        Ok(()) => Ok(Tree {
            externals: parts.list,
        }),
        Err(stop) => Err(refused(alloc, tokens, end, stop, &parts)),
    }
}

/// Returns the refusal at which the parser stopped after some parts of the file.
fn refused(alloc: Global, tokens: &[Token], end: Place, stop: Stop, parts: &Parts) -> SyntaxRefusal
    requires few { length tokens.now < 2 ^ 32 }
    requires amidst { StandsAmidst tokens.now parts.now stop }
    ensures { FileStops tokens.now stop → IsFileRefusal tokens.now end result }
{
    match stop {
        Stop::Refused(at, reason) => match reason_reported(alloc, tokens, at, reason, parts) {
            Ok(reason) => refusal(alloc, tokens, end, at, reason),
            Err(_) => SyntaxRefusal::Memory,
        },
        Stop::Memory => SyntaxRefusal::Memory,
    }
}
