//! Where initializer lists may begin among the tokens of a file (C11 6.7.9).
ghost use Rattle.std.specs.Prelude.{◌≡◌, [], ◌∷◌, ◌++◌, ◌↔◌, IsTrue};
ghost use Rattle.cs_ast.specs.declared.token.TokenKind.TheVariants as token;
ghost use Rattle.cs_ast.specs.declared.token.Punctuator.TheVariants as punctuator;
ghost use Rattle.cs_grammar.specs.FilePhrases.{BeginsFile};
ghost use Rattle.cs_grammar.specs.FileRefusals.{MayHave};
ghost use Rattle.cs_grammar.specs.Roles.{opens_list};
ghost use Rattle.cs_unsupported.specs.Awaiting.{step as one_more};
ghost use Rattle.cs_unsupported.specs.Readings.{kinds};

use cs_ast::{Punctuator, Token, TokenKind};

/// Whether an initializer is expected after one more token.
///
/// No block, body or type directly follows `=` or a comma, so a brace there opens a list, and a brace after that one
/// opens a list in that list.
fn following(kind: &TokenKind, awaits: bool) -> bool
    ensures { result ≡ one_more kind.now awaits }
{
    match kind {
        TokenKind::Punctuator(Punctuator::Equal | Punctuator::Comma) => true,
        TokenKind::Punctuator(Punctuator::OpenBrace) => awaits,
        _ => false,
    }
}

/// Whether a brace after these tokens would open an initializer list, if a file continues with one.
pub fn awaits_list(before: &[Token]) -> bool
    ensures { MayHave (kinds before.now) opens_list
        ↔ (IsTrue result
        × BeginsFile (kinds before.now ++ token.Punctuator punctuator.OpenBrace ∷ [])) }
{
    let mut awaits = false;
    'tokens: for token in before {
        awaits = following(&token.kind, awaits);
    }
    awaits
}
