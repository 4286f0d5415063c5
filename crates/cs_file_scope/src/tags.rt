//! The tags of a file's structs (C11 6.7.2.3): one is declared where it is first named after `struct`, in a declaration or in an
//! expression. All tags have file scope, so they are declared before the file is read.
ghost use Rattle.std.specs.Prelude.{◌≡◌, OnOk};
ghost use Rattle.cs_declarations.specs.View.{environment_of};
ghost use Rattle.cs_file_scope.specs.Tags.{tag_word, tag_named, token_read, tags_declared};
ghost use Rattle.cs_file_scope.specs.View.{tagging_of};

use cs_ast::{Keyword, Token, TokenKind};
use cs_declarations::Environment;
use cs_names::Name;
use indexmap::IndexSet;
use std::alloc::{AllocError, Global};

/// The keyword before a tag.
#[derive(Clone, Copy)]
pub enum TagWord {
    Struct,
    Enum,
}

// The keyword that a token is, if a tag may follow it.
fn tag_word(kind: &TokenKind) -> Option<TagWord>
    ensures { result ≡ tag_word kind.now }
{
    match kind {
        TokenKind::Keyword(Keyword::Struct) => Some(TagWord::Struct),
        TokenKind::Keyword(Keyword::Enum) => Some(TagWord::Enum),
        _ => None,
    }
}

// A tag after a keyword: what it denotes is decided where it is first named.
fn name_tag(
    known: &mut Environment,
    enums: &mut IndexSet<Name>,
    word: TagWord,
    name: &Name,
) -> Result<(), AllocError>
    ensures { OnOk result (tagging_of known.new enums.new
        ≡ tag_named word name.now (tagging_of known.old enums.old)) }
{
    if known.context.scope.tags.meaning(name).is_some() || enums.contains(name) {
        return Ok(());
    }
    match word {
        TagWord::Struct => {
            known.add_tagged_struct(name)?;
        }
        TagWord::Enum => {
            enums.insert(name.copy()?).map_err(|_| AllocError)?;
        }
    }
    Ok(())
}

// A token after such a keyword, or after another token.
fn read_token(
    known: &mut Environment,
    enums: &mut IndexSet<Name>,
    before: Option<TagWord>,
    kind: &TokenKind,
) -> Result<(), AllocError>
    ensures { OnOk result (tagging_of known.new enums.new
        ≡ token_read before kind.now (tagging_of known.old enums.old)) }
{
    match (before, kind) {
        (Some(word), TokenKind::Name(name)) => name_tag(known, enums, word, name),
        _ => Ok(()),
    }
}

/// Declares the tags of the structs of a file with these tokens.
pub fn declare_tags(
    alloc: Global,
    known: &mut Environment,
    tokens: &[Token],
) -> Result<(), AllocError>
    ensures { OnOk result (environment_of known.new
        ≡ tags_declared tokens.now (environment_of known.old)) }
{
    let mut enums = IndexSet::new(alloc);
    let mut before = None;
    for token in tokens {
        read_token(known, &mut enums, before, &token.kind)?;
        before = tag_word(&token.kind);
    }
    Ok(())
}
