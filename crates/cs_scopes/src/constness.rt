//! Where a declaration has `const`: among its words, or after its stars (C11 6.7.3).
ghost use Rattle.std.specs.Prelude.{◌≡◌, List, ◌++◌, [], ◌∷◌};
ghost use Rattle.cs_ast.specs.declared.raw.written_type.PointerWord.{PointerWord};
ghost use Rattle.cs_scopes.specs.Constness.{is_const_word, has_const, points_to_const, is_constant_object, AreLastStars};

use cs_ast::raw::declaration::{RawSpecs, SpecWord};
use cs_ast::raw::expression::RawExpr;
use cs_ast::raw::written_type::{PointerWord, TypeWord};

// Whether `const` is among the words.
fn has_const(specs: &RawSpecs) -> bool
    ensures { result ≡ has_const specs.now }
{
    specs.words.iter().any(is_const_word)
}

// Whether the word is `const`.
fn is_const_word(word: &SpecWord) -> bool
    ensures { result ≡ is_const_word word.now }
{
    match word {
        SpecWord::Plain(TypeWord::Const) => true,
        _ => false,
    }
}

/// For the last star and for the one before it, if they exist, whether `const` follows it.
#[derive(Clone, Copy)]
pub struct Stars {
    pub last: Option<bool>,
    pub before: Option<bool>,
}

/// Returns the last two stars of a declarator.
pub fn last_stars(pointers: &[PointerWord]) -> Stars
    ensures { AreLastStars pointers.now result }
{
    let mut stars = Stars {
        last: None,
        before: None,
    };
    for word in pointers {
        stars = stars.following(*word);
    }
    stars
}

impl Stars {
    // The last two stars after one more word.
    fn following(self, word: PointerWord) -> Stars
        ensures { (before : List PointerWord) → AreLastStars before self
            → AreLastStars (before ++ word ∷ []) result }
    {
        match (word, self.last) {
            (PointerWord::Star, last) => Stars {
                last: Some(false),
                before: last,
            },
            (PointerWord::Const, Some(_)) => Stars {
                last: Some(true),
                before: self.before,
            },
            (PointerWord::Const, None) => self,
        }
    }
}

/// Whether a parameter that was written with these bounds points to something const.
///
/// With a bound that is decided by the last star, or by the words if there is no star; without one, by the
/// last star but one, or by the words if there is one star.
pub fn points_to_const(
    specs: &RawSpecs,
    pointers: &[PointerWord],
    bounds: &[Option<RawExpr>],
) -> bool
    ensures { result ≡ points_to_const specs.now pointers.now bounds.now }
{
    let stars = last_stars(pointers);
    let has_bound = !bounds.is_empty();
    let said = if has_bound { stars.last } else { stars.before };
    match said {
        Some(constant) => constant,
        None => (has_bound || stars.last.is_some()) && has_const(specs),
    }
}

/// Whether a file-scope object is const: by the `const` after its last star, or, without a star, among its words.
pub fn is_constant_object(specs: &RawSpecs, pointers: &[PointerWord]) -> bool
    ensures { result ≡ is_constant_object specs.now pointers.now }
{
    match last_stars(pointers).last {
        Some(constant) => constant,
        None => has_const(specs),
    }
}
