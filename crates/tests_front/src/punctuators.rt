//! Typedef names, punctuators and words of types with known results.
use cs_ast::raw::operator::{InfixOp, PrefixOp, Step};
use cs_ast::raw::written_type::{IntegerWord, TypeWord};
use cs_ast::{Punctuator, TokenKind, Unsupported};
use cs_grammar::{
    TypeSoFar, TypedefNames, infix_level, infix_operator, prefix_operator, step, unsupported_text,
};
use cs_names::Name;
use std::test::Fail;

#[test]
fn typedef_names_are_found_again(rt: HostRuntime) -> Result<(), Fail> {
    let mut names = TypedefNames::new(rt.alloc());
    let size = Name::from_slice(rt.alloc(), b"size_t".as_slice())?;
    assert!(rt; !names.contains(&size));
    names.add(size.copy()?)?;
    names.add(size.copy()?)?;
    assert!(rt; names.contains(&size));
    assert!(rt; !names.contains(&Name::from_slice(rt.alloc(), b"size".as_slice())?));
    Ok(())
}

#[test]
fn punctuators_stand_for_operators(rt: HostRuntime) -> Result<(), Fail> {
    assert!(rt; matches!(infix_operator(Punctuator::Ampersand), Some(InfixOp::BitAnd)));
    assert!(rt;
        matches!(
            prefix_operator(Punctuator::Ampersand),
            Some(PrefixOp::Address)
        )
    );
    assert!(rt; matches!(step(Punctuator::Decrement), Some(Step::Down)));
    assert!(rt; infix_operator(Punctuator::Equal).is_none());
    assert!(rt; infix_level(InfixOp::Or) < infix_level(InfixOp::And));
    assert_eq!(rt;
        unsupported_text(&TokenKind::Unsupported(Unsupported::Int128)),
        b"__int128".as_slice()
    );
    Ok(())
}

// Whether all these words of integer types together are a type.
fn fit(words: &[IntegerWord]) -> bool {
    let mut so_far = TypeSoFar::Nothing;
    for word in words {
        let Some(after) = so_far.with(&TypeWord::Integer(*word)) else {
            return false;
        };
        so_far = after;
    }
    so_far.is_type()
}

#[test]
fn words_of_integer_types_fit_together(rt: HostRuntime) -> Result<(), Fail> {
    let long = IntegerWord::Long;
    assert!(rt; fit(&[long, IntegerWord::Unsigned, long, IntegerWord::Int]));
    assert!(rt; fit(&[IntegerWord::Char, IntegerWord::Signed]));
    assert!(rt; !fit(&[long, long, long]));
    assert!(rt; !fit(&[IntegerWord::Char, IntegerWord::Int]));
    assert!(rt; !fit(&[IntegerWord::Short, long]));
    assert!(rt; !fit(&[IntegerWord::Signed, IntegerWord::Unsigned]));
    Ok(())
}
