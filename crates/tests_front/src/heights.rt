//! Heights of small trees, counted by hand, with enough memory.
ghost use Rattle.std.specs.Prelude.{◌≡◌, ◌≤◌, ◌+◌, max, [], ◌∷◌, IfOk};
ghost use Rattle.cs_ast.specs.RawView.{written, written_list};
ghost use Rattle.cs_ast.specs.RawHeight as tree;
ghost use Rattle.cs_ast.specs.RawDeclarationView as view;
ghost use Rattle.cs_ast.specs.RawStatementView.{external, sentence};
ghost use Rattle.cs_ast.specs.RawFileHeight as file;

use cs_ast::Place;
use cs_ast::raw::declaration::{
    RawDeclarator, RawFunction, RawMember, RawParameter, RawParameters, RawSpecs, SpecWord,
};
use cs_ast::raw::expression::{RawExpr, RawExprKind};
use cs_ast::raw::external::{RawBody, RawExternal, RawExternalKind};
use cs_ast::raw::statement::{RawItem, RawStmt, RawStmtKind, RawSwitchItem};
use cs_ast::raw::written_type::{IntegerWord, TypeWord};
use cs_names::Name;
use std::alloc::{AllocError, Global};
use std::test::Fail;

const PLACE: Place = Place {
    file: 0,
    line: 1,
    column: 1,
};

fn at(alloc: Global, kind: RawExprKind) -> Result<RawExpr, AllocError>
    ensures { IfOk result (λ e. e.kind.value ≡ kind) }
{
    let kind = Box::new(alloc, kind)?;
    Ok(RawExpr { place: PLACE, kind })
}

/// `'0'`
fn leaf(alloc: Global) -> Result<RawExpr, AllocError>
    ensures { IfOk result (λ e. tree.height (written e) ≡ 1) }
{
    Ok(at(alloc, RawExprKind::Character(48))?)
}

/// `( inner )`
fn parenthesis(alloc: Global, inner: RawExpr) -> Result<RawExpr, AllocError>
    ensures { IfOk result (λ e. tree.height (written e) ≡ 1 + tree.height (written inner)) }
{
    Ok(at(alloc, RawExprKind::Parenthesis(inner))?)
}

/// `function ( arguments )`
fn call(alloc: Global, function: RawExpr, arguments: Vec<RawExpr>) -> Result<RawExpr, AllocError>
    ensures { IfOk result
        (λ e. tree.height (written e)
        ≡ 1 + max (tree.height (written function))
        (1 + tree.highest (written_list arguments.items))) }
{
    Ok(at(alloc, RawExprKind::Call(function, arguments))?)
}

/// `'0'` in this many parentheses
fn enclosed(alloc: Global, parentheses: u32) -> Result<RawExpr, AllocError>
    ensures { IfOk result (λ e. tree.height (written e) ≡ 1 + parentheses) }
{
    let mut inner = leaf(alloc)?;
    for _ in 0..parentheses {
        inner = parenthesis(alloc, inner)?;
    }
    Ok(inner)
}

/// `'0'` this many times
fn leaves(alloc: Global, number: u32) -> Result<Vec<RawExpr>, AllocError>
    ensures { IfOk result (λ list. tree.highest (written_list list.items) ≤ 1) }
{
    let mut list = Vec::new(alloc);
    for _ in 0..number {
        let next = leaf(alloc)?;
        list.push(next)?;
    }
    Ok(list)
}

/// A single word before declarators.
fn alone(alloc: Global, word: SpecWord) -> Result<RawSpecs, AllocError>
    ensures { IfOk result
        (λ s. file.specs_height (view.specs s) ≡ file.spec_height (view.spec word)) }
{
    Ok(RawSpecs {
        words: vec![in alloc; word]?,
        tag: None,
    })
}

/// `int`
fn int(alloc: Global) -> Result<RawSpecs, AllocError>
    ensures { IfOk result (λ s. file.specs_height (view.specs s) ≡ 1) }
{
    alone(alloc, SpecWord::Plain(TypeWord::Integer(IntegerWord::Int)))
}

/// `f(int x)`
fn head(alloc: Global) -> Result<RawFunction, AllocError>
    ensures { IfOk result (λ f. file.head_height (view.head f) ≡ 4) }
{
    let parameter = RawParameter {
        place: PLACE,
        specs: int(alloc)?,
        pointers: Vec::new(alloc),
        name: None,
        bounds: Vec::new(alloc),
    };
    Ok(RawFunction {
        pointers: Vec::new(alloc),
        place: PLACE,
        name: Name::from_slice(alloc, b"f")?,
        parameters: RawParameters::List(vec![in alloc; parameter]?),
    })
}

/// `int f(int x){` the body `}`
fn definition(alloc: Global, body: RawStmtKind) -> Result<RawExternal, AllocError>
    ensures { IfOk result
        (λ e. file.external_height (external e)
        ≡ 1 + max 4 (1 + file.sentence_height (sentence body))) }
{
    let body = RawStmt {
        place: PLACE,
        kind: Box::new(alloc, body)?,
    };
    Ok(RawExternal {
        place: PLACE,
        kind: RawExternalKind::Definition(
            int(alloc)?,
            head(alloc)?,
            RawBody {
                opening: PLACE,
                items: vec![in alloc; RawItem::Run(body)]?,
                closing: PLACE,
            },
        ),
    })
}

/// `switch('0'){case` the value `:default:}`
fn switch_on(alloc: Global, value: RawExpr) -> Result<RawStmtKind, AllocError>
    ensures { IfOk result
        (λ s. file.sentence_height (sentence s) ≡ 1 + max 1 (1 + tree.height (written value))) }
{
    let items = vec![in alloc;
        RawSwitchItem::Case(PLACE, value),
        RawSwitchItem::Default(PLACE),
    ]?;
    let test = leaf(alloc)?;
    Ok(RawStmtKind::Switch(test, items))
}

/// `int a[bound]`
fn array(alloc: Global, bound: RawExpr) -> Result<RawMember, AllocError>
    ensures { IfOk result
        (λ m. file.members_height (view.members_list (m ∷ []))
        ≡ 2 + tree.height (written bound)) }
{
    let declarator = RawDeclarator {
        pointers: Vec::new(alloc),
        place: PLACE,
        name: Name::from_slice(alloc, b"a")?,
        bounds: vec![in alloc; Some(bound)]?,
    };
    Ok(RawMember {
        specs: int(alloc)?,
        declarators: vec![in alloc; declarator]?,
    })
}

/// `struct{` a member `}`
fn body(alloc: Global, member: RawMember) -> Result<SpecWord, AllocError>
    ensures { IfOk result
        (λ w. file.spec_height (view.spec w)
        ≡ 1 + file.members_height (view.members_list (member ∷ []))) }
{
    Ok(SpecWord::Struct(None, vec![in alloc; member]?))
}

/// `struct{int a[bound];};`
fn structure(alloc: Global, bound: RawExpr) -> Result<RawExternal, AllocError>
    ensures { IfOk result
        (λ e. file.external_height (external e) ≡ 4 + tree.height (written bound)) }
{
    let word = body(alloc, array(alloc, bound)?)?;
    Ok(RawExternal {
        place: PLACE,
        kind: RawExternalKind::Type(alone(alloc, word)?),
    })
}

/// Returns the height of a call with these arguments.
fn called(alloc: Global, arguments: Vec<RawExpr>) -> Result<u32, AllocError>
    requires { tree.highest (written_list arguments.items) ≤ 1000 }
{
    let function = leaf(alloc)?;
    Ok(call(alloc, function, arguments)?.height())
}

#[test]
fn an_argument_list_is_a_node(rt: HostRuntime) -> Result<(), Fail> {
    let alloc = rt.alloc();
    assert_eq!(rt; leaf(alloc)?.height(), 1);
    assert_eq!(rt; called(alloc, Vec::new(alloc))?, 2);
    assert_eq!(rt; called(alloc, leaves(alloc, 1000)?)?, 3);
    Ok(())
}

#[test]
fn parentheses_reach_the_limit(rt: HostRuntime) -> Result<(), Fail> {
    let alloc = rt.alloc();
    for (parentheses, height) in [(0, 5), (1, 5), (2, 6), (196, 200)] {
        let value = enclosed(alloc, parentheses)?;
        let function = definition(alloc, RawStmtKind::Return(Some(value)))?;
        assert_eq!(rt; function.height(), height);
    }
    Ok(())
}

#[test]
fn what_a_switch_and_a_struct_hold_counts(rt: HostRuntime) -> Result<(), Fail> {
    let alloc = rt.alloc();
    let branches = switch_on(alloc, enclosed(alloc, 2)?)?;
    assert_eq!(rt; definition(alloc, branches)?.height(), 7);
    assert_eq!(rt; structure(alloc, enclosed(alloc, 2)?)?.height(), 7);
    Ok(())
}
