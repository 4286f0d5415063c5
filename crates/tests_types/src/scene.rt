//! The declarations that the examples use. `data/gcc.py` has the same in C.

use cs_names::Name;
use cs_scopes::{
    Callee, Context, Declaration, Declarations, DeclaredFunction, Meaning, Scope, Tag, TagMeaning,
    Tags,
};
use cs_types::{
    CType, DataModel, IntType, Member, Members, StructTable, StructType, Structs, size_type,
};
use std::alloc::{AllocError, Global};

/// Objects of integer types.
const INTEGERS: [(&str, IntType); 7] = [
    ("i", IntType::Int),
    ("u", IntType::UInt),
    ("l", IntType::Long),
    ("w", IntType::ULong),
    ("o", IntType::LLong),
    ("h", IntType::Short),
    ("c", IntType::Char),
];

fn name(alloc: Global, text: &str) -> Result<Name, AllocError> {
    Name::from_slice(alloc, text.as_bytes())
}

fn pointer(alloc: Global, target: CType) -> Result<CType, AllocError> {
    Ok(CType::Pointer(Box::new(alloc, target)?))
}

fn array(alloc: Global, element: CType, count: u64) -> Result<CType, AllocError> {
    Ok(CType::Array(Box::new(alloc, element)?, count))
}

fn declare(
    alloc: Global,
    all: &mut Declarations,
    text: &str,
    meaning: Meaning,
) -> Result<(), AllocError> {
    let name = name(alloc, text)?;
    all.declare(Declaration { name, meaning })
}

fn object(alloc: Global, all: &mut Declarations, text: &str, ty: CType) -> Result<(), AllocError> {
    declare(alloc, all, text, Meaning::Global(0, ty))
}

fn function(
    alloc: Global,
    all: &mut Declarations,
    text: &str,
    callee: Callee,
    gives: CType,
    parameters: Vec<CType>,
) -> Result<(), AllocError> {
    let function = DeclaredFunction {
        callee,
        result: gives,
        parameters,
    };
    declare(alloc, all, text, Meaning::Function(function))
}

// Declares `i`, `u`, `l`, `w`, `o`, `h`, `c`; `a`, `m`; `p`, `q`, `v`; `s`, `t`, `n`, `b`, `d`.
fn objects(alloc: Global, all: &mut Declarations) -> Result<(), AllocError> {
    for (text, ty) in INTEGERS {
        object(alloc, all, text, CType::Int(ty))?;
    }
    let row = array(alloc, CType::Int(IntType::Int), 3)?;
    object(alloc, all, "m", array(alloc, row, 2)?)?;
    object(alloc, all, "a", array(alloc, CType::Int(IntType::Int), 3)?)?;
    object(alloc, all, "p", pointer(alloc, CType::Int(IntType::Int))?)?;
    object(alloc, all, "q", pointer(alloc, CType::Int(IntType::Char))?)?;
    object(alloc, all, "v", pointer(alloc, CType::Void)?)?;
    object(alloc, all, "s", CType::Struct(0))?;
    object(alloc, all, "t", pointer(alloc, CType::Struct(0))?)?;
    object(alloc, all, "n", pointer(alloc, CType::Struct(1))?)?;
    object(alloc, all, "b", CType::Struct(2))?;
    object(alloc, all, "d", pointer(alloc, CType::Struct(2))?)
}

// Declares `f`, `g`, and the functions that are declared before each file.
fn functions(alloc: Global, model: DataModel, all: &mut Declarations) -> Result<(), AllocError> {
    let bytes = size_type(model);
    let int = CType::Int(IntType::Int);
    let one = vec![in alloc; CType::Int(IntType::Int)]?;
    function(alloc, all, "f", Callee::Numbered(0), int, one)?;
    let none = Vec::new(alloc);
    function(alloc, all, "g", Callee::Numbered(1), CType::Void, none)?;
    let one = vec![in alloc; CType::Int(bytes)]?;
    function(
        alloc,
        all,
        "malloc",
        Callee::Malloc,
        pointer(alloc, CType::Void)?,
        one,
    )?;
    let two = vec![in alloc; CType::Int(bytes), CType::Int(bytes)]?;
    function(
        alloc,
        all,
        "calloc",
        Callee::Calloc,
        pointer(alloc, CType::Void)?,
        two,
    )?;
    let one = vec![in alloc; pointer(alloc, CType::Void)?]?;
    function(alloc, all, "free", Callee::Free, CType::Void, one)
}

fn structure(
    alloc: Global,
    tag: &str,
    members: Option<Members>,
    size: u64,
) -> Result<StructType, AllocError> {
    Ok(StructType {
        tag: name(alloc, tag)?,
        members,
        size,
        align: 4,
    })
}

// `int a; char c;`
fn two_members(alloc: Global) -> Result<Members, AllocError> {
    let mut members = Members::new(alloc);
    members.push(Member::new(name(alloc, "a")?, CType::Int(IntType::Int), 0))?;
    members.push(Member::new(name(alloc, "c")?, CType::Int(IntType::Char), 4))?;
    Ok(members)
}

// `int a[5000];`
fn many_numbers(alloc: Global) -> Result<Members, AllocError> {
    let mut members = Members::new(alloc);
    let many = array(alloc, CType::Int(IntType::Int), 5000)?;
    members.push(Member::new(name(alloc, "a")?, many, 0))?;
    Ok(members)
}

// `struct S { int a; char c; }`, `struct N` without its members, and `struct B { int a[5000]; }`.
fn structs(alloc: Global) -> Result<Structs, AllocError> {
    let mut all = Structs::new(alloc);
    all.push(structure(alloc, "S", Some(two_members(alloc)?), 8)?)?;
    all.push(structure(alloc, "N", None, 0)?)?;
    all.push(structure(alloc, "B", Some(many_numbers(alloc)?), 20000)?)?;
    Ok(all)
}

fn tags(alloc: Global) -> Result<Tags, AllocError> {
    let mut all = Tags::new(alloc);
    for (text, meaning) in [
        ("S", TagMeaning::Struct(0)),
        ("N", TagMeaning::Struct(1)),
        ("B", TagMeaning::Struct(2)),
        ("E", TagMeaning::Enum),
    ] {
        let name = name(alloc, text)?;
        if all.meaning(&name).is_none() {
            all.add(Tag { name, meaning })?;
        }
    }
    Ok(all)
}

// Declares `T`, `K`, and the rest.
fn declare_all(alloc: Global, model: DataModel, all: &mut Declarations) -> Result<(), AllocError> {
    declare(alloc, all, "T", Meaning::Typedef(CType::Int(IntType::Int)))?;
    declare(alloc, all, "K", Meaning::Constant(5))?;
    objects(alloc, all)?;
    functions(alloc, model, all)
}

/// Returns the declarations, of which `T` is a typedef name and `K` a constant.
pub fn scene(alloc: Global, model: DataModel) -> Result<Context, AllocError> {
    let mut declarations = Declarations::new(alloc);
    declare_all(alloc, model, &mut declarations)?;
    let tags = tags(alloc)?;
    let list = structs(alloc)?;
    Ok(Context {
        model,
        table: StructTable { list },
        scope: Scope { declarations, tags },
    })
}
