//! The scalars of nested structs, at the offsets that gcc gives them.
ghost use Rattle.std.specs.Prelude.{◌≡◌, ◌∷◌, [], IfOk, Some};
ghost use Rattle.cs_types.specs.Shape.{array, struct, shape_of};
ghost use Rattle.cs_types.specs.Layout.{Fits};
ghost use Rattle.cs_types.specs.declared.data_model.DataModel.TheVariants.{Lp64, Ilp32};

use cs_names::Name;
use cs_types::DataModel::{Ilp32, Lp64};
use cs_types::IntType::{Char, Int, LLong, UChar};
use cs_types::{CType, Member, Members, StructTable, StructType, Structs, align, leaf_at, size};
use std::alloc::{AllocError, Global};
use std::test::Fail;

// Returns a struct with two members, of which the first begins at 0.
fn struct_of(
    alloc: Global,
    size: u64,
    align: u64,
    first: CType,
    second: CType,
    offset: u64,
) -> Result<StructType, AllocError>
    ensures { IfOk result (λ made.
        made ≡ record {
          tag = [];
          members =
              Some (record {
                name = [];
                ty = shape_of first;
                offset = 0;
              } ∷ record { name = []; ty = shape_of second; offset = offset } ∷ []);
          size = size;
          align = align;
        }) }
{
    let mut members = Members::new(alloc);
    members.push(member_of(alloc, first, 0)?)?;
    members.push(member_of(alloc, second, offset)?)?;
    Ok(StructType {
        tag: Name::from_slice(alloc, b"")?,
        members: Some(members),
        size,
        align,
    })
}

fn member_of(alloc: Global, ty: CType, offset: u64) -> Result<Member, AllocError>
    ensures { IfOk result (λ made.
        made ≡ record { name = []; ty = shape_of ty; offset = offset }) }
{
    Ok(Member::new(Name::from_slice(alloc, b"")?, ty, offset))
}

// Returns structs laid out as by gcc under -m64 and under -m32 -malign-double: `{ int i; char c; }`, `{ char c; long long w; }`,
// `{ struct 0 t[3]; unsigned char end; }` and `{ struct 2 r; struct 1 w; }`.
fn nested_structs(alloc: Global) -> Result<StructTable, AllocError>
    ensures lp64 { IfOk result (λ table. Fits Lp64 table.list (array (struct 3) 1000)) }
    ensures ilp32 { IfOk result (λ table. Fits Ilp32 table.list (array (struct 3) 1000)) }
{
    let mut list = Structs::new(alloc);
    list.push(struct_of(alloc, 8, 4, CType::Int(Int), CType::Int(Char), 4)?)?;
    list.push(struct_of(alloc, 16, 8, CType::Int(Char), CType::Int(LLong), 8)?)?;
    let rows = CType::Array(Box::new(alloc, CType::Struct(0))?, 3);
    list.push(struct_of(alloc, 28, 4, rows, CType::Int(UChar), 24)?)?;
    list.push(struct_of(alloc, 48, 8, CType::Struct(2), CType::Struct(1), 32)?)?;
    Ok(StructTable { list })
}

#[test]
fn finds_scalars_where_gcc_has_them(rt: HostRuntime) -> Result<(), Fail> {
    let table = nested_structs(rt.alloc())?;
    let ty = CType::Array(Box::new(rt.alloc(), CType::Struct(3))?, 1000);
    assert_eq!(rt; size(Lp64, &table, &ty), Some(48_000));
    assert_eq!(rt; size(Ilp32, &table, &ty), Some(48_000));
    assert_eq!(rt; align(Lp64, &table, &ty), Some(8));
    assert_eq!(rt; align(Ilp32, &table, &ty), Some(8));
    for (offset, scalar) in [
        (0, Some(Int)),
        (1, None),
        (4, Some(Char)),
        (5, None),
        (16, Some(Int)),
        (24, Some(UChar)),
        (25, None),
        (32, Some(Char)),
        (36, None),
        (40, Some(LLong)),
        (44, None),
        (48, Some(Int)),
        (47_992, Some(LLong)),
        (48_000, None),
    ] {
        for model in [Lp64, Ilp32] {
            match leaf_at(model, &table, &ty, offset) {
                Some(CType::Int(found)) => assert_eq!(rt; Some(*found), scalar, "{offset}"),
                Some(_) => assert!(rt; false, "{offset}"),
                None => assert_eq!(rt; None, scalar, "{offset}"),
            }
        }
    }
    Ok(())
}
