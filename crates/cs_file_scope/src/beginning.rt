//! Files before their parts are read: the functions of the library (C11 7.22.3), the order of the file's functions, and its tags.
ghost use Rattle.std.specs.Prelude.{◌≡◌, ◌++◌, [], ◌∷◌, map, IfOk, OnOk};
ghost use Rattle.cs_types.specs.Shape.{shape_of, void, integer, pointer};
ghost use Rattle.cs_types.specs.DataModel.{size_type_of};
ghost use Rattle.cs_types.specs.declared.ctype.CType.{CType as CTypeOf};
ghost use Rattle.cs_file_scope.specs.Beginning.{library_function, allocators, beginning, begun};
ghost use Rattle.cs_file_scope.specs.View.{filed_of};

use crate::filed::Filed;
use crate::order::{blanks, order_of};
use crate::tags::declare_tags;
use cs_ast::Token;
use cs_ast::raw::external::RawExternal;
use cs_declarations::Environment;
use cs_names::Name;
use cs_scopes::{
    Callee, Context, Declaration, Declarations, DeclaredFunction, Meaning, Scope, Tags,
};
use cs_types::{CType, DataModel, StructTable, Structs, size_type};
use indexmap::IndexSet;
use std::alloc::{AllocError, Global};

// Declares a function of the library with these parameters.
fn declare_library_function(
    alloc: Global,
    declarations: &mut Declarations,
    name: &[u8],
    callee: Callee,
    result_type: CType,
    parameters: Vec<CType>,
) -> Result<(), AllocError>
    ensures { OnOk result (declarations.new
        ≡ declarations.old ++ library_function name.now callee (shape_of result_type)
        (map (λ (ty : CTypeOf). shape_of ty) parameters.items) ∷ []) }
{
    declarations.declare(Declaration {
        name: Name::from_slice(alloc, name)?,
        meaning: Meaning::Function(DeclaredFunction {
            callee,
            result: result_type,
            parameters,
        }),
    })
}

// `void *`
fn void_pointer(alloc: Global) -> Result<CType, AllocError>
    ensures { IfOk result (λ ty. shape_of ty ≡ pointer void) }
{
    Ok(CType::Pointer(Box::new(alloc, CType::Void)?))
}

// The parameters of `malloc`.
fn one_size(alloc: Global, model: DataModel) -> Result<Vec<CType>, AllocError>
    ensures { IfOk result (λ types.
        map (λ (ty : CTypeOf). shape_of ty) types.items ≡ integer (size_type_of model) ∷ []) }
{
    let mut types = Vec::new(alloc);
    types.push(CType::Int(size_type(model)))?;
    Ok(types)
}

// The functions that are declared before a file (C11 7.22.3).
fn allocators(alloc: Global, model: DataModel) -> Result<Declarations, AllocError>
    ensures { IfOk result (λ declared. declared ≡ allocators model) }
{
    let mut all = Declarations::new(alloc);
    let block = void_pointer(alloc)?;
    let sizes = one_size(alloc, model)?;
    declare_library_function(alloc, &mut all, b"malloc", Callee::Malloc, block, sizes)?;
    let block = void_pointer(alloc)?;
    let mut sizes = one_size(alloc, model)?;
    sizes.push(CType::Int(size_type(model)))?;
    declare_library_function(alloc, &mut all, b"calloc", Callee::Calloc, block, sizes)?;
    let mut blocks = Vec::new(alloc);
    blocks.push(void_pointer(alloc)?)?;
    declare_library_function(alloc, &mut all, b"free", Callee::Free, CType::Void, blocks)?;
    Ok(all)
}

// A file of which no part was read yet, with its functions in this order.
fn beginning(alloc: Global, model: DataModel, order: IndexSet<Name>) -> Result<Filed, AllocError>
    ensures { IfOk result (λ filed. filed_of filed ≡ beginning model order.keys) }
{
    let scope = Scope {
        declarations: allocators(alloc, model)?,
        tags: Tags::new(alloc),
    };
    let table = StructTable {
        list: Structs::new(alloc),
    };
    Ok(Filed {
        known: Environment {
            context: Context {
                model,
                table,
                scope,
            },
            reading: Vec::new(alloc),
            outer: 0,
            literals: Vec::new(alloc),
        },
        globals: Vec::new(alloc),
        functions: blanks(alloc, order.as_slice())?,
        order,
    })
}

/// Returns a file with these tokens before its parts are read: its functions are numbered, and the tags of its structs are known.
pub fn begun(
    alloc: Global,
    model: DataModel,
    tokens: &[Token],
    file: &[RawExternal],
) -> Result<Filed, AllocError>
    ensures { IfOk result (λ filed. filed_of filed ≡ begun model tokens.now file.now) }
{
    let mut filed = beginning(alloc, model, order_of(alloc, file)?)?;
    declare_tags(alloc, &mut filed.known, tokens)?;
    Ok(filed)
}
