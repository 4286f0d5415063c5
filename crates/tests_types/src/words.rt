//! Types in C's notation.

use cs_types::{CType, IntType, StructTable};
use std::alloc::{AllocError, Global};
use std::str::from_utf8;

/// Returns the words of an integer type.
pub fn integer(ty: IntType) -> &'static str {
    match ty {
        IntType::Char => "char",
        IntType::SChar => "signed char",
        IntType::UChar => "unsigned char",
        IntType::Short => "short",
        IntType::UShort => "unsigned short",
        IntType::Int => "int",
        IntType::UInt => "unsigned int",
        IntType::Long => "long",
        IntType::ULong => "unsigned long",
        IntType::LLong => "long long",
        IntType::ULLong => "unsigned long long",
    }
}

// Returns a base type followed by a declarator.
fn spelled(alloc: Global, base: &str, declarator: &str) -> Result<String, AllocError> {
    if declarator.is_empty() {
        String::from_str(alloc, base)
    } else {
        format!(in alloc; "{base} {declarator}")
    }
}

/// Returns a type around a declarator without a name.
pub fn words(
    alloc: Global,
    table: &StructTable,
    ty: &CType,
    declarator: &str,
) -> Result<String, AllocError> {
    match ty {
        CType::Void => spelled(alloc, "void", declarator),
        CType::Int(ty) => spelled(alloc, integer(*ty), declarator),
        CType::Pointer(target) => {
            let inner = match &**target {
                CType::Array(_, _) => format!(in alloc; "(*{declarator})")?,
                _ => format!(in alloc; "*{declarator}")?,
            };
            words(alloc, table, target, inner.as_str())
        }
        CType::Array(element, count) => {
            let inner = format!(in alloc; "{declarator}[{count}]")?;
            words(alloc, table, element, inner.as_str())
        }
        CType::Struct(number) => {
            let Some(found) = table.list.as_slice().get(*number as usize) else {
                return String::from_str(alloc, "struct");
            };
            let tag = from_utf8(found.tag.as_bytes()).unwrap_or("?");
            let base = format!(in alloc; "struct {tag}")?;
            spelled(alloc, base.as_str(), declarator)
        }
    }
}
