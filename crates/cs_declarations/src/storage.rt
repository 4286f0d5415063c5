//! The storage duration of an object, and which initial values it permits.
ghost use Rattle.std.specs.Prelude.{◌≡◌};
ghost use Rattle.cs_ast.specs.TypedView.{typed};
ghost use Rattle.cs_declarations.specs.Initializers.{is_admitted};
ghost use Rattle.cs_declarations.specs.View as view;

use cs_ast::typed::expression::Expr;
use cs_folding::{is_address, is_number};
use cs_types::DataModel;

/// A file-scope object is initialized with constants; a local one with the values of its expressions.
#[derive(Clone, Copy, Debug, PartialEq, Eq)]
pub enum Storage {
    File,
    Function,
}

/// Whether the value may initialize an object of this storage (C11 6.7.9, paragraph 4).
pub fn is_admitted(model: DataModel, storage: Storage, value: &Expr) -> bool
    ensures { result ≡ is_admitted model (view.storage storage) (typed value.now) }
{
    match storage {
        Storage::Function => true,
        Storage::File => is_number(model, value) || is_address(model, value),
    }
}
