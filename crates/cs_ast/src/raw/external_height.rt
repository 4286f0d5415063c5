//! The height of an external declaration.
ghost use Rattle.std.specs.Prelude.{◌≡◌, ◌<◌, ◌^◌};
ghost use Rattle.cs_ast.specs.RawStatementView.{external};
ghost use Rattle.cs_ast.specs.RawFileHeight as file;

use crate::raw::declaration_height::{declaration_height, highest_declarator};
use crate::raw::external::{RawExternal, RawExternalKind};
use crate::raw::statement_height::highest_item;

impl RawExternal {
    /// Returns the height of the tree of an external declaration: a leaf has height 1, and any other node one more than
    /// its highest child. The call allocates nothing; its recursion is as deep as the tree is high.
    pub fn height(&self) -> u32
        requires { file.external_height (external self.now) < 2 ^ 32 }
        ensures { result ≡ file.external_height (external self.now) }
    {
        match &self.kind {
            RawExternalKind::Type(specs) => 1 + specs.height(),
            RawExternalKind::Typedef(specs, names) => 1
                + specs.height().max(highest_declarator(names)),
            RawExternalKind::Objects(specs, objects) => declaration_height(specs, objects),
            RawExternalKind::Function(specs, function) => 1 + specs.height().max(function.height()),
            RawExternalKind::Definition(specs, function, body) => 1
                + specs
                    .height()
                    .max(function.height().max(1 + highest_item(&body.items))),
        }
    }
}
