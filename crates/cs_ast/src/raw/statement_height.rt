//! The height of written statements: a statement of one token is a leaf, and the items between the braces of a `switch`
//! form a node of their own.
ghost use Rattle.std.specs.Prelude.{◌≡◌, ◌<◌, ◌^◌};
ghost use Rattle.cs_ast.specs.RawStatementView.{first_of, statement_of, item, items_list, switch_item, switch_list};
ghost use Rattle.cs_ast.specs.RawFileHeight as file;

use crate::raw::declaration_height::declaration_height;
use crate::raw::height::height_of_some;
use crate::raw::statement::{RawFirst, RawItem, RawStmt, RawStmtKind, RawSwitchItem};

impl RawFirst {
    /// Returns the height of the first part of a `for`, 0 if it is absent.
    pub fn height(&self) -> u32
        requires { file.first_height (first_of self.now) < 2 ^ 32 }
        ensures { result ≡ file.first_height (first_of self.now) }
    {
        match self {
            RawFirst::Empty => 0,
            RawFirst::Run(expression) => expression.height(),
            RawFirst::Declare(specs, objects) => declaration_height(specs, objects),
        }
    }
}

impl RawStmt {
    /// Returns the height of the statement.
    #[cycle(statement_height)]
    pub fn height(&self) -> u32
        requires { file.sentence_height (statement_of self.now) < 2 ^ 32 }
        ensures { result ≡ file.sentence_height (statement_of self.now) }
    {
        match &*self.kind {
            RawStmtKind::Block(items) => 1 + highest_item(items),
            RawStmtKind::Empty
            | RawStmtKind::Goto(_)
            | RawStmtKind::Continue
            | RawStmtKind::Break => 1,
            RawStmtKind::Run(expression) => 1 + expression.height(),
            RawStmtKind::If(test, body) => 1 + test.height().max(body.height()),
            RawStmtKind::IfElse(test, body, other) => 1
                + test.height().max(body.height().max(other.height())),
            RawStmtKind::While(test, body) => 1 + test.height().max(body.height()),
            RawStmtKind::Do(body, test) => 1 + body.height().max(test.height()),
            RawStmtKind::For(first, test, last, body) => 1
                + first.height().max(height_of_some(test).max(height_of_some(last).max(
                    body.height(),
                ))),
            RawStmtKind::Switch(value, items) => 1
                + value.height().max(1 + highest_switch_item(items)),
            RawStmtKind::Return(value) => 1 + height_of_some(value),
            RawStmtKind::Label(_, body) => 1 + body.height(),
        }
    }
}

impl RawItem {
    /// Returns the height of the item of a block.
    #[cycle(statement_height)]
    pub fn height(&self) -> u32
        requires { file.item_height (item self.now) < 2 ^ 32 }
        ensures { result ≡ file.item_height (item self.now) }
    {
        match self {
            RawItem::Declare(specs, objects) => declaration_height(specs, objects),
            RawItem::Run(statement) => statement.height(),
        }
    }
}

/// Returns the height of the highest item of a block, 0 if there is none.
#[cycle(statement_height)]
pub fn highest_item(items: &[RawItem]) -> u32
    requires { file.items_height (items_list items.now) < 2 ^ 32 }
    ensures { result ≡ file.items_height (items_list items.now) }
{
    let mut best = 0;
    for item in items {
        best = best.max(item.height());
    }
    best
}

impl RawSwitchItem {
    /// Returns the height of the item of a `switch`: `default` has height 0.
    #[cycle(statement_height)]
    pub fn height(&self) -> u32
        requires { file.switch_item_height (switch_item self.now) < 2 ^ 32 }
        ensures { result ≡ file.switch_item_height (switch_item self.now) }
    {
        match self {
            RawSwitchItem::Case(_, value) => value.height(),
            RawSwitchItem::Default(_) => 0,
            RawSwitchItem::Item(item) => item.height(),
        }
    }
}

/// Returns the height of the highest item of a `switch`, 0 if there is none.
#[cycle(statement_height)]
fn highest_switch_item(items: &[RawSwitchItem]) -> u32
    requires { file.switch_height (switch_list items.now) < 2 ^ 32 }
    ensures { result ≡ file.switch_height (switch_list items.now) }
{
    let mut best = 0;
    for item in items {
        best = best.max(item.height());
    }
    best
}
