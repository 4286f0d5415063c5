//! Equal events and positions.
ghost use Rattle.std.specs.Prelude.{◌≡◌, ◌↔◌, IsTrue};

use cs_ast::Place;
use cs_events::{Event, Label};

/// Whether two events are equal.
pub fn same_event(one: &Event, other: &Event) -> bool
    ensures { IsTrue result ↔ (one.now ≡ other.now) }
{
    same_place(one.place, other.place) && same_label(one.label, other.label)
}

/// Whether two positions are equal.
pub fn same_place(one: Place, other: Place) -> bool
    ensures { IsTrue result ↔ (one ≡ other) }
{
    one.column == other.column && one.line == other.line && one.file == other.file
}

fn same_label(one: Label, other: Label) -> bool
    ensures { IsTrue result ↔ (one ≡ other) }
{
    match (one, other) {
        (Label::Truth(this), Label::Truth(that)) => this == that,
        (Label::Branch(this), Label::Branch(that)) => this == that,
        (Label::Case(this), Label::Case(that)) => this == that,
        (Label::Wrap(this), Label::Wrap(that)) => this == that,
        (Label::Look(this), Label::Look(that)) => this == that,
        (Label::Offset(this), Label::Offset(that)) => this == that,
        (Label::Callee(this), Label::Callee(that)) => this == that,
        (Label::Alloc(this), Label::Alloc(that)) => this == that,
        _ => false,
    }
}
