//! The number with which a run continues after an event.
ghost use Rattle.std.specs.Prelude.{◌≡◌};
ghost use Rattle.cs_explored.specs.Answering.{constant, leads_on};

use cs_events::Label;
use cs_terms::Lin;

/// Returns the number with which a run continues after an event: for an allocation, 1 if it returns a block and 0 if not; else the answer.
pub fn leads_on(label: Label, answer: Lin) -> Lin
    ensures { result ≡ leads_on label answer }
{
    match label {
        Label::Alloc(gives) => constant(if gives { 1 } else { 0 }),
        _ => answer,
    }
}

/// Returns the constant term with this value.
pub fn constant(value: i128) -> Lin
    ensures { result ≡ constant value }
{
    Lin {
        sym: None,
        slope: 0,
        at: 0,
        value,
    }
}
