//! The protocols that an exploration watches.
ghost use Rattle.std.specs.Prelude.{◌≡◌, true};
ghost use Rattle.cs_explored.specs.Watching.{IsFor, IsPhaseAfter};

use cs_ast::Place;
use cs_events::{Event, Label};

/// A rule of a protocol: a call of this function at this place leads from one phase to another.
#[derive(Clone, Copy)]
pub struct Rule {
    pub function: u32,
    pub place: Place,
    pub from: u32,
    pub to: u32,
}

/// Returns the phase after an event: for a call, that of the first rule for it; everything else keeps the phase.
pub fn phase_after(rules: &[Rule], phase: u32, event: &Event) -> u32
    ensures { IsPhaseAfter rules.now phase event.now result }
{
    let Label::Callee(function) = event.label else {
        return phase;
    };
    for rule in rules {
        if is_for(rule, function, event.place, phase) {
            return rule.to;
        }
    }
    phase
}

// Whether a rule is for a call of this function at this place, in this phase.
fn is_for(rule: &Rule, function: u32, place: Place, phase: u32) -> bool
    ensures yes { result ≡ true
        → IsFor (record { function = function; place = place; phase = phase }) rule.now }
    ensures no { IsFor (record { function = function; place = place; phase = phase }) rule.now
        → result ≡ true }
{
    rule.function == function && rule.place == place && rule.from == phase
}
