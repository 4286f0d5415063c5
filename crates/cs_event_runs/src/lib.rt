//! Runs followed event by event: the first event in the rest of a step, the next event of a run, and runs as lists of events.
//!
//! A step of a machine is an act, which may pass several events. An exploration stops between any two of them, so it needs the rest of an
//! act after the events so far. `specs/` has the definitions, `proofs/` the laws that relate them to `perform`, to the ends
//! of runs and to what is pending, for every machine whose steps are acts.
#![tactic(auto)]
