//! Conditions on a term, with their intervals of bad numbers.
use cs_checker::{Answer, NO_NUMBER};
use cs_ranges::Interval;
use cs_terms::{Lin, Sym};

#[test]
fn a_condition_keeps_its_term_and_its_intervals(rt: HostRuntime) {
    let term = Lin {
        sym: Some(Sym(3)),
        slope: 2,
        at: 0,
        value: 1,
    };
    let bad = [Interval { low: 0, high: 7 }, NO_NUMBER];
    let [first, second] = Answer::of_term(term, bad).conds;
    assert!(rt; first.is_some_and(|cond| cond.term.first == term && cond.bad == bad));
    assert!(rt; second.is_none());
}
