//! The answers of checkers.
ghost use Rattle.std.specs.Prelude.{◌≡◌, Some, true, false};
ghost use Rattle.cs_ranges.specs.RangeSet.{contains};
ghost use Rattle.cs_terms.specs.Term.{Valuation, value_of, value_of_sum};
ghost use Rattle.cs_checker.specs.declared.subject.Subject.{Subject};
ghost use Rattle.cs_checker.specs.Answers.{constant, with_zero, own_term, some_holds, HasTermsFor, IsTermFor};

use cs_ranges::Interval;
use cs_terms::{Lin, Lin2};

/// A condition. It holds if the term's value is in one of the two intervals.
#[derive(Clone, Copy, PartialEq, Eq, Debug)]
pub struct Cond {
    pub term: Lin2,
    pub bad: [Interval; 2],
}

/// The conditions of a fault, which occurs if one of them holds.
#[derive(Clone, Copy, PartialEq, Eq, Debug)]
pub struct Answer {
    pub conds: [Option<Cond>; 2],
}

/// An interval without numbers.
pub const NO_NUMBER: Interval = Interval { low: 1, high: 0 };

impl Answer {
    /// Returns no condition: the fault never occurs.
    #[tactic(auto, unfolding(crate::specs::Answers::some_holds, crate::specs::Answers::HasTermsFor))]
    pub fn never() -> Answer
        ensures faults { (numbers : Valuation) → some_holds result.conds numbers ≡ false }
        ensures terms { (subject : Subject) → HasTermsFor subject result.conds }
    {
        Answer {
            conds: [None, None],
        }
    }

    /// Whether there is no condition.
    #[tactic(auto, unfolding(crate::specs::Answers::some_holds))]
    pub fn is_never(&self) -> bool
        ensures { result ≡ true → (numbers : Valuation)
            → some_holds self.now.conds numbers ≡ false }
    {
        let [first, second] = &self.conds;
        first.is_none() && second.is_none()
    }

    /// Returns that the fault always or never occurs. Not inlined, since an answer is large: for an operation
    /// of another kind, a checker writes no condition.
    #[inline(never)]
    #[tactic(auto, unfolding(cs_ranges::specs::RangeSet::contains, cs_ranges::specs::Interval::in_interval))]
    pub fn of_test(fault: bool) -> Answer
        ensures faults { (numbers : Valuation) → some_holds result.conds numbers ≡ fault }
        ensures terms { (subject : Subject) → HasTermsFor subject result.conds }
    {
        if !fault {
            return Answer::never();
        }
        let term = Lin2 {
            first: number(1),
            second: number(0),
        };
        let one = Interval { low: 1, high: 1 };
        Answer::of_sum(term, [one, NO_NUMBER])
    }

    /// Returns that the fault occurs if the term has a value in one of the intervals.
    pub fn of_term(term: Lin, bad: [Interval; 2]) -> Answer
        ensures faults { (numbers : Valuation)
            → some_holds result.conds numbers ≡ contains bad (value_of numbers term) }
        ensures terms { (subject : Subject) → own_term subject ≡ Some (with_zero term)
            → HasTermsFor subject result.conds }
    {
        let term = Lin2 {
            first: term,
            second: number(0),
        };
        Answer::of_sum(term, bad)
    }

    /// Returns that the fault occurs if the sum has a value in one of the intervals.
    #[inline(never)]
    #[tactic(auto, unfolding(crate::specs::Answers::some_holds, crate::specs::Answers::HasTermsFor))]
    pub fn of_sum(term: Lin2, bad: [Interval; 2]) -> Answer
        ensures faults { (numbers : Valuation)
            → some_holds result.conds numbers ≡ contains bad (value_of_sum numbers term) }
        ensures terms { (subject : Subject) → IsTermFor subject term
            → HasTermsFor subject result.conds }
    {
        Answer {
            conds: [Some(Cond { term, bad }), None],
        }
    }
}

fn number(value: i128) -> Lin
    ensures { result ≡ constant value }
{
    Lin {
        sym: None,
        slope: 0,
        at: 0,
        value,
    }
}
