//! Control points: the points of a function that a run's trace lists.

/// The kinds of control points, in the order in which those at one source position are listed.
#[derive(Clone, Copy, PartialEq, Eq, PartialOrd, Ord, Debug)]
pub enum PointKind {
    /// The beginning of a function's body, at the function's name.
    Enter,
    /// The head of a loop, at the loop's keyword.
    Head,
    /// A label, at its name.
    Label,
    /// A test, at its keyword or operator.
    Branch,
    /// A `switch`, at its keyword.
    Switch,
    /// A `return`, at its keyword.
    Return,
    /// The end of a function's body, at its closing brace.
    End,
}
