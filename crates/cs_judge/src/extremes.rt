//! The least and the greatest operands of two or three runs.
ghost use Rattle.std.specs.Prelude.{◌≡◌, ℕ, ◌≤◌, ◌^◌, unsigned_abs};
ghost use Rattle.cs_findings.specs.Grounds as grounds;
ghost use Rattle.cs_compared.specs.Wide.{IsSmall, AreSmall};

use cs_findings::Others;

/// Whether left minus right differs between two of the runs, from at most 0 to at least 0.
pub fn meets_zero(mine: (i128, i128), others: Others<(i128, i128)>) -> bool
    requires mine { IsSmall mine }
    requires others { AreSmall others }
    ensures { result ≡ grounds.meets_zero mine others }
{
    let low = least_gap(mine, others);
    let high = greatest_gap(mine, others);
    low <= 0 && 0 <= high && low < high
}

fn least_gap(mine: (i128, i128), others: Others<(i128, i128)>) -> i128
    requires mine { IsSmall mine }
    requires others { AreSmall others }
    ensures { result ≡ grounds.least grounds.gap mine others }
{
    match others {
        Others::One(first) => lesser(gap(mine), gap(first)),
        Others::Two(first, second) => lesser(gap(mine), lesser(gap(first), gap(second))),
    }
}

fn greatest_gap(mine: (i128, i128), others: Others<(i128, i128)>) -> i128
    requires mine { IsSmall mine }
    requires others { AreSmall others }
    ensures { result ≡ grounds.greatest grounds.gap mine others }
{
    match others {
        Others::One(first) => greater(gap(mine), gap(first)),
        Others::Two(first, second) => greater(gap(mine), greater(gap(first), gap(second))),
    }
}

fn gap(pair: (i128, i128)) -> i128
    requires { IsSmall pair }
    ensures { result ≡ grounds.gap pair }
{
    pair.0 - pair.1
}

/// Returns the least left operand.
pub fn least_left(mine: (i128, i128), others: Others<(i128, i128)>) -> i128
    requires mine { IsSmall mine }
    requires others { AreSmall others }
    ensures value { result ≡ grounds.least (λ pair. pair.0) mine others }
    ensures small { unsigned_abs result ≤ 2 ^ 66 }
{
    match others {
        Others::One(first) => lesser(mine.0, first.0),
        Others::Two(first, second) => lesser(mine.0, lesser(first.0, second.0)),
    }
}

/// Returns the least right operand.
pub fn least_right(mine: (i128, i128), others: Others<(i128, i128)>) -> i128
    requires mine { IsSmall mine }
    requires others { AreSmall others }
    ensures value { result ≡ grounds.least (λ pair. pair.1) mine others }
    ensures small { unsigned_abs result ≤ 2 ^ 87 }
{
    match others {
        Others::One(first) => lesser(mine.1, first.1),
        Others::Two(first, second) => lesser(mine.1, lesser(first.1, second.1)),
    }
}

/// Returns the greatest left operand.
pub fn greatest_left(mine: (i128, i128), others: Others<(i128, i128)>) -> i128
    requires mine { IsSmall mine }
    requires others { AreSmall others }
    ensures value { result ≡ grounds.greatest (λ pair. pair.0) mine others }
    ensures small { unsigned_abs result ≤ 2 ^ 66 }
{
    match others {
        Others::One(first) => greater(mine.0, first.0),
        Others::Two(first, second) => greater(mine.0, greater(first.0, second.0)),
    }
}

/// Returns the greatest right operand.
pub fn greatest_right(mine: (i128, i128), others: Others<(i128, i128)>) -> i128
    requires mine { IsSmall mine }
    requires others { AreSmall others }
    ensures value { result ≡ grounds.greatest (λ pair. pair.1) mine others }
    ensures small { unsigned_abs result ≤ 2 ^ 87 }
{
    match others {
        Others::One(first) => greater(mine.1, first.1),
        Others::Two(first, second) => greater(mine.1, greater(first.1, second.1)),
    }
}

fn lesser(one: i128, other: i128) -> i128
    ensures value { result ≡ grounds.lesser one other }
    ensures bounded { (n : ℕ) → unsigned_abs one ≤ n → unsigned_abs other ≤ n
        → unsigned_abs result ≤ n }
{
    if one <= other { one } else { other }
}

fn greater(one: i128, other: i128) -> i128
    ensures value { result ≡ grounds.greater one other }
    ensures bounded { (n : ℕ) → unsigned_abs one ≤ n → unsigned_abs other ≤ n
        → unsigned_abs result ≤ n }
{
    if one <= other { other } else { one }
}
