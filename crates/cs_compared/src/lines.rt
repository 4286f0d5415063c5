//! Pairs of operands on one line. The products that decide it may take more than 128 bits, so they are split.
ghost use Rattle.std.specs.Prelude.{◌≡◌, ◌^◌, ◌≤◌, ℤ, pos, ◌*ℤ◌, ◌↔◌, IsTrue, int_le, int_lt, unsigned_abs};
ghost use Rattle.std.specs.Ordering.{int_eq};
ghost use Rattle.cs_results.specs.declared.run.Others.TheVariants.{Two};
ghost use Rattle.cs_findings.specs.Grounds as grounds;
ghost use Rattle.cs_compared.specs.Wide.{IsSmall, IsSplit};

/// A number, as a multiple of 2^32 (`high`) and a remainder below that (`low`).
#[derive(Clone, Copy)]
pub struct Wide {
    high: i128,
    low: i128,
}

/// Whether three pairs of operands don't lie on one line.
pub fn off_line(mine: (i128, i128), first: (i128, i128), second: (i128, i128)) -> bool
    requires mine { IsSmall mine }
    requires first { IsSmall first }
    requires second { IsSmall second }
    ensures { result ≡ grounds.off_line mine (Two first second) }
{
    let same = same_products(
        first.0 - mine.0,
        second.1 - mine.1,
        second.0 - mine.0,
        first.1 - mine.1,
    );
    !same
}

/// Whether the operands of an operation are small enough for their products to be computed.
pub fn is_small(pair: (i128, i128)) -> bool
    ensures { IsTrue result ↔ IsSmall pair }
{
    pair.0.unsigned_abs() <= 1 << 66 && pair.1.unsigned_abs() <= 1 << 87
}

// Whether the product of two numbers equals that of two others.
fn same_products(left: i128, right: i128, other_left: i128, other_right: i128) -> bool
    requires left { unsigned_abs left ≤ 2 ^ 67 }
    requires right { unsigned_abs right ≤ 2 ^ 88 }
    requires other_left { unsigned_abs other_left ≤ 2 ^ 67 }
    requires other_right { unsigned_abs other_right ≤ 2 ^ 88 }
    ensures { result ≡ int_eq (left *ℤ right) (other_left *ℤ other_right) }
{
    let this = product(left, right);
    let that = product(other_left, other_right);
    is_same(&this, &that)
}

/// Whether the product of two numbers is at most a bound.
pub fn product_at_most(left: i128, right: i128, bound: u64) -> bool
    requires left { unsigned_abs left ≤ 2 ^ 67 }
    requires right { unsigned_abs right ≤ 2 ^ 88 }
    ensures { result ≡ int_le (left *ℤ right) (pos bound) }
{
    let this = product(left, right);
    let that = split(i128::from(bound));
    is_at_most(&this, &that)
}

/// Whether the product of two numbers is greater than a bound.
pub fn product_above(left: i128, right: i128, bound: u64) -> bool
    requires left { unsigned_abs left ≤ 2 ^ 67 }
    requires right { unsigned_abs right ≤ 2 ^ 88 }
    ensures { result ≡ int_lt (pos bound) (left *ℤ right) }
{
    let this = product(left, right);
    let that = split(i128::from(bound));
    is_below(&that, &this)
}

// Whether a split number is at most another.
fn is_at_most(this: &Wide, that: &Wide) -> bool
    ensures { (one other : ℤ) → IsSplit this.now one → IsSplit that.now other
        → result ≡ int_le one other }
{
    this.high < that.high || (this.high == that.high && this.low <= that.low)
}

// Whether a split number is less than another.
fn is_below(this: &Wide, that: &Wide) -> bool
    ensures { (one other : ℤ) → IsSplit this.now one → IsSplit that.now other
        → result ≡ int_lt one other }
{
    this.high < that.high || (this.high == that.high && this.low < that.low)
}

// Whether two split numbers are equal.
fn is_same(this: &Wide, that: &Wide) -> bool
    ensures { (one other : ℤ) → IsSplit this.now one → IsSplit that.now other
        → result ≡ int_eq one other }
{
    this.high == that.high && this.low == that.low
}

// Returns a product of numbers so small that its parts don't overflow.
fn product(left: i128, right: i128) -> Wide
    requires left { unsigned_abs left ≤ 2 ^ 67 }
    requires right { unsigned_abs right ≤ 2 ^ 88 }
    ensures { IsSplit result (left *ℤ right) }
{
    let cut = split(left);
    let above = times(cut.high, right);
    let below = split(times(cut.low, right));
    Wide {
        high: above + below.high,
        low: below.low,
    }
}

// Returns a product that fits into 128 bits.
fn times(left: i128, right: i128) -> i128
    requires left { unsigned_abs left ≤ 2 ^ 36 }
    requires right { unsigned_abs right ≤ 2 ^ 88 }
    ensures value { result ≡ left *ℤ right }
    ensures small { unsigned_abs result ≤ 2 ^ 124 }
{
    left * right
}

// Splits a number at 2^32, rounding down.
fn split(number: i128) -> Wide
    ensures split { IsSplit result number }
    ensures small { unsigned_abs result.high ≤ 2 ^ 96 }
    ensures near { unsigned_abs number ≤ 2 ^ 67 → unsigned_abs result.high ≤ 2 ^ 36 }
{
    Wide {
        high: number.div_euclid(0x1_0000_0000),
        low: number.rem_euclid(0x1_0000_0000),
    }
}
