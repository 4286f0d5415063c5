//! The kinds of faults, in the one table from which everything else about kinds is derived.
ghost use Rattle.std.specs.Prelude.{◌≡◌, codes};
ghost use Rattle.cs_model.specs.Kinds.{kind_name, kind_number};

/// A kind of fault. In C11 each is undefined behavior, listed in annex J.2.
#[derive(Clone, Copy, PartialEq, Eq, Debug)]
pub enum Kind {
    /// An access through a null pointer.
    Null,
    /// A division or a remainder by zero (C11 6.5.5, paragraph 5).
    Divide,
    /// The use of an unset value.
    Unset,
    /// An access outside its object, or a pointer that leaves the range of offsets.
    Bounds,
    /// `free` of a freed block.
    DoubleFree,
    /// An access to a freed block.
    Freed,
    /// `free` of a pointer that isn't the beginning of a block that can be freed.
    BadFree,
    /// An access to a local of a frame that has ended.
    DeadLocal,
    /// A shift by a negative count, or by one not less than the width.
    Shift,
    /// An order or a difference of pointers into different objects.
    Unrelated,
    /// A store to a constant object or to a string literal.
    ConstWrite,
}

impl Kind {
    /// Returns the word for this kind in reports and on the command line.
    pub fn name(self) -> &'static str
        ensures { result.now ≡ kind_name self }
    {
        match self {
            Kind::Null => "null",
            Kind::Divide => "divide",
            Kind::Unset => "unset",
            Kind::Bounds => "bounds",
            Kind::DoubleFree => "double-free",
            Kind::Freed => "freed",
            Kind::BadFree => "bad-free",
            Kind::DeadLocal => "dead-local",
            Kind::Shift => "shift",
            Kind::Unrelated => "unrelated",
            Kind::ConstWrite => "const-write",
        }
    }

    /// Returns the number used to order kinds, from 1.
    pub fn number(self) -> u8
        ensures { result ≡ kind_number self }
    {
        match self {
            Kind::Null => 1,
            Kind::Divide => 2,
            Kind::Unset => 3,
            Kind::Bounds => 4,
            Kind::DoubleFree => 5,
            Kind::Freed => 6,
            Kind::BadFree => 7,
            Kind::DeadLocal => 8,
            Kind::Shift => 9,
            Kind::Unrelated => 10,
            Kind::ConstWrite => 11,
        }
    }
}
