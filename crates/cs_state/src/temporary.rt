//! Temporaries: the results of evaluated expressions, which a frame keeps until they are used.
ghost use Rattle.std.specs.Prelude.{◌≡◌, ◌++◌, [], ◌∷◌, ℕ, List, take, None, Some, IfOk, OnOk, OnErr, MatchOption};
ghost use Rattle.std.specs.Option.{option_to_list};

use cs_store::Value;
use std::alloc::{AllocError, Global};
use std::marker::Model;
use std::rc::RcSlice;

/// The values of a struct's scalars, in order. Copies share them, and a contract sees a list.
#[derive(Drop)]
pub struct Scalars {
    values: RcSlice<Value>,
}

impl Model for Scalars {
    ghost use Rattle.std.specs.Prelude.{List};
    ghost use Rattle.std.specs.Rc.{rc_slice_items};
    ghost use Rattle.cs_store.specs.declared.value.Value.{Value as CellValue};

    ghost Value = { List CellValue };

    ghost view = { λ s. rc_slice_items s.values };
}

impl Scalars {
    /// Makes a struct of these values.
    pub fn of(values: Vec<Value>) -> Result<Scalars, AllocError>
        ensures { IfOk result (λ scalars. scalars ≡ values.items) }
    {
        Ok(Scalars {
            values: RcSlice::from_vec(values)?,
        })
    }

    /// Returns the values in order.
    pub fn as_slice(&self) -> &[Value]
        ensures { result.now ≡ self.now }
    {
        self.values.as_slice()
    }
}

impl Clone for Scalars {
    ghost is_clone = { λ scalars copy. copy ≡ scalars };

    fn clone(&self) -> Result<Scalars, AllocError> {
        Ok(Scalars {
            values: self.values.clone()?,
        })
    }
}

/// The result of an evaluated expression.
#[derive(Drop)]
pub enum Temporary {
    /// A scalar.
    Scalar(Value),
    /// The scalars of a struct.
    Whole(Scalars),
    /// Nothing, as for a call of a void function.
    Nothing,
}

impl Clone for Temporary {
    ghost is_clone = { λ temporary copy. copy ≡ temporary };

    fn clone(&self) -> Result<Temporary, AllocError> {
        match self {
            Temporary::Scalar(value) => Ok(Temporary::Scalar(*value)),
            Temporary::Whole(scalars) => Ok(Temporary::Whole(scalars.clone()?)),
            Temporary::Nothing => Ok(Temporary::Nothing),
        }
    }
}

/// The temporaries of a frame, in order of number: the newest is the last. A contract sees a list.
#[derive(Drop)]
pub struct Temporaries {
    list: Vec<Temporary>,
}

impl Model for Temporaries {
    ghost use Rattle.std.specs.Prelude.{List};
    ghost use Rattle.cs_state.specs.declared.temporary.Temporary.{Temporary};

    ghost Value = { List Temporary };

    ghost view = { λ t. t.list.items };
}

impl Temporaries {
    /// Returns an empty list.
    pub fn new(alloc: Global) -> Temporaries
        ensures { result ≡ [] }
    {
        Temporaries {
            list: Vec::new(alloc),
        }
    }

    /// Returns the temporaries in order of number.
    pub fn as_slice(&self) -> &[Temporary]
        ensures { result.now ≡ self.now }
    {
        self.list.as_slice()
    }

    /// Appends a temporary, which gets the next number.
    pub fn push(&mut self, temporary: Temporary) -> Result<(), AllocError>
        ensures ok { OnOk result (self.new ≡ self.old ++ temporary ∷ []) }
        ensures err { OnErr result (self.new ≡ self.old) }
    {
        self.list.push(temporary)?;
        Ok(())
    }

    /// Removes and returns the newest temporary, if there is one.
    pub fn pop(&mut self) -> Option<Temporary>
        ensures taken { self.old ≡ self.new ++ option_to_list result }
        ensures none { result ≡ None → self.old ≡ [] }
    {
        self.list.pop()
    }

    /// Drops the temporaries with this number or a greater one.
    pub fn cut(&mut self, number: usize)
        ensures { self.new ≡ take number self.old }
    {
        self.list.truncate(number);
    }
}

impl Clone for Temporaries {
    ghost is_clone = { λ temporaries copy. copy ≡ temporaries };

    fn clone(&self) -> Result<Temporaries, AllocError> {
        // Most copies get one more.
        let room = self.list.len().saturating_add(1);
        let mut list = Vec::with_capacity(*self.list.allocator(), room)?;
        list.extend_with_clones(self.list.as_slice())?;
        Ok(Temporaries { list })
    }
}
