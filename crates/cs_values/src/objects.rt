//! Objects, the contents of their scalars, and the values of expressions.
ghost use Rattle.std.specs.Prelude.{◌≡◌, IfOk, map};
ghost use Rattle.cs_events.specs.Objects.{same_object};
ghost use Rattle.cs_meaning.specs.Initials.{number_in, is_set, further};
ghost use Rattle.cs_meaning.specs.Operators.{is_pointer};
ghost use Rattle.cs_meaning.specs.Calls.{returned_of, returned_cell};
ghost use Rattle.cs_meaning.specs.Machine as machine;
ghost use Rattle.cs_values.specs.View.{object_of, cell_of, operand_of};

use cs_events::Returned;
use cs_inputs::Path;
use std::alloc::AllocError;
use std::cmp::Ordering;

/// An object of a run.
#[derive(Drop)]
pub enum Object {
    /// The start block of an unknown pointer, by the pointer's path.
    Start(Path),
    /// A file-scope object, by its number in the program.
    Global(u32),
    /// A string literal, by its number in the program.
    Literal(u32),
    /// A local, by the frame's number and the declaration's.
    Local(u64, u32),
    /// The block of an allocation, by the allocation's number in the run from 1.
    Heap(u64),
}

/// The contents of a scalar.
#[derive(Drop)]
pub enum Cell {
    Number(i128),
    Null,
    /// A pointer to an object at an offset in bytes.
    Pointer(Object, i128),
    /// Unset.
    Unset,
}

/// The value of an expression. An lvalue is represented by a pointer to it.
#[derive(Drop)]
pub enum Operand {
    Scalar(Cell),
    /// The scalars of a struct in order.
    Whole(Vec<Cell>),
    Nothing,
}

impl Object {
    /// Returns a copy of the object.
    pub fn copy(&self) -> Result<Object, AllocError>
        ensures { IfOk result (λ made. object_of made ≡ object_of self.now) }
    {
        match self {
            Object::Start(path) => Ok(Object::Start(path.copy()?)),
            Object::Global(global) => Ok(Object::Global(*global)),
            Object::Literal(literal) => Ok(Object::Literal(*literal)),
            Object::Local(frame, declaration) => Ok(Object::Local(*frame, *declaration)),
            Object::Heap(allocation) => Ok(Object::Heap(*allocation)),
        }
    }

    /// Whether two objects are the same.
    pub fn is_same(&self, other: &Object) -> bool
        ensures { result ≡ same_object (object_of self.now) (object_of other.now) }
    {
        match (self, other) {
            (Object::Start(one), Object::Start(other)) => one.order(other) == Ordering::Equal,
            (Object::Global(one), Object::Global(other)) => one == other,
            (Object::Literal(one), Object::Literal(other)) => one == other,
            (Object::Local(frame, one), Object::Local(other_frame, other)) => {
                frame == other_frame && one == other
            }
            (Object::Heap(one), Object::Heap(other)) => one == other,
            _ => false,
        }
    }
}

impl Cell {
    /// Returns a copy of the cell.
    pub fn copy(&self) -> Result<Cell, AllocError>
        ensures { IfOk result (λ made. cell_of made ≡ cell_of self.now) }
    {
        match self {
            Cell::Number(number) => Ok(Cell::Number(*number)),
            Cell::Null => Ok(Cell::Null),
            Cell::Pointer(object, offset) => Ok(Cell::Pointer(object.copy()?, *offset)),
            Cell::Unset => Ok(Cell::Unset),
        }
    }

    /// Returns the number of a cell; any other cell counts as 0.
    pub fn number(&self) -> i128
        ensures { result ≡ number_in (cell_of self.now) }
    {
        match self {
            Cell::Number(number) => *number,
            Cell::Null | Cell::Pointer(_, _) | Cell::Unset => 0,
        }
    }

    /// Whether it is a number other than 0 or a pointer other than null.
    pub fn is_set(&self) -> bool
        ensures { result ≡ is_set (cell_of self.now) }
    {
        match self {
            Cell::Number(number) => *number != 0,
            Cell::Pointer(_, _) => true,
            Cell::Null | Cell::Unset => false,
        }
    }

    /// Returns a pointer plus a number of bytes; null stays null.
    pub fn further(self, bytes: u64) -> Result<Cell, AllocError>
        ensures { IfOk result (λ made. cell_of made ≡ further (cell_of self) bytes) }
    {
        match self {
            Cell::Pointer(object, offset) => {
                let offset = offset.checked_add(i128::from(bytes)).ok_or(AllocError)?;
                Ok(Cell::Pointer(object, offset))
            }
            Cell::Number(number) => Ok(Cell::Number(number)),
            Cell::Null => Ok(Cell::Null),
            Cell::Unset => Ok(Cell::Unset),
        }
    }

    /// Whether it is a pointer, null or not.
    pub fn is_pointer(&self) -> bool
        ensures { result ≡ is_pointer (cell_of self.now) }
    {
        match self {
            Cell::Null | Cell::Pointer(_, _) => true,
            Cell::Number(_) | Cell::Unset => false,
        }
    }

    // Returns what an entry returned with this cell.
    fn returned(&self) -> Returned
        ensures { result ≡ returned_cell (cell_of self.now) }
    {
        match self {
            Cell::Number(number) => Returned::Number(*number),
            Cell::Null => Returned::Null,
            Cell::Pointer(_, _) => Returned::Object,
            Cell::Unset => Returned::Unset,
        }
    }
}

impl Clone for Cell {
    ghost is_clone = { λ cell made. cell_of made ≡ cell_of cell };

    fn clone(&self) -> Result<Cell, AllocError> {
        self.copy()
    }
}

impl Operand {
    /// Returns a copy of the value.
    pub fn copy(&self) -> Result<Operand, AllocError>
        ensures { IfOk result (λ made. operand_of made ≡ operand_of self.now) }
    {
        match self {
            Operand::Scalar(cell) => {
                let cell = cell.copy()?;
                Ok(Operand::Scalar(cell))
            }
            Operand::Whole(cells) => {
                let cells = copied(cells)?;
                Ok(Operand::Whole(cells))
            }
            Operand::Nothing => Ok(Operand::Nothing),
        }
    }

    /// Returns an operand as a scalar; any other counts as unset.
    pub fn into_cell(self) -> Cell
        ensures { cell_of result ≡ machine.cell_of (operand_of self) }
    {
        match self {
            Operand::Scalar(cell) => cell,
            Operand::Whole(_) | Operand::Nothing => Cell::Unset,
        }
    }

    /// Returns an operand as a number; any other counts as 0.
    pub fn number(&self) -> i128
        ensures { result ≡ number_in (machine.cell_of (operand_of self.now)) }
    {
        match self {
            Operand::Scalar(cell) => cell.number(),
            Operand::Whole(_) | Operand::Nothing => 0,
        }
    }

    /// Returns what an entry returned with this value.
    pub fn returned(&self) -> Returned
        ensures { result ≡ returned_of (operand_of self.now) }
    {
        match self {
            Operand::Scalar(cell) => cell.returned(),
            Operand::Whole(_) => Returned::Unset,
            Operand::Nothing => Returned::Nothing,
        }
    }
}

/// Drops an object that isn't needed any more, so that nothing else has to.
pub fn let_go_of_object(_object: Object) {}

/// The same for a cell.
pub fn let_go_of_cell(_cell: Cell) {}

/// The same for a value.
pub fn let_go_of_operand(_operand: Operand) {}

// Returns a copy of the scalars.
fn copied(cells: &Vec<Cell>) -> Result<Vec<Cell>, AllocError>
    ensures { IfOk result (λ made. map cell_of made.items ≡ map cell_of cells.now.items) }
{
    let mut made = Vec::new(*cells.allocator());
    for cell in cells {
        let cell = cell.copy()?;
        made.push(cell)?;
    }
    Ok(made)
}
