//! What the code touches at a spot: the control point that the run reaches there, or the scalar local that it loads, stores or clears.
ghost use Rattle.std.specs.Prelude.{◌≡◌, Some, map};
ghost use Rattle.cs_cfg.specs.GraphView.{access, block, block_end, code, operation};
ghost use Rattle.cs_cfg.specs.Touching.{touch_at, touch_in, touch_of, touch_of_end, touch_of_load, touch_of_store};

use crate::code::{Block, BlockEnd, Code, Spot};
use crate::operation::{Access, Operation, Work};
use cs_ast::Place;
use cs_events::PointKind;

/// A control point of a kind, or an access to the scalar local with a declaration's number, each at its source position.
#[derive(Clone, Copy)]
pub enum Touch {
    Point(PointKind, Place),
    Load(u32, Place),
    Store(u32, Place),
    Clear(u32, Place),
}

impl Code {
    /// Returns what the step of any run from a spot touches; `None` if it touches nothing, or there is no such spot.
    pub fn touch(&self, spot: Spot) -> Option<Touch>
        ensures reported { result ≡ touch_at (code self.now) spot }
    {
        let flow = self.flows.get(spot.function as usize)?.as_ref()?;
        let block = flow.blocks.get(spot.block as usize)?;
        block.touch(spot.operation as usize)
    }
}

impl Block {
    // Returns what the instruction with a number in the block touches: its counted point, an operation or its end.
    fn touch(&self, number: usize) -> Option<Touch>
        ensures reported { result ≡ touch_in (block self.now) number }
    {
        match self.counted_point {
            Some(counted_point) if number == 0 => Some(Touch::Point(
                counted_point.kind,
                counted_point.place,
            )),
            Some(_) => touch_of_operations(&self.operations, &self.end, number - 1),
            None => touch_of_operations(&self.operations, &self.end, number),
        }
    }
}

// The same in a block without a counted point.
fn touch_of_operations(operations: &[Operation], end: &BlockEnd, number: usize) -> Option<Touch>
    ensures reported { result ≡ touch_in
        (record { operations = map operation operations.now; end = block_end end.now }) number }
{
    match operations.get(number) {
        Some(operation) => operation.touch(),
        None if number == operations.len() => end.touch(),
        None => None,
    }
}

impl Operation {
    // Returns what the operation touches.
    fn touch(&self) -> Option<Touch>
        ensures reported { result ≡ touch_of (operation self.now) }
    {
        match &self.work {
            Work::Load(access) => access.load(),
            Work::FetchNumber(access, _) => access.load(),
            Work::FetchPointer(access) => access.load(),
            Work::Store(access) => access.store(self.place),
            Work::Update(_, access, _, _) => access.store(self.place),
            Work::Move(access, _, _, _) => access.store(self.place),
            Work::Clear(declaration, true) => Some(Touch::Clear(*declaration, self.place)),
            Work::StoreLocal(declaration, _, _, true) => Some(Touch::Store(
                *declaration,
                self.place,
            )),
            Work::Meet(kind) => Some(Touch::Point(*kind, self.place)),
            Work::Close(_) => Some(Touch::Point(PointKind::End, self.place)),
            _ => None,
        }
    }
}

impl Access {
    // Returns the touch of a load, at the position of the object's expression, if the object is a scalar local.
    fn load(&self) -> Option<Touch>
        ensures reported { result ≡ touch_of_load (access self.now) }
    {
        let declaration = self.local?;
        Some(Touch::Load(declaration, self.place))
    }

    // Returns the touch of a store, at the position of the storing operation.
    fn store(&self, place: Place) -> Option<Touch>
        ensures reported { result ≡ touch_of_store place (access self.now) }
    {
        let declaration = self.local?;
        Some(Touch::Store(declaration, place))
    }
}

impl BlockEnd {
    // Returns what the end of a block touches.
    fn touch(&self) -> Option<Touch>
        ensures reported { result ≡ touch_of_end (block_end self.now) }
    {
        match self {
            BlockEnd::Branch(place, _, _, _) => Some(Touch::Point(PointKind::Branch, *place)),
            BlockEnd::Switch(place, _, _, _) => Some(Touch::Point(PointKind::Switch, *place)),
            _ => None,
        }
    }
}
