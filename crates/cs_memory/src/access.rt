//! Loads and stores (C11 6.3.2.1, 6.5.16): the checks and events on the way to an object, and what memory returns and keeps.
ghost use Rattle.std.specs.Prelude.{◌≡◌, pos, neg_ℤ, ◌-ℤ◌, IfOk, OnOk, IfErr, IfSome, None, map};
ghost use Rattle.cs_types.specs.Shape.{shape_of};
ghost use Rattle.cs_ast.specs.TypedProgram.{HasLayouts, typed_program};
ghost use Rattle.cs_events.specs.Acts.{Act, Stops};
ghost use Rattle.cs_events.specs.declared.outcome.Outcome.TheVariants.{Fault};
ghost use Rattle.cs_meaning.specs.Machine.{State};
ghost use Rattle.cs_meaning.specs.Memory as meaning;
ghost use Rattle.cs_meaning.specs.Types as types;
ghost use Rattle.cs_meaning.specs.Access as loads;
ghost use Rattle.cs_objects.specs.Prepared.{IsReady};
ghost use Rattle.cs_values.specs.View.{cell_of, object_of, operand_of};
ghost use Rattle.cs_objects.specs.BlockView.{block_of};
ghost use Rattle.cs_memory.specs.MemoryView.{memory_of, KeepsCounts};
ghost use Rattle.cs_objects.specs.AccessView.{access_of};
ghost use Rattle.cs_memory.specs.Reaching.{load_touch, store_touch, reach_standing, scalar_value, struct_value, HoldsAll};
ghost use Rattle.cs_objects.specs.declared.settings.Setting.{Setting as SettingOfRun};
ghost use Rattle.cs_run_log.specs.Pieces.{GoesOn, EndsIn, Gives, StopsIn, GivesBoth, StopsInBoth, or_fault};

use crate::found::cell_position;
use crate::memory::Memory;
use cs_ast::Place;
use cs_ast::typed::program::Program;
use cs_events::{Label, Operation};
use cs_model::{Kind, Standing};
use cs_objects::Setting;
use cs_objects::access::Access;
use cs_objects::blocks::Block;
use cs_objects::prepared::scalar_offsets;
use cs_run_log::operators::fault;
use cs_run_log::{Log, Stop, Touch};
use cs_types::CType;
use cs_values::types::size_of;
use cs_values::{Cell, Object, Operand};
use std::alloc::AllocError;

// Returns an offset as an unsigned number; 0 if it is negative.
fn offset_number(offset: i128) -> Result<u64, AllocError>
    ensures { IfOk result (λ number. number ≡ loads.offset_number offset) }
{
    if offset < 0 {
        return Ok(0);
    }
    match u64::try_from(offset) {
        Ok(number) => Ok(number),
        Err(_) => Err(AllocError),
    }
}

// Returns the fault of an access to an object with a standing, if there is one (C11 6.2.4, paragraph 2).
fn refused(standing: Standing) -> Option<Kind>
    ensures { (place : Place) (act : Act State)
        → loads.stands place standing act ≡ or_fault place result act }
{
    match standing {
        Standing::Live => None,
        Standing::Freed => Some(Kind::Freed),
        Standing::Ended => Some(Kind::DeadLocal),
    }
}

// Returns the fault of an access to an object that doesn't exist: a local of a frame that has ended, or else nothing to access (C11 6.2.4,
// paragraph 2).
fn missing(object: &Object) -> Kind
    ensures { (place : Place) (act : Act State)
        → loads.there place (object_of object.now) None act ≡ Stops (Fault result place) }
{
    match object {
        Object::Local(_, _) => Kind::DeadLocal,
        Object::Start(_) => Kind::Bounds,
        Object::Global(_) => Kind::Bounds,
        Object::Literal(_) => Kind::Bounds,
        Object::Heap(_) => Kind::Bounds,
    }
}

// Whether an object of a type begins at an offset of an object.
fn begins_at(
    program: &Program,
    ty: &CType,
    object: &Object,
    block: &Block,
    offset: i128,
) -> Result<bool, AllocError>
    requires { HasLayouts program.now }
    ensures { IfOk result (λ holds.
        holds ≡ meaning.begins_at (typed_program program.now) (shape_of ty.now)
        (object_of object.now) (block_of block.now) offset) }
{
    if offset < 0 {
        return Ok(false);
    }
    let number = offset_number(offset)?;
    match cell_position(program, object, block, number)? {
        Some(at) => block.ty.begins(program, ty, at),
        None => Ok(false),
    }
}

// Returns the order test whether `size` bytes at an offset end within the object.
fn ends_within(offset: i128, extent: u64, size: u64) -> Result<Operation, AllocError>
    ensures { IfOk result (λ test.
        test ≡ Operation.Order (neg_ℤ offset) (pos extent -ℤ pos size)) }
{
    let back = offset.checked_neg().ok_or(AllocError)?;
    Ok(Operation::Order(back, i128::from(extent) - i128::from(size)))
}

// Returns the order test whether an offset is at least 0.
fn begins_within(offset: i128) -> Operation
    ensures { result ≡ Operation.Order offset (pos 0) }
{
    Operation::Order(offset, 0)
}

// Accesses an existing object as one of another type: it must be live, the type's bytes must be within it, the offset shows, and such an
// object must begin there.
fn reach_block(
    log: &mut Log,
    setting: &Setting,
    access: Access,
    object: &Object,
    block: &Block,
    offset: i128,
) -> Result<u64, Stop>
    requires { IsReady setting.now }
    ensures ok { IfOk result
        (Gives setting.now log.old log.new
        (loads.reach_block (typed_program setting.now.program.now) access.entry.place
        (shape_of access.entry.ty.now) (object_of object.now) offset (block_of block.now))) }
    ensures err { IfErr result
        (StopsIn setting.now log.old log.new
        (loads.reach_block (typed_program setting.now.program.now) access.entry.place
        (shape_of access.entry.ty.now) (object_of object.now) offset (block_of block.now))) }
{
    match refused(block.standing) {
        Some(kind) => Err(fault(kind, access.place)),
        None => {
            let number = reach_standing(log, setting, access, object, block, offset)?;
            Ok(number)
        }
    }
}

// The same for a live object.
fn reach_standing(
    log: &mut Log,
    setting: &Setting,
    access: Access,
    object: &Object,
    block: &Block,
    offset: i128,
) -> Result<u64, Stop>
    requires { IsReady setting.now }
    ensures ok { IfOk result
        (Gives setting.now log.old log.new
        (reach_standing (typed_program setting.now.program.now) access.entry.place
        (shape_of access.entry.ty.now) (object_of object.now) offset (block_of block.now))) }
    ensures err { IfErr result
        (StopsIn setting.now log.old log.new
        (reach_standing (typed_program setting.now.program.now) access.entry.place
        (shape_of access.entry.ty.now) (object_of object.now) offset (block_of block.now))) }
{
    let size = size_of(setting.program, access.ty)?;
    let ends = ends_within(offset, block.extent, size)?;
    let begins = begins_at(setting.program, access.ty, object, block, offset)?;
    let number = offset_number(offset)?;
    log.order(setting, access.place, begins_within(offset))?;
    log.order(setting, access.place, ends)?;
    log.show_offset(setting, access.place, object, offset)?;
    if begins {
        Ok(number)
    } else {
        Err(fault(Kind::Bounds, access.place))
    }
}

// Records the touch of a load of a scalar local.
fn touch_load(log: &mut Log, frame: u64, access: Access) -> Result<(), AllocError>
    ensures { OnOk result ((setting : SettingOfRun)
        → GoesOn setting log.old log.new
        (loads.touches_then (load_touch frame access.entry.place) access.entry.local)) }
{
    if let Some(declaration) = access.local {
        log.touch(Touch::Loads(frame, declaration, access.place))?;
    }
    Ok(())
}

/// Records the touch of a store to a scalar local.
pub fn touch_store(
    log: &mut Log,
    frame: u64,
    place: Place,
    local: Option<u32>,
) -> Result<(), AllocError>
    ensures { OnOk result ((setting : SettingOfRun)
        → GoesOn setting log.old log.new (loads.touches_then (store_touch frame place) local)) }
{
    if let Some(declaration) = local {
        log.touch(Touch::Stores(frame, declaration, place))?;
    }
    Ok(())
}

/// Whether a store to an object is a fault: a const file-scope object or a string literal (C11 6.4.5, 6.7.3).
pub fn is_constant(program: &Program, object: &Object) -> bool
    ensures { result ≡ meaning.is_constant (typed_program program.now) (object_of object.now) }
{
    match object {
        Object::Global(global) => match program.globals.get(*global as usize) {
            Some(global) => global.constant,
            None => false,
        },
        Object::Literal(_) => true,
        Object::Start(_) | Object::Local(_, _) | Object::Heap(_) => false,
    }
}

impl<'a> Memory<'a> {
    // Accesses the object of a pointer as one of another type, if it exists.
    fn reach_in(
        &self,
        log: &mut Log,
        setting: &Setting,
        access: Access,
        object: &Object,
        offset: i128,
    ) -> Result<u64, Stop>
        requires { IsReady setting.now }
        ensures ok { IfOk result
            (Gives setting.now log.old log.new
            (loads.reach_in (typed_program setting.now.program.now) access.entry.place
            (shape_of access.entry.ty.now) (object_of object.now) offset
            (memory_of self.now (object_of object.now)))) }
        ensures err { IfErr result
            (StopsIn setting.now log.old log.new
            (loads.reach_in (typed_program setting.now.program.now) access.entry.place
            (shape_of access.entry.ty.now) (object_of object.now) offset
            (memory_of self.now (object_of object.now)))) }
    {
        match self.block(object) {
            Some(block) => {
                let number = reach_block(log, setting, access, object, block, offset)?;
                Ok(number)
            }
            None => Err(fault(missing(object), access.place)),
        }
    }

    // Accesses an object through a pointer: it shows whether the pointer is null, which is a fault (C11 6.5.3.2, paragraph 4).
    fn reach<'p>(
        &self,
        log: &mut Log,
        setting: &Setting,
        access: Access,
        place: &'p Cell,
    ) -> Result<(&'p Object, u64), Stop>
        requires { IsReady setting.now }
        ensures ok { IfOk result (λ found.
            GivesBoth setting.now log.old log.new
            (loads.reach (typed_program setting.now.program.now) (memory_of self.now)
            access.entry.place (shape_of access.entry.ty.now) (cell_of place.now))
            (object_of found.0.now) found.1) }
        ensures err { IfErr result
            (StopsInBoth setting.now log.old log.new
            (loads.reach (typed_program setting.now.program.now) (memory_of self.now)
            access.entry.place (shape_of access.entry.ty.now) (cell_of place.now))) }
    {
        match place {
            Cell::Null => {
                log.show(setting, access.place, Label::Look(false))?;
                Err(fault(Kind::Null, access.place))
            }
            Cell::Pointer(object, offset) => {
                log.show(setting, access.place, Label::Look(true))?;
                let number = self.reach_in(log, setting, access, object, *offset)?;
                Ok((object, number))
            }
            Cell::Number(_) => Err(fault(Kind::Unset, access.place)),
            Cell::Unset => Err(fault(Kind::Unset, access.place)),
        }
    }

    // Returns the object that is accessed, given its lvalue, and the offset there.
    fn locate<'p>(
        &self,
        log: &mut Log,
        setting: &Setting,
        access: Access,
        place: &'p Cell,
    ) -> Result<(&'p Object, u64), Stop>
        requires { IsReady setting.now }
        ensures ok { IfOk result (λ found.
            GivesBoth setting.now log.old log.new
            (loads.locate_object (typed_program setting.now.program.now) (memory_of self.now)
            (access_of access.entry) (cell_of place.now)) (object_of found.0.now) found.1) }
        ensures err { IfErr result
            (StopsInBoth setting.now log.old log.new
            (loads.locate_object (typed_program setting.now.program.now) (memory_of self.now)
            (access_of access.entry) (cell_of place.now))) }
    {
        if access.direct {
            let found = direct(log, setting, access.place, place)?;
            Ok(found)
        } else {
            let found = self.reach(log, setting, access, place)?;
            Ok(found)
        }
    }

    // Returns the value of a type at an offset of an object: a scalar, which must be set, or the scalars of a struct, set or not.
    fn value_at(
        &mut self,
        log: &mut Log,
        setting: &Setting<'a>,
        access: Access,
        object: &Object,
        offset: u64,
    ) -> Result<Operand, Stop>
        requires { IsReady setting.now }
        ensures ok { IfOk result (λ operand.
            GivesBoth setting.now log.old log.new
            (loads.value_at (typed_program setting.now.program.now) (memory_of self.old)
            access.entry.place (shape_of access.entry.ty.now) (object_of object.now) offset)
            (memory_of self.new) (operand_of operand)) }
        ensures err { IfErr result
            (StopsInBoth setting.now log.old log.new
            (loads.value_at (typed_program setting.now.program.now) (memory_of self.old)
            access.entry.place (shape_of access.entry.ty.now) (object_of object.now) offset)) }
        ensures counts { IfOk result (λ _. KeepsCounts self.old self.new) }
    {
        match access.ty {
            CType::Struct(_) => {
                let operand = self.struct_value(log, setting, access.ty, object, offset)?;
                Ok(operand)
            }
            CType::Void => self.scalar_value(log, setting, access.place, object, offset),
            CType::Int(_) => self.scalar_value(log, setting, access.place, object, offset),
            CType::Pointer(_) => self.scalar_value(log, setting, access.place, object, offset),
            CType::Array(_, _) => self.scalar_value(log, setting, access.place, object, offset),
        }
    }

    // Returns the scalars of a struct, set or not.
    fn struct_value(
        &mut self,
        log: &mut Log,
        setting: &Setting<'a>,
        ty: &CType,
        object: &Object,
        offset: u64,
    ) -> Result<Operand, Stop>
        requires { IsReady setting.now }
        ensures ok { IfOk result (λ operand.
            GivesBoth setting.now log.old log.new
            (struct_value (typed_program setting.now.program.now) (memory_of self.old)
            (shape_of ty.now) (object_of object.now) offset) (memory_of self.new)
            (operand_of operand)) }
        ensures err { IfErr result
            (StopsInBoth setting.now log.old log.new
            (struct_value (typed_program setting.now.program.now) (memory_of self.old)
            (shape_of ty.now) (object_of object.now) offset)) }
        ensures counts { IfOk result (λ _. KeepsCounts self.old self.new) }
    {
        let offsets = scalar_offsets(setting, ty)?;
        let cells = self.read_all(log, setting, object, offset, offsets.as_slice())?;
        Ok(Operand::Whole(cells))
    }

    // Returns the value of a scalar, which must be set.
    fn scalar_value(
        &mut self,
        log: &mut Log,
        setting: &Setting<'a>,
        place: Place,
        object: &Object,
        offset: u64,
    ) -> Result<Operand, Stop>
        requires { IsReady setting.now }
        ensures ok { IfOk result (λ operand.
            GivesBoth setting.now log.old log.new
            (scalar_value (typed_program setting.now.program.now) (memory_of self.old) place
            (object_of object.now) offset) (memory_of self.new) (operand_of operand)) }
        ensures err { IfErr result
            (StopsInBoth setting.now log.old log.new
            (scalar_value (typed_program setting.now.program.now) (memory_of self.old) place
            (object_of object.now) offset)) }
        ensures counts { IfOk result (λ _. KeepsCounts self.old self.new) }
    {
        let cell = self.read(log, setting, object, offset)?;
        if let Some(kind) = refused_use(&cell) {
            return Err(fault(kind, place));
        }
        Ok(Operand::Scalar(cell))
    }

    // Returns the cells of an object at offsets relative to `from`, in order.
    fn read_all(
        &mut self,
        log: &mut Log,
        setting: &Setting<'a>,
        object: &Object,
        from: u64,
        offsets: &[u64],
    ) -> Result<Vec<Cell>, Stop>
        requires { IsReady setting.now }
        ensures ok { IfOk result (λ cells.
            GivesBoth setting.now log.old log.new
            (loads.read_all (typed_program setting.now.program.now) (memory_of self.old)
            (object_of object.now) from offsets.now) (memory_of self.new)
            (map cell_of cells.items)) }
        ensures err { IfErr result
            (StopsInBoth setting.now log.old log.new
            (loads.read_all (typed_program setting.now.program.now) (memory_of self.old)
            (object_of object.now) from offsets.now)) }
        ensures counts { IfOk result (λ _. KeepsCounts self.old self.new) }
    {
        match self.written_cells(object, from, offsets)? {
            Some(cells) => Ok(cells),
            None => self.read_each(log, setting, object, from, offsets),
        }
    }

    // Returns the cells of an object at offsets relative to `from`, if all of them were written, and none between them.
    fn written_cells(
        &self,
        object: &Object,
        from: u64,
        offsets: &[u64],
    ) -> Result<Option<Vec<Cell>>, AllocError>
        ensures { IfOk result (λ found. IfSome found (λ cells.
            HoldsAll (memory_of self.now) (object_of object.now) from offsets.now
            (map cell_of cells.items))) }
    {
        match self.block(object) {
            Some(block) => block.written_cells(*self.heap.allocator(), from, offsets),
            None => Ok(None),
        }
    }

    // The same, one after the other.
    fn read_each(
        &mut self,
        log: &mut Log,
        setting: &Setting<'a>,
        object: &Object,
        from: u64,
        offsets: &[u64],
    ) -> Result<Vec<Cell>, Stop>
        requires { IsReady setting.now }
        ensures ok { IfOk result (λ cells.
            GivesBoth setting.now log.old log.new
            (loads.read_all (typed_program setting.now.program.now) (memory_of self.old)
            (object_of object.now) from offsets.now) (memory_of self.new)
            (map cell_of cells.items)) }
        ensures err { IfErr result
            (StopsInBoth setting.now log.old log.new
            (loads.read_all (typed_program setting.now.program.now) (memory_of self.old)
            (object_of object.now) from offsets.now)) }
        ensures counts { IfOk result (λ _. KeepsCounts self.old self.new) }
    {
        let mut cells = Vec::new(*self.heap.allocator());
        for offset in offsets {
            let at = from.checked_add(*offset).ok_or(AllocError)?;
            let cell = self.read(log, setting, object, at)?;
            cells.push(cell)?;
        }
        Ok(cells)
    }

    /// Loads, in a frame, from the object with this lvalue.
    pub fn load(
        &mut self,
        log: &mut Log,
        setting: &Setting<'a>,
        frame: u64,
        access: Access,
        place: &Cell,
    ) -> Result<Operand, Stop>
        requires { IsReady setting.now }
        ensures ok { IfOk result (λ operand.
            GivesBoth setting.now log.old log.new
            (loads.load_object (typed_program setting.now.program.now) (memory_of self.old) frame
            (access_of access.entry) (cell_of place.now)) (memory_of self.new)
            (operand_of operand)) }
        ensures err { IfErr result
            (StopsInBoth setting.now log.old log.new
            (loads.load_object (typed_program setting.now.program.now) (memory_of self.old) frame
            (access_of access.entry) (cell_of place.now))) }
        ensures counts { IfOk result (λ _. KeepsCounts self.old self.new) }
    {
        let found = self.locate(log, setting, access, place)?;
        touch_load(log, frame, access)?;
        let operand = self.value_at(log, setting, access, found.0, found.1)?;
        Ok(operand)
    }

    /// Stores, by an operation at a source position, in a frame, to the object with this lvalue.
    pub fn store(
        &mut self,
        log: &mut Log,
        setting: &Setting<'a>,
        frame: u64,
        at: Place,
        access: Access,
        place: &Cell,
        operand: &Operand,
    ) -> Result<(), Stop>
        requires { IsReady setting.now }
        ensures ok { OnOk result
            (Gives setting.now log.old log.new
            (loads.store_object (typed_program setting.now.program.now) (memory_of self.old) frame
            at (access_of access.entry) (cell_of place.now) (operand_of operand.now))
            (memory_of self.new)) }
        ensures err { IfErr result
            (StopsIn setting.now log.old log.new
            (loads.store_object (typed_program setting.now.program.now) (memory_of self.old) frame
            at (access_of access.entry) (cell_of place.now) (operand_of operand.now))) }
        ensures counts { OnOk result (KeepsCounts self.old self.new) }
    {
        let found = self.locate(log, setting, access, place)?;
        if is_constant(setting.program, found.0) {
            return Err(fault(Kind::ConstWrite, access.place));
        }
        touch_store(log, frame, at, access.local)?;
        self.write_operand(setting, access.ty, found.0, found.1, operand)?;
        Ok(())
    }
}

// Returns the object and the offset of a variable, or of a member of one.
fn direct<'p>(
    log: &Log,
    setting: &Setting,
    place: Place,
    cell: &'p Cell,
) -> Result<(&'p Object, u64), Stop>
    ensures ok { IfOk result (λ found.
        GivesBoth setting.now log.now log.now (loads.direct place (cell_of cell.now))
        (object_of found.0.now) found.1) }
    ensures err { IfErr result
        (StopsInBoth setting.now log.now log.now (loads.direct place (cell_of cell.now))) }
{
    match cell {
        Cell::Pointer(object, offset) => {
            let number = offset_number(*offset)?;
            Ok((object, number))
        }
        Cell::Number(_) => Err(fault(Kind::Unset, place)),
        Cell::Null => Err(fault(Kind::Unset, place)),
        Cell::Unset => Err(fault(Kind::Unset, place)),
    }
}

/// Returns the fault of a use of a scalar, if it is unset.
pub fn refused_use(cell: &Cell) -> Option<Kind>
    ensures { (place : Place) (act : Act State)
        → loads.set_then place (cell_of cell.now) act ≡ or_fault place result act }
{
    match cell {
        Cell::Unset => Some(Kind::Unset),
        Cell::Number(_) | Cell::Null | Cell::Pointer(_, _) => None,
    }
}
