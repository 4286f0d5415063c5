//! Operators on values (C11 6.3, 6.5.3 to 6.5.10): their checks, their events, and the results that a run continues with.
ghost use Rattle.std.specs.Prelude.{◌≡◌, IfOk, OnOk, IfErr, Some, None};
ghost use Rattle.cs_types.specs.Shape.{shape_of, integer};
ghost use Rattle.cs_ast.specs.TypedProgram.{typed_program};
ghost use Rattle.cs_meaning.specs.Access as loads;
ghost use Rattle.cs_meaning.specs.Operators as operators;
ghost use Rattle.cs_meaning.specs.Initials.{number_in};
ghost use Rattle.cs_meaning.specs.Machine.{State, Scalar};
ghost use Rattle.cs_events.specs.Acts.{Act};
ghost use Rattle.cs_values.specs.View.{cell_of, operand_of};
ghost use Rattle.cs_objects.specs.AccessView.{access_of};
ghost use Rattle.cs_run_log.specs.Computing.{computes};
ghost use Rattle.cs_run_log.specs.Pieces.{GoesOn, Gives, EndsIn, StopsIn, or_fault, holds_or_faults, moves_offset, compares_seen};

use crate::logs::{Log, Stop, Touch};
use cs_ast::Place;
use cs_ast::typed::operator::{BinOp, CmpOp};
use cs_events::{Label, Operation, Outcome, PointKind, numbers_of};
use cs_model::Kind;
use cs_objects::Setting;
use cs_objects::access::Access;
use cs_types::{CType, DataModel, IntType};
use cs_values::arithmetic::{bytes, is_true};
use cs_values::constants::integer_of;
use cs_values::operations::{
    binary_operation, cell_comparison, conversion, offset_comparison, offset_difference,
    pointer_sum, stays_above, stays_below,
};
use cs_values::{Cell, Operand, Stride};

/// Returns the end of a run in a fault.
pub fn fault(kind: Kind, place: Place) -> Stop
    ensures { result ≡ Stop.Outcome (Outcome.Fault kind place) }
{
    Stop::Outcome(Outcome::Fault(kind, place))
}

impl Log {
    /// Shows whether a pointer is null; other values show nothing.
    pub fn look(&mut self, setting: &Setting, place: Place, cell: &Cell) -> Result<(), Stop>
        ensures ok { OnOk result
            (GoesOn setting.now self.old self.new (loads.look place (cell_of cell.now))) }
        ensures err { IfErr result
            (EndsIn setting.now self.old self.new (loads.look place (cell_of cell.now))) }
    {
        match cell {
            Cell::Null => {
                self.show(setting, place, Label::Look(false))?;
                Ok(())
            }
            Cell::Pointer(_, _) => {
                self.show(setting, place, Label::Look(true))?;
                Ok(())
            }
            Cell::Number(_) => Ok(()),
            Cell::Unset => Ok(()),
        }
    }

    /// Returns whether a value is true (C11 6.8.4.1, paragraph 2).
    pub fn truth(&mut self, setting: &Setting, place: Place, cell: &Cell) -> Result<bool, Stop>
        ensures ok { IfOk result
            (Gives setting.now self.old self.new (operators.truth place (cell_of cell.now))) }
        ensures err { IfErr result
            (StopsIn setting.now self.old self.new (operators.truth place (cell_of cell.now))) }
    {
        match cell {
            Cell::Number(number) => Ok(is_true(*number)),
            Cell::Unset => Ok(false),
            Cell::Null => {
                self.show(setting, place, Label::Look(false))?;
                Ok(false)
            }
            Cell::Pointer(_, _) => {
                self.show(setting, place, Label::Look(true))?;
                Ok(true)
            }
        }
    }

    /// Returns the branch that a test takes, which shows.
    pub fn branch(&mut self, setting: &Setting, place: Place, cell: &Cell) -> Result<bool, Stop>
        ensures ok { IfOk result
            (Gives setting.now self.old self.new (operators.branch place (cell_of cell.now))) }
        ensures err { IfErr result
            (StopsIn setting.now self.old self.new (operators.branch place (cell_of cell.now))) }
    {
        let holds = self.truth(setting, place, cell)?;
        self.touch(Touch::Meets(PointKind::Branch, place))?;
        self.show(setting, place, Label::Branch(holds))?;
        Ok(holds)
    }

    /// Shows an order test, which is a fault if it fails.
    pub fn order(&mut self, setting: &Setting, place: Place, test: Operation) -> Result<(), Stop>
        ensures ok { OnOk result
            (GoesOn setting.now self.old self.new (holds_or_faults place test)) }
        ensures err { IfErr result
            (EndsIn setting.now self.old self.new (holds_or_faults place test)) }
    {
        let number = self.ask(setting, place, test)?;
        if is_true(number) {
            Ok(())
        } else {
            Err(fault(Kind::Bounds, place))
        }
    }

    /// Returns the result of a binary integer operator.
    pub fn operate(
        &mut self,
        setting: &Setting,
        place: Place,
        operator: BinOp,
        ty: IntType,
        left: &i128,
        right: &i128,
    ) -> Result<i128, Stop>
        ensures ok { IfOk result
            (Gives setting.now self.old self.new
            (operators.operate setting.now.program.now.model place operator ty left.now
            right.now)) }
        ensures err { IfErr result
            (StopsIn setting.now self.old self.new
            (operators.operate setting.now.program.now.model place operator ty left.now
            right.now)) }
    {
        if let Some(kind) = refused(setting.program.model, operator, ty, right) {
            return Err(fault(kind, place));
        }
        let number = self.ask(setting, place, binary_operation(operator, ty, left, right))?;
        Ok(number)
    }

    /// Converts a number from a type, which shows unless all numbers of the old type are in the new one
    /// (C11 6.3.1.3).
    pub fn convert_number(
        &mut self,
        setting: &Setting,
        place: Place,
        from: &CType,
        to: IntType,
        number: &i128,
    ) -> Result<i128, Stop>
        ensures ok { IfOk result
            (Gives setting.now self.old self.new
            (operators.convert_number setting.now.program.now.model place (shape_of from.now) to
            number.now)) }
        ensures err { IfErr result
            (StopsIn setting.now self.old self.new
            (operators.convert_number setting.now.program.now.model place (shape_of from.now) to
            number.now)) }
    {
        if takes_all(setting.program.model, from, to) {
            Ok(*number)
        } else {
            let number = self.ask(setting, place, conversion(to, number))?;
            Ok(number)
        }
    }

    /// Converts a value from a type. Only a conversion of a number to an integer type changes it; the result of one from `void` is nothing
    /// (C11 6.3.2.2).
    pub fn convert(
        &mut self,
        setting: &Setting,
        place: Place,
        from: &CType,
        to: &CType,
        operand: Operand,
    ) -> Result<Operand, Stop>
        ensures ok { IfOk result (λ made.
            Gives setting.now self.old self.new
            (operators.convert setting.now.program.now.model place (shape_of from.now)
            (shape_of to.now) (operand_of operand)) (operand_of made)) }
        ensures err { IfErr result
            (StopsIn setting.now self.old self.new
            (operators.convert setting.now.program.now.model place (shape_of from.now)
            (shape_of to.now) (operand_of operand))) }
    {
        match to {
            CType::Void => Ok(Operand::Nothing),
            CType::Int(ty) => {
                let made = self.convert_to_integer(setting, place, from, *ty, operand)?;
                Ok(made)
            }
            CType::Pointer(_) => Ok(operand),
            CType::Array(_, _) => Ok(operand),
            CType::Struct(_) => Ok(operand),
        }
    }

    // A conversion of a value to an integer type.
    fn convert_to_integer(
        &mut self,
        setting: &Setting,
        place: Place,
        from: &CType,
        ty: IntType,
        operand: Operand,
    ) -> Result<Operand, Stop>
        ensures ok { IfOk result (λ made.
            Gives setting.now self.old self.new
            (operators.convert setting.now.program.now.model place (shape_of from.now) (integer ty)
            (operand_of operand)) (operand_of made)) }
        ensures err { IfErr result
            (StopsIn setting.now self.old self.new
            (operators.convert setting.now.program.now.model place (shape_of from.now) (integer ty)
            (operand_of operand))) }
    {
        match operand {
            Operand::Scalar(cell) => {
                let made = self.convert_cell(setting, place, from, ty, cell)?;
                Ok(Operand::Scalar(made))
            }
            Operand::Whole(cells) => Ok(Operand::Whole(cells)),
            Operand::Nothing => Ok(Operand::Nothing),
        }
    }

    // A conversion of a scalar to an integer type.
    fn convert_cell(
        &mut self,
        setting: &Setting,
        place: Place,
        from: &CType,
        ty: IntType,
        cell: Cell,
    ) -> Result<Cell, Stop>
        ensures ok { IfOk result (λ made.
            Gives setting.now self.old self.new
            (operators.convert setting.now.program.now.model place (shape_of from.now) (integer ty)
            (Scalar (cell_of cell))) (Scalar (cell_of made))) }
        ensures err { IfErr result
            (StopsIn setting.now self.old self.new
            (operators.convert setting.now.program.now.model place (shape_of from.now) (integer ty)
            (Scalar (cell_of cell)))) }
    {
        match cell {
            Cell::Number(number) => {
                let number = self.convert_number(setting, place, from, ty, &number)?;
                Ok(Cell::Number(number))
            }
            Cell::Null => Ok(Cell::Null),
            Cell::Pointer(object, offset) => Ok(Cell::Pointer(object, offset)),
            Cell::Unset => Ok(Cell::Unset),
        }
    }

    /// Returns a pointer plus a stride: its offset stays within its bounds (C11 6.5.6, paragraph 8).
    pub fn sum(
        &mut self,
        setting: &Setting,
        place: Place,
        pointer: Cell,
        stride: Stride,
    ) -> Result<Cell, Stop>
        ensures ok { IfOk result (λ made.
            Gives setting.now self.old self.new
            (operators.sum setting.now.program.now.model place (cell_of pointer) stride.amount
            stride.size) (cell_of made)) }
        ensures err { IfErr result
            (StopsIn setting.now self.old self.new
            (operators.sum setting.now.program.now.model place (cell_of pointer) stride.amount
            stride.size)) }
    {
        match pointer {
            Cell::Null => {
                self.show(setting, place, Label::Look(false))?;
                if stride.amount == 0 {
                    Ok(Cell::Null)
                } else {
                    Err(fault(Kind::Null, place))
                }
            }
            Cell::Pointer(object, offset) => {
                let offset = self.move_offset(setting, place, &offset, stride)?;
                Ok(Cell::Pointer(object, offset))
            }
            Cell::Number(_) => Ok(Cell::Unset),
            Cell::Unset => Ok(Cell::Unset),
        }
    }

    // Returns the offset of a moved pointer.
    fn move_offset(
        &mut self,
        setting: &Setting,
        place: Place,
        offset: &i128,
        stride: Stride,
    ) -> Result<i128, Stop>
        ensures ok { IfOk result
            (Gives setting.now self.old self.new
            (moves_offset setting.now.program.now.model place offset.now stride.amount
            stride.size)) }
        ensures err { IfErr result
            (StopsIn setting.now self.old self.new
            (moves_offset setting.now.program.now.model place offset.now stride.amount
            stride.size)) }
    {
        let above = stays_above(setting.program.model, offset, stride)?;
        let below = stays_below(setting.program.model, offset, stride)?;
        self.show(setting, place, Label::Look(true))?;
        self.order(setting, place, above)?;
        self.order(setting, place, below)?;
        let moved = self.ask(setting, place, pointer_sum(offset, stride))?;
        Ok(moved)
    }

    /// Compares two numbers or two pointers (C11 6.5.8, 6.5.9).
    pub fn compare(
        &mut self,
        setting: &Setting,
        place: Place,
        operator: CmpOp,
        left: &Cell,
        right: &Cell,
    ) -> Result<i128, Stop>
        ensures ok { IfOk result
            (Gives setting.now self.old self.new
            (operators.compare place operator (cell_of left.now) (cell_of right.now))) }
        ensures err { IfErr result
            (StopsIn setting.now self.old self.new
            (operators.compare place operator (cell_of left.now) (cell_of right.now))) }
    {
        if left.is_pointer() || right.is_pointer() {
            let number = self.compare_pointers(setting, place, operator, left, right)?;
            Ok(number)
        } else {
            let number = self.ask(setting, place, cell_comparison(operator, left, right))?;
            Ok(number)
        }
    }

    // A comparison of two pointers.
    fn compare_pointers(
        &mut self,
        setting: &Setting,
        place: Place,
        operator: CmpOp,
        left: &Cell,
        right: &Cell,
    ) -> Result<i128, Stop>
        ensures ok { IfOk result
            (Gives setting.now self.old self.new
            (operators.compare_pointers place operator (cell_of left.now) (cell_of right.now))) }
        ensures err { IfErr result
            (StopsIn setting.now self.old self.new
            (operators.compare_pointers place operator (cell_of left.now) (cell_of right.now))) }
    {
        self.look(setting, place, left)?;
        self.look(setting, place, right)?;
        let number = self.compare_seen(setting, place, operator, left, right)?;
        Ok(number)
    }

    // The same, once both have shown whether they are null.
    fn compare_seen(
        &mut self,
        setting: &Setting,
        place: Place,
        operator: CmpOp,
        left: &Cell,
        right: &Cell,
    ) -> Result<i128, Stop>
        ensures ok { IfOk result
            (Gives setting.now self.old self.new
            (compares_seen place operator (cell_of left.now) (cell_of right.now))) }
        ensures err { IfErr result
            (StopsIn setting.now self.old self.new
            (compares_seen place operator (cell_of left.now) (cell_of right.now))) }
    {
        if asks_order(operator) {
            let offsets = in_relation(place, related(left, right))?;
            let number = self.ask(setting, place, offset_comparison(operator, offsets))?;
            Ok(number)
        } else {
            let same = both_null(left, right);
            let offsets = in_one_object(left, right);
            let number = self.equality(setting, place, operator, same, offsets)?;
            Ok(number)
        }
    }

    // Two pointers compared for equality: offsets are compared if they point into the same object (C11 6.5.9, paragraph 6).
    fn equality(
        &mut self,
        setting: &Setting,
        place: Place,
        operator: CmpOp,
        same: bool,
        offsets: Option<(i128, i128)>,
    ) -> Result<i128, Stop>
        ensures ok { IfOk result
            (Gives setting.now self.old self.new (operators.equality place operator same offsets)) }
        ensures err { IfErr result
            (StopsIn setting.now self.old self.new
            (operators.equality place operator same offsets)) }
    {
        match offsets {
            Some(offsets) => {
                let number = self.ask(setting, place, offset_comparison(operator, offsets))?;
                Ok(number)
            }
            None => {
                let holds = equality_of(operator, same);
                self.show(setting, place, Label::Truth(holds))?;
                Ok(i128::from(holds))
            }
        }
    }

    /// Returns the difference of two pointers, in elements of a size (C11 6.5.6, paragraph 9).
    pub fn difference(
        &mut self,
        setting: &Setting,
        place: Place,
        left: &Cell,
        right: &Cell,
        size: u64,
    ) -> Result<i128, Stop>
        ensures ok { IfOk result
            (Gives setting.now self.old self.new
            (operators.difference place (cell_of left.now) (cell_of right.now) size)) }
        ensures err { IfErr result
            (StopsIn setting.now self.old self.new
            (operators.difference place (cell_of left.now) (cell_of right.now) size)) }
    {
        self.look(setting, place, left)?;
        self.look(setting, place, right)?;
        let offsets = in_relation(place, related(left, right))?;
        let number = self.ask(setting, place, offset_difference(offsets, size))?;
        Ok(number)
    }

    /// Returns the member at an offset of the object that a pointer points to (C11 6.5.2.3, paragraph 4).
    pub fn arrow(
        &mut self,
        setting: &Setting,
        place: Place,
        pointer: Cell,
        bytes: u64,
    ) -> Result<Cell, Stop>
        ensures ok { IfOk result (λ made.
            Gives setting.now self.old self.new (operators.arrow place (cell_of pointer) bytes)
            (cell_of made)) }
        ensures err { IfErr result
            (StopsIn setting.now self.old self.new
            (operators.arrow place (cell_of pointer) bytes)) }
    {
        match pointer {
            Cell::Null => {
                self.show(setting, place, Label::Look(false))?;
                Err(fault(Kind::Null, place))
            }
            Cell::Pointer(_, _) => {
                self.show(setting, place, Label::Look(true))?;
                let made = pointer.further(bytes)?;
                Ok(made)
            }
            Cell::Number(_) => Ok(Cell::Unset),
            Cell::Unset => Ok(Cell::Unset),
        }
    }

    /// Returns the result of an update, in the type of the object.
    pub fn compute(
        &mut self,
        setting: &Setting,
        place: Place,
        operator: BinOp,
        access: Access,
        works_in: IntType,
        left: &i128,
        right: &i128,
    ) -> Result<i128, Stop>
        ensures ok { IfOk result
            (Gives setting.now self.old self.new
            (computes (typed_program setting.now.program.now) place operator
            (access_of access.entry) works_in left.now right.now)) }
        ensures err { IfErr result
            (StopsIn setting.now self.old self.new
            (computes (typed_program setting.now.program.now) place operator
            (access_of access.entry) works_in left.now right.now)) }
    {
        let number = self.operate(setting, place, operator, works_in, left, right)?;
        let (from, to) = (CType::Int(works_in), integer_of(access.ty));
        let stored = self.convert_number(setting, place, &from, to, &number)?;
        Ok(stored)
    }
}

// Returns the fault of a binary integer operator with this right operand, if there is one (C11 6.5.5, paragraph 5; 6.5.7,
// paragraph 3).
fn refused(model: DataModel, operator: BinOp, ty: IntType, right: &i128) -> Option<Kind>
    ensures { (place : Place) (act : Act State)
        → operators.checked model place operator ty right.now act ≡ or_fault place result act }
{
    match operator {
        BinOp::Div => refused_divisor(right),
        BinOp::Rem => refused_divisor(right),
        BinOp::Shl => refused_count(model, ty, right),
        BinOp::Shr => refused_count(model, ty, right),
        BinOp::Add | BinOp::Sub | BinOp::Mul | BinOp::And | BinOp::Xor | BinOp::Or => None,
    }
}

// Returns the fault of a division by 0.
fn refused_divisor(divisor: &i128) -> Option<Kind>
    ensures { (place : Place) (act : Act State)
        → operators.divide place divisor.now act ≡ or_fault place result act }
{
    if *divisor == 0 {
        Some(Kind::Divide)
    } else {
        None
    }
}

// Returns the fault of a shift by a negative count, or one not less than the width.
fn refused_count(model: DataModel, ty: IntType, count: &i128) -> Option<Kind>
    ensures { (place : Place) (act : Act State)
        → operators.shift model place ty count.now act ≡ or_fault place result act }
{
    let count = *count;
    if 0 <= count && count < i128::from(8 * bytes(model, ty)) {
        None
    } else {
        Some(Kind::Shift)
    }
}

// Whether all numbers of a type are in another.
fn takes_all(model: DataModel, from: &CType, to: IntType) -> bool
    ensures { result ≡ operators.takes_all model (shape_of from.now) to }
{
    match from {
        CType::Int(from) => {
            let (least, greatest) = numbers_of(model, *from);
            let (low, high) = numbers_of(model, to);
            low <= least && greatest <= high
        }
        _ => false,
    }
}

// Whether two values are both null.
fn both_null(left: &Cell, right: &Cell) -> bool
    ensures { result ≡ operators.both_null (cell_of left.now) (cell_of right.now) }
{
    matches!((left, right), (Cell::Null, Cell::Null))
}

// Returns the offsets of two pointers into the same object.
fn in_one_object(left: &Cell, right: &Cell) -> Option<(i128, i128)>
    ensures { result ≡ operators.in_one_object (cell_of left.now) (cell_of right.now) }
{
    match (left, right) {
        (Cell::Pointer(object, one), Cell::Pointer(other_object, other)) => {
            if object.is_same(other_object) {
                Some((*one, *other))
            } else {
                None
            }
        }
        _ => None,
    }
}

// The same, with null as an object of its own.
fn related(left: &Cell, right: &Cell) -> Option<(i128, i128)>
    ensures { result ≡ operators.related (cell_of left.now) (cell_of right.now) }
{
    match (left, right) {
        (Cell::Null, Cell::Null) => Some((0, 0)),
        _ => in_one_object(left, right),
    }
}

// Checks that two pointers point into the same object, as an operation requires (C11 6.5.6, paragraph 9; 6.5.8, paragraph 5).
fn in_relation(place: Place, offsets: Option<(i128, i128)>) -> Result<(i128, i128), Stop>
    ensures ok { IfOk result (λ both. offsets ≡ Some both) }
    ensures err { IfErr result (λ stop.
        (offsets ≡ None) × (stop ≡ Stop.Outcome (Outcome.Fault Kind.Unrelated place))) }
{
    offsets.ok_or(fault(Kind::Unrelated, place))
}

// Whether a comparison is for order.
fn asks_order(operator: CmpOp) -> bool
    ensures { result ≡ operators.asks_order operator }
{
    !matches!(operator, CmpOp::Equal | CmpOp::Differs)
}

// Returns the result of `==` or `!=` for equal, or different, pointers.
fn equality_of(operator: CmpOp, same: bool) -> bool
    ensures { result ≡ operators.equality_of operator same }
{
    if matches!(operator, CmpOp::Equal) {
        same
    } else {
        !same
    }
}
