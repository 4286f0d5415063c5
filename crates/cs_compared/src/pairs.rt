//! The operands of operations.
ghost use Rattle.std.specs.Prelude.{◌≡◌, IfSome, Some};
ghost use Rattle.cs_events.specs.declared.operation.Operation.TheVariants as operation;
ghost use Rattle.cs_findings.specs.Operands as specs;
ghost use Rattle.cs_compared.specs.Guessable.{IsGuessable};

use cs_ast::typed::operator::{BinOp, CmpOp};
use cs_events::Operation;
use cs_types::IntType;

/// Returns the two operands of an operation; the second is 0 if it has only one.
pub fn operands(operation: &Operation) -> (i128, i128)
    ensures { result ≡ specs.operands operation.now }
{
    match *operation {
        Operation::Binary(_, _, left, right) => (left, right),
        Operation::Unary(_, _, operand) => (operand, 0),
        Operation::Convert(_, number) => (number, 0),
        Operation::Compare(_, left, right) => (left, right),
        Operation::Order(first, second) => (first, second),
        Operation::Product(count, size) => (count, size),
        Operation::Sum(offset, amount, _) => (offset, amount),
        Operation::Difference(left, right, _) => (left, right),
        Operation::Show(_) => (0, 0),
    }
}

/// Returns the operands of another operation, if it differs only in them and its result may be guessed.
pub fn operands_of_same(operation: &Operation, other: &Operation) -> Option<(i128, i128)>
    ensures same { IfSome result (λ pair. other.now ≡ specs.with_operands operation.now pair) }
    ensures operands { IfSome result (λ pair. specs.operands other.now ≡ pair) }
    ensures found { let pair = specs.operands other.now in IsGuessable operation.now
        → other.now ≡ specs.with_operands operation.now pair → result ≡ Some pair }
{
    match *operation {
        Operation::Binary(operator, ty, _, _) => of_binary(operator, ty, other),
        Operation::Convert(ty, _) => of_conversion(ty, other),
        Operation::Compare(operator, _, _) => of_comparison(operator, other),
        Operation::Order(_, _) => of_order_test(other),
        Operation::Product(_, _) => of_product(other),
        Operation::Sum(_, _, size) => of_sum(size, other),
        Operation::Difference(_, _, size) => of_difference(size, other),
        Operation::Unary(_, _, _) => None,
        Operation::Show(_) => None,
    }
}

fn of_binary(operator: BinOp, ty: IntType, other: &Operation) -> Option<(i128, i128)>
    ensures same { IfSome result (λ pair. other.now ≡ operation.Binary operator ty pair.0 pair.1) }
    ensures operands { IfSome result (λ pair. specs.operands other.now ≡ pair) }
    ensures found { let pair = specs.operands other.now in
        other.now ≡ operation.Binary operator ty pair.0 pair.1 → result ≡ Some pair }
{
    match *other {
        Operation::Binary(its_operator, its_ty, left, right) => {
            let same = its_operator == operator && its_ty == ty;
            if same { Some((left, right)) } else { None }
        }
        _ => None,
    }
}

fn of_conversion(ty: IntType, other: &Operation) -> Option<(i128, i128)>
    ensures same { IfSome result (λ pair. other.now ≡ operation.Convert ty pair.0) }
    ensures operands { IfSome result (λ pair. specs.operands other.now ≡ pair) }
    ensures found { let pair = specs.operands other.now in
        other.now ≡ operation.Convert ty pair.0 → result ≡ Some pair }
{
    match *other {
        Operation::Convert(its_ty, number) => {
            if its_ty == ty {
                Some((number, 0))
            } else {
                None
            }
        }
        _ => None,
    }
}

fn of_comparison(operator: CmpOp, other: &Operation) -> Option<(i128, i128)>
    ensures same { IfSome result (λ pair. other.now ≡ operation.Compare operator pair.0 pair.1) }
    ensures operands { IfSome result (λ pair. specs.operands other.now ≡ pair) }
    ensures found { let pair = specs.operands other.now in
        other.now ≡ operation.Compare operator pair.0 pair.1 → result ≡ Some pair }
{
    match *other {
        Operation::Compare(its_operator, left, right) => {
            if its_operator == operator {
                Some((left, right))
            } else {
                None
            }
        }
        _ => None,
    }
}

fn of_order_test(other: &Operation) -> Option<(i128, i128)>
    ensures same { IfSome result (λ pair. other.now ≡ operation.Order pair.0 pair.1) }
    ensures operands { IfSome result (λ pair. specs.operands other.now ≡ pair) }
    ensures found { let pair = specs.operands other.now in
        other.now ≡ operation.Order pair.0 pair.1 → result ≡ Some pair }
{
    match *other {
        Operation::Order(first, second) => Some((first, second)),
        _ => None,
    }
}

fn of_product(other: &Operation) -> Option<(i128, i128)>
    ensures same { IfSome result (λ pair. other.now ≡ operation.Product pair.0 pair.1) }
    ensures operands { IfSome result (λ pair. specs.operands other.now ≡ pair) }
    ensures found { let pair = specs.operands other.now in
        other.now ≡ operation.Product pair.0 pair.1 → result ≡ Some pair }
{
    match *other {
        Operation::Product(count, size) => Some((count, size)),
        _ => None,
    }
}

fn of_sum(size: u64, other: &Operation) -> Option<(i128, i128)>
    ensures same { IfSome result (λ pair. other.now ≡ operation.Sum pair.0 pair.1 size) }
    ensures operands { IfSome result (λ pair. specs.operands other.now ≡ pair) }
    ensures found { let pair = specs.operands other.now in
        other.now ≡ operation.Sum pair.0 pair.1 size → result ≡ Some pair }
{
    match *other {
        Operation::Sum(offset, amount, its_size) => {
            if its_size == size {
                Some((offset, amount))
            } else {
                None
            }
        }
        _ => None,
    }
}

fn of_difference(size: u64, other: &Operation) -> Option<(i128, i128)>
    ensures same { IfSome result (λ pair. other.now ≡ operation.Difference pair.0 pair.1 size) }
    ensures operands { IfSome result (λ pair. specs.operands other.now ≡ pair) }
    ensures found { let pair = specs.operands other.now in
        other.now ≡ operation.Difference pair.0 pair.1 size → result ≡ Some pair }
{
    match *other {
        Operation::Difference(left, right, its_size) => {
            if its_size == size {
                Some((left, right))
            } else {
                None
            }
        }
        _ => None,
    }
}
