//! Values of expressions.
ghost use Rattle.std.specs.Prelude.{◌≡◌, Ok};
ghost use Rattle.hpr_syntax.specs.Values.{elements_in, value_at};
ghost use Rattle.hpr_syntax.specs.Value.{value, term_value, apply_unary, apply_binary, truth, as_index, element_at};
ghost use Rattle.hpr_run.specs.Faults.{answer_of};

use crate::state::State;
use hpr_syntax::{Binary, Expr, Name, Operand, Unary};

/// Why a part gives nothing.
#[derive(Clone, Copy, Debug, PartialEq, Eq)]
pub enum Fault {
    /// A result leaves the range of i64; `/` and `%` of the least i64 by -1 among them.
    Overflow,
    /// The right operand of `/` or `%` is 0.
    ZeroDivide,
    /// As many numbers were written as may be, [`MAX_WRITTEN`](hpr_terms::limits::MAX_WRITTEN).
    OutputFull,
    /// An index isn't 0 to 65,535, the last one of [`ELEMENTS`](hpr_terms::limits::ELEMENTS).
    IndexRange,
}

/// The number of an expression in a state, or its fault. It takes no memory.
///
/// Both operands of an operator are evaluated, the left one first, so that a fault of the left
/// comes before one of the right, and that before the operator's own. An element's index is evaluated first, and
/// then its range is tested. `/` truncates toward zero, and `%` has the sign of its left operand. A test gives 1 or
/// 0; `and`, `or` and `not` take every number but 0 as true.
#[cycle(eval)]
pub fn eval(expr: &Expr, state: &State) -> Result<i64, Fault>
    ensures { answer_of result ≡ value expr.now state.now }
{
    match expr {
        Expr::Num(literal) => Ok(literal.value()),
        Expr::Var(name) => Ok(state.get(name)),
        Expr::Prefix(op, operand) => eval_unary(*op, eval_operand(operand, state)?),
        Expr::Infix(op, left, right) => {
            let x = eval_operand(left, state)?;
            let y = eval_operand(right, state)?;
            eval_binary(*op, x, y)
        }
        Expr::Elem(array, operand) => eval_element(array, eval_operand(operand, state)?, state),
    }
}

#[cycle(eval)]
fn eval_operand(operand: &Operand, state: &State) -> Result<i64, Fault>
    ensures { answer_of result ≡ term_value operand.now state.now }
{
    eval(operand.expr(), state)
}

fn eval_unary(op: Unary, x: i64) -> Result<i64, Fault>
    ensures { answer_of result ≡ apply_unary op x }
{
    match op {
        Unary::Neg => x.checked_neg().ok_or(Fault::Overflow),
        Unary::Not => Ok(truth(x == 0)),
    }
}

fn eval_binary(op: Binary, x: i64, y: i64) -> Result<i64, Fault>
    ensures { answer_of result ≡ apply_binary op x y }
{
    match op {
        Binary::Or => Ok(truth(x != 0 || y != 0)),
        Binary::And => Ok(truth(x != 0 && y != 0)),
        Binary::Equal => Ok(truth(x == y)),
        Binary::Differ => Ok(truth(x != y)),
        Binary::Less => Ok(truth(x < y)),
        Binary::LessEqual => Ok(truth(x <= y)),
        Binary::Greater => Ok(truth(x > y)),
        Binary::GreaterEqual => Ok(truth(x >= y)),
        Binary::Add => x.checked_add(y).ok_or(Fault::Overflow),
        Binary::Sub => x.checked_sub(y).ok_or(Fault::Overflow),
        Binary::Mul => x.checked_mul(y).ok_or(Fault::Overflow),
        Binary::Div => divide(x, y),
        Binary::Rem => remainder(x, y),
    }
}

#[inline(never)]
fn eval_element(array: &Name, number: i64, state: &State) -> Result<i64, Fault>
    ensures { answer_of result ≡ element_at number (elements_in (value_at state.now array.now)) }
{
    match index(number) {
        Some(at) => Ok(state.element(array, at)),
        None => Err(Fault::IndexRange),
    }
}

/// The index that the number is, if it is one.
pub(crate) fn index(number: i64) -> Option<u16>
    ensures { result ≡ as_index number }
{
    u16::try_from(number).ok()
}

fn truth(holds: bool) -> i64
    ensures { Ok result ≡ truth holds }
{
    if holds { 1 } else { 0 }
}

fn divide(x: i64, y: i64) -> Result<i64, Fault>
    ensures { answer_of result ≡ apply_binary Binary.Div x y }
{
    if y == 0 {
        return Err(Fault::ZeroDivide);
    }
    x.checked_div(y).ok_or(Fault::Overflow)
}

fn remainder(x: i64, y: i64) -> Result<i64, Fault>
    ensures { answer_of result ≡ apply_binary Binary.Rem x y }
{
    if y == 0 {
        return Err(Fault::ZeroDivide);
    }
    x.checked_rem(y).ok_or(Fault::Overflow)
}
