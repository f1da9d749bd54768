//! The operations on numbers of 64 bits.

ghost use Rattle.std.specs.Prelude.{◌≡◌};
ghost use Rattle.tp_meaning.specs.Arith.{bounded, unary_value, binary_value, distance};
ghost use Rattle.tp_meaning.specs.declared.evaluables.BinaryOperation.TheVariants as binary;
ghost use Rattle.tp_arith.specs.Errors.{told};

use crate::stop::EvaluationError;
use tp_meaning::{BinaryOperation, UnaryOperation};

/// A number of 64 bits, which is a result as it is.
fn within(value: i64) -> Result<i64, EvaluationError>
    ensures { told result ≡ bounded value }
{
    Ok(value)
}

/// The value of an operation on one number.
pub fn unary(operation: UnaryOperation, x: i64) -> Result<i64, EvaluationError>
    ensures { told result ≡ unary_value operation x }
{
    match operation {
        UnaryOperation::Negate => x.checked_neg().ok_or(EvaluationError::Overflow),
        UnaryOperation::BitNot => within(!x),
        UnaryOperation::Abs => x.checked_abs().ok_or(EvaluationError::Overflow),
        UnaryOperation::Sign => within(x.signum()),
    }
}

/// The quotient toward zero.
fn quotient(x: i64, y: i64) -> Result<i64, EvaluationError>
    ensures { told result ≡ binary_value binary.Quotient x y }
{
    if y == 0 {
        return Err(EvaluationError::ZeroDivisor);
    }
    x.checked_div(y).ok_or(EvaluationError::Overflow)
}

/// The quotient toward minus infinity. Where the signs differ, the quotient toward zero of the
/// number next to `x` toward zero is one more.
fn floor_quotient(x: i64, y: i64) -> Result<i64, EvaluationError>
    ensures { told result ≡ binary_value binary.FloorQuotient x y }
{
    if y == 0 {
        return Err(EvaluationError::ZeroDivisor);
    }
    if x < 0 && 0 < y {
        within((x + 1) / y - 1)
    } else if 0 < x && y < 0 {
        within((x - 1) / y - 1)
    } else {
        quotient(x, y)
    }
}

/// What the quotient toward minus infinity leaves: it has the sign of `y`.
fn modulus(x: i64, y: i64) -> Result<i64, EvaluationError>
    ensures { told result ≡ binary_value binary.Modulus x y }
{
    if y == 0 {
        return Err(EvaluationError::ZeroDivisor);
    }
    if x < 0 && 0 < y {
        within((x + 1) % y + (y - 1))
    } else if 0 < x && y < 0 {
        within((x - 1) % y + (y + 1))
    } else {
        within(x.wrapping_rem(y))
    }
}

/// What the quotient toward zero leaves: it has the sign of `x`.
fn remainder(x: i64, y: i64) -> Result<i64, EvaluationError>
    ensures { told result ≡ binary_value binary.Remainder x y }
{
    if y == 0 {
        return Err(EvaluationError::ZeroDivisor);
    }
    within(x.wrapping_rem(y))
}

/// How many bits a number is shifted by.
fn shift_distance(y: i64) -> Result<u32, EvaluationError>
    ensures { told result ≡ distance y }
{
    if 0 <= y && y <= 63 {
        Ok(y as u32)
    } else {
        Err(EvaluationError::Undefined)
    }
}

/// A number times 2 to the power of `y`, in two steps, since that power may be too large.
fn shift_left(x: i64, y: i64) -> Result<i64, EvaluationError>
    ensures { told result ≡ binary_value binary.ShiftLeft x y }
{
    let bits = shift_distance(y)?;
    let half = bits / 2;
    let Some(shifted) = x.checked_mul(2i64.pow(half)) else {
        return Err(EvaluationError::Overflow);
    };
    shifted
        .checked_mul(2i64.pow(bits - half))
        .ok_or(EvaluationError::Overflow)
}

/// A number divided by 2 to the power of `y`, toward minus infinity.
fn shift_right(x: i64, y: i64) -> Result<i64, EvaluationError>
    ensures { told result ≡ binary_value binary.ShiftRight x y }
{
    let bits = shift_distance(y)?;
    within(x >> bits)
}

/// The value of an operation on two numbers.
pub fn binary(operation: BinaryOperation, x: i64, y: i64) -> Result<i64, EvaluationError>
    ensures { told result ≡ binary_value operation x y }
{
    match operation {
        BinaryOperation::Add => x.checked_add(y).ok_or(EvaluationError::Overflow),
        BinaryOperation::Subtract => x.checked_sub(y).ok_or(EvaluationError::Overflow),
        BinaryOperation::Multiply => x.checked_mul(y).ok_or(EvaluationError::Overflow),
        BinaryOperation::Quotient => quotient(x, y),
        BinaryOperation::FloorQuotient => floor_quotient(x, y),
        BinaryOperation::Modulus => modulus(x, y),
        BinaryOperation::Remainder => remainder(x, y),
        BinaryOperation::BitAnd => within(x & y),
        BinaryOperation::BitOr => within(x | y),
        BinaryOperation::ShiftLeft => shift_left(x, y),
        BinaryOperation::ShiftRight => shift_right(x, y),
        BinaryOperation::Min => within(x.min(y)),
        BinaryOperation::Max => within(x.max(y)),
    }
}
