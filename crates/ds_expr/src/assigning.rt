//! Assigning a value of an expression to a field.

ghost use Rattle.std.specs.Prelude.{◌≡◌, ◌≤◌, true, length, IfOk};
ghost use Rattle.ds_value.specs.Kinds.{IsBits, IsKind};
ghost use Rattle.ds_value.specs.Spellings.{filled};
ghost use Rattle.expr_table.specs.declared.entry.Shape.TheVariants as shape;
ghost use Rattle.expr_table.specs.Calls.{Answers};
ghost use Rattle.ds_expr.specs.Assigning.{Assignable, assigned, assigned_decimal, assigned_number, assigned_text, assigned_unsigned, assigned_whole, can_assign, fitting};

use ds_schema::Field;
use ds_value::{Bytes, Kind, NoMemory, Value, fits};
use expr_table::{Arg, EvalFault, Shape};

/// Whether values of this shape and scale can be assigned to a field of the kind.
pub fn can_assign(shape: Shape, scale: u8, kind: &Kind) -> bool
    ensures { result ≡ can_assign shape scale kind.now }
{
    match (shape, kind) {
        (Shape::Num, Kind::Int(_)) | (Shape::Num, Kind::UInt(_)) => scale == 0,
        (Shape::Num, Kind::Dec { s, .. }) => scale <= *s,
        (Shape::Text, Kind::Text { .. }) | (Shape::Date, Kind::Date) => true,
        _ => false,
    }
}

fn fitting(kind: &Kind, value: Value) -> Result<Value, EvalFault>
    requires { IsKind kind.now }
    ensures { result ≡ fitting kind.now value }
{
    if fits(kind, &value) {
        Ok(value)
    } else {
        Err(EvalFault::Overflow)
    }
}

fn whole(bits: u8, n: i128) -> Result<Value, EvalFault>
    requires { IsBits bits }
    ensures { result ≡ assigned_whole bits n }
{
    match i64::try_from(n) {
        Ok(n) => fitting(&Kind::Int(bits), Value::Int(n)),
        Err(_) => Err(EvalFault::Overflow),
    }
}

fn unsigned(bits: u8, n: i128) -> Result<Value, EvalFault>
    requires { IsBits bits }
    ensures { result ≡ assigned_unsigned bits n }
{
    match u64::try_from(n) {
        Ok(n) => fitting(&Kind::UInt(bits), Value::UInt(n)),
        Err(_) => Err(EvalFault::Overflow),
    }
}

fn decimal(p: u8, s: u8, scale: u8, n: i128) -> Result<Value, EvalFault>
    requires digits { p ≤ 38 }
    requires some { 1 ≤ p }
    requires places { s ≤ p }
    requires less { scale ≤ s }
    ensures { result ≡ assigned_decimal p s scale n }
{
    let factor = 10_i128.pow(u32::from(s - scale));
    match n.checked_mul(factor) {
        Some(units) => fitting(&Kind::Dec { p, s }, Value::Dec(units)),
        None => Err(EvalFault::Overflow),
    }
}

fn number(kind: &Kind, scale: u8, n: i128) -> Result<Value, EvalFault>
    requires kind { IsKind kind.now }
    requires assignable { can_assign shape.Num scale kind.now ≡ true }
    ensures { result ≡ assigned_number kind.now scale n }
{
    match kind {
        Kind::Int(bits) => whole(*bits, n),
        Kind::UInt(bits) => unsigned(*bits, n),
        Kind::Dec { p, s } => decimal(*p, *s, scale, n),
        _ => Err(EvalFault::NullUsed),
    }
}

/// The bytes filled with spaces to a length.
fn filled(len: usize, bytes: Bytes) -> Result<Bytes, NoMemory>
    requires { length bytes ≤ len }
    ensures { IfOk result (λ text. text ≡ filled len bytes) }
{
    let mut text = bytes;
    for _round in text.as_slice().len()..len {
        text.push(b' ')?;
    }
    Ok(text)
}

fn text(kind: &Kind, bytes: Bytes) -> Result<Value, EvalFault>
    ensures { Answers result (assigned_text kind.now bytes) }
{
    match kind {
        Kind::Text { max, fixed } => {
            let max = *max as usize;
            if bytes.as_slice().len() > max {
                return Err(EvalFault::TooLong);
            }
            if *fixed {
                return Ok(Value::Text(filled(max, bytes)?));
            }
            Ok(Value::Text(bytes))
        }
        _ => Err(EvalFault::NullUsed),
    }
}

/// The field's value. A text isn't cut, and one of fixed length is filled with spaces.
pub fn assign(arg: Arg, field: &Field, scale: u8) -> Result<Value, EvalFault>
    requires kind { IsKind field.now.kind }
    requires assignable { Assignable field.now.kind scale arg }
    ensures { Answers result (assigned field.now scale arg) }
{
    match arg {
        Arg::Null => if field.nullable {
            Ok(Value::Null)
        } else {
            Err(EvalFault::NullUsed)
        },
        Arg::Num(n) => number(&field.kind, scale, n),
        Arg::Text(bytes) => text(&field.kind, bytes),
        Arg::Date(day) => Ok(Value::Date(day)),
        Arg::Truth(_) => Err(EvalFault::NullUsed),
    }
}
