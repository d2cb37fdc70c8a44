ghost use Rattle.std.specs.Prelude.{◌≡◌, ◌<◌, ◌+◌, ◌*◌, ◌^◌, ◌+ℤ◌, ◌++◌, List, true, []};
ghost use Rattle.ds_value.specs.declared.value.Value.{Value as Cell};
ghost use Rattle.ds_value.specs.Values.{number};
ghost use Rattle.op_group.specs.Results.{as_int, as_uint};
ghost use Rattle.op_group.specs.Groups.{is_summable};
ghost use Rattle.op_group.specs.Kept.{IsWithin, SumStands, number_kind, kept_sum, shown, wider};

use ds_value::Value;

/// The variants of values that are summed.
#[derive(Clone, Copy, Debug, PartialEq, Eq)]
pub enum Number {
    Int,
    UInt,
    Dec,
}

/// The exact sum of a column so far, and its variant once there is a value.
#[derive(Debug, Drop)]
pub struct Sum {
    pub col: u32,
    pub kind: Option<Number>,
    pub total: i128,
}

fn number_kind(value: &Value) -> Option<Number>
    ensures { result ≡ number_kind value.now }
{
    match value {
        Value::Int(_) => Some(Number::Int),
        Value::UInt(_) => Some(Number::UInt),
        Value::Dec(_) => Some(Number::Dec),
        _ => None,
    }
}

/// The variant of a sum of values of these two.
fn wider(kind: Option<Number>, more: Option<Number>) -> Option<Number>
    ensures { result ≡ wider kind more }
{
    match kind {
        None => more,
        Some(Number::Int) => match more {
            None => Some(Number::Int),
            Some(other) => Some(other),
        },
        Some(Number::UInt) => match more {
            Some(Number::Dec) => Some(Number::Dec),
            _ => Some(Number::UInt),
        },
        Some(Number::Dec) => Some(Number::Dec),
    }
}

/// The number that a value adds. A null adds nothing.
fn amount(value: &Value) -> i128
    requires { is_summable value.now ≡ true }
    ensures number { result ≡ number value.now }
    ensures within { IsWithin (2 ^ 64) result }
{
    match value {
        Value::Int(n) => i128::from(*n),
        Value::UInt(n) => i128::from(*n),
        Value::Dec(n) => *n,
        _ => 0,
    }
}

/// The sum of a total of so many values and one more.
fn plus(total: i128, more: i128, before: u64) -> i128
    requires few { before < 2 ^ 62 }
    requires total { IsWithin (before * 2 ^ 64) total }
    requires more { IsWithin (2 ^ 64) more }
    ensures sum { result ≡ total +ℤ more }
    ensures within { IsWithin ((before + 1) * 2 ^ 64) result }
{
    total + more
}

fn as_int(total: i128) -> Option<Value>
    ensures { result ≡ as_int total }
{
    if total >= i128::from(i64::MIN) && total <= i128::from(i64::MAX) {
        Some(Value::Int(total as i64))
    } else {
        None
    }
}

fn as_uint(total: i128) -> Option<Value>
    ensures { result ≡ as_uint total }
{
    if total >= 0 && total <= i128::from(u64::MAX) {
        Some(Value::UInt(total as u64))
    } else {
        None
    }
}

impl Sum {
    pub fn new(col: u32) -> Sum
        ensures col { result.col ≡ col }
        ensures stands { SumStands 0 [] result }
    {
        Sum {
            col,
            kind: None,
            total: 0,
        }
    }

    /// Adds the value of one row after `before` others.
    pub fn add(&mut self, value: &Value, before: u64)
        requires few { before < 2 ^ 62 }
        requires summable { is_summable value.now ≡ true }
        requires total { IsWithin (before * 2 ^ 64) self.old.total }
        ensures col { self.new.col ≡ self.old.col }
        ensures stands { (values : List Cell) → SumStands before values self.old → SumStands (before + 1) (values ++ shown value.now) self.new }
    {
        self.total = plus(self.total, amount(value), before);
        self.kind = wider(self.kind, number_kind(value));
    }

    /// The sum as a value, or nothing where it doesn't fit its variant.
    pub fn value(self) -> Option<Value>
        ensures { result ≡ kept_sum self.kind self.total }
    {
        match self.kind {
            None => Some(Value::Null),
            Some(Number::Int) => as_int(self.total),
            Some(Number::UInt) => as_uint(self.total),
            Some(Number::Dec) => Some(Value::Dec(self.total)),
        }
    }
}
