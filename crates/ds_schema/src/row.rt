ghost use Rattle.std.specs.Prelude.{◌≡◌, All, IfOk};
ghost use Rattle.ds_schema.specs.Rows.{val, InWidth};

use ds_value::{Copied, NoMemory, Value};
use std::alloc::Global;
use std::marker::Model;

/// A record's values, one per column.
#[derive(Debug, Drop)]
pub struct Row {
    values: Vec<Value>,
}

impl Model for Row {
    ghost use Rattle.std.specs.Prelude.{List};
    ghost use Rattle.ds_value.specs.declared.value.Value.{Value as Cell};

    ghost Value = { List Cell };

    ghost view = { λ r. r.values.items };
}

impl Row {
    pub fn from_vec(values: Vec<Value>) -> Row
        ensures { result ≡ values.items }
    {
        Row { values }
    }

    pub fn into_vec(self) -> Vec<Value>
        ensures { result.items ≡ self }
    {
        let Row { values } = self;
        values
    }

    pub fn as_slice(&self) -> &[Value]
        ensures { result.now ≡ self.now }
    {
        self.values.as_slice()
    }
}

/// An equal row.
pub fn copy_row(alloc: Global, row: &Row) -> Result<Row, NoMemory>
    ensures { IfOk result (λ copy. copy ≡ row.now) }
{
    let mut values = Vec::with_capacity(alloc, row.values.len())?;
    for value in &row.values {
        values.push(value.copied()?)?;
    }
    Ok(Row { values })
}

/// The row of the values in some columns.
pub fn project(alloc: Global, row: &Row, cols: &[u32]) -> Result<Row, NoMemory>
    requires { All (InWidth row.now) cols.now }
    ensures { IfOk result (λ part. part ≡ val cols.now row.now) }
{
    let mut values = Vec::with_capacity(alloc, cols.len())?;
    for col in cols {
        values.push(row.values[*col as usize].copied()?)?;
    }
    Ok(Row { values })
}
