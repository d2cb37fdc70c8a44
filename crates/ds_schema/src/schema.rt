ghost use Rattle.std.specs.Prelude.{◌≡◌, ◌≤◌, length, IfOk};
ghost use Rattle.ds_value.specs.Kinds.{IsKind};
ghost use Rattle.ds_schema.specs.Schemas.{IsSchema, fits_field, row_fits, IsField};

use crate::Row;
use ds_value::{Copied, Items, Kind, Name, NoMemory, Value, copied_items, fits};
use std::alloc::Global;
use std::marker::Model;

#[derive(Debug, Drop)]
pub struct Field {
    pub name: Name,
    pub nullable: bool,
    pub kind: Kind,
}

/// The columns of a record: 1 to 256 fields of different names.
#[derive(Debug, Drop)]
pub struct Schema {
    fields: Vec<Field>,
}

impl Model for Schema {
    ghost use Rattle.std.specs.Prelude.{List};
    ghost use Rattle.ds_schema.specs.declared.schema.Field.{Field};
    ghost use Rattle.ds_schema.specs.Schemas.{IsSchema};

    ghost Value = { List Field };

    ghost view = { λ s. s.fields.items };

    ghost invariant = { λ s. IsSchema s.fields.items };
}

impl Copied for Field {
    fn copied(&self) -> Result<Field, NoMemory> {
        Ok(Field {
            name: self.name.copied()?,
            nullable: self.nullable,
            kind: self.kind,
        })
    }
}

impl Schema {
    pub fn from_vec(fields: Vec<Field>) -> Schema
        requires { IsSchema fields.items }
        ensures { result ≡ fields.items }
    {
        Schema { fields }
    }

    pub fn as_slice(&self) -> &[Field]
        ensures fields { result.now ≡ self.now }
        ensures schema { IsSchema self.now }
    {
        self.fields.as_slice()
    }

    pub fn copied(&self) -> Result<Schema, NoMemory>
        ensures { IfOk result (λ copy. copy ≡ self.now) }
    {
        let mut copies = Vec::new(*self.fields.allocator());
        for field in &self.fields {
            copies.push(field.copied()?)?;
        }
        Ok(Schema { fields: copies })
    }
}

impl Copied for Schema {
    fn copied(&self) -> Result<Schema, NoMemory> {
        Schema::copied(self)
    }
}

fn fits_field(field: &Field, value: &Value) -> bool
    requires { IsKind field.now.kind }
    ensures { result ≡ fits_field field.now value.now }
{
    match value {
        Value::Null => field.nullable,
        _ => fits(&field.kind, value),
    }
}

/// Whether the row has one value for each field, which fits it.
pub fn row_fits(schema: &Schema, row: &Row) -> bool
    ensures { result ≡ row_fits schema.now row.now }
{
    let fields = schema.as_slice();
    let values = row.as_slice();
    if fields.len() != values.len() {
        return false;
    }
    for (i, field) in fields.iter().enumerate() {
        if !fits_field(field, &values[i]) {
            return false;
        }
    }
    true
}
