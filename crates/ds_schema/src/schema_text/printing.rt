//! Printing a schema.

ghost use Rattle.std.specs.Prelude.{◌≡◌, ◌++◌, IfOk, OnOk, string_bytes};
ghost use Rattle.ds_schema.specs.SchemaText.{kind_text, nullable_text, field_text, schema_text};

use crate::{Field, Schema};
use ds_value::{Bytes, Kind, NoMemory};
use std::alloc::{AllocError, Global};

fn kind_text(alloc: Global, kind: Kind) -> Result<String, AllocError>
    ensures { IfOk result (λ text. string_bytes text ≡ kind_text kind) }
{
    match kind {
        Kind::Int(bits) => format!(in alloc; "int{bits}"),
        Kind::UInt(bits) => format!(in alloc; "uint{bits}"),
        Kind::Dec { p, s } => format!(in alloc; "decimal[{p},{s}]"),
        Kind::Text { max, fixed: true } => format!(in alloc; "string[{max}]"),
        Kind::Text { max, fixed: false } => format!(in alloc; "string[max={max}]"),
        Kind::Date => format!(in alloc; "date"),
    }
}

fn nullable_text(nullable: bool) -> &'static [u8]
    ensures { result.now ≡ nullable_text nullable }
{
    if nullable { b"nullable " } else { b"" }
}

fn append_field(alloc: Global, text: &mut Bytes, field: &Field) -> Result<(), NoMemory>
    ensures { OnOk result (text.new ≡ text.old ++ field_text field.now) }
{
    let kind = kind_text(alloc, field.kind)?;
    text.append(field.name.as_slice())?;
    text.append(b": ")?;
    text.append(nullable_text(field.nullable))?;
    text.append(kind.as_bytes())?;
    text.append(b"; ")?;
    Ok(())
}

/// The one spelling of a schema.
pub fn print_schema(alloc: Global, schema: &Schema) -> Result<Bytes, NoMemory>
    ensures { IfOk result (λ text. text ≡ schema_text schema.now) }
{
    let mut text = Bytes::new(alloc);
    text.append(b"record ( ")?;
    for field in schema.as_slice() {
        append_field(alloc, &mut text, field)?;
    }
    text.append(b")")?;
    Ok(text)
}
