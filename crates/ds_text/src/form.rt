ghost use Rattle.std.specs.Prelude.{◌≡◌, ◌↔◌, IsTrue};
ghost use Rattle.ds_text.specs.Forms.{IsDelimiter, IsWidth, AreWidths, FormFits};

use ds_schema::{Field, Schema};
use ds_value::{Copied, Items, NoMemory};

/// How a record is text: fields between delimiters, or columns of a width each, in bytes.
#[derive(Debug, Drop)]
pub enum Form {
    Delimited(u8),
    Fixed(Items<u32>),
}

impl Copied for Form {
    fn copied(&self) -> Result<Form, NoMemory> {
        match self {
            Form::Delimited(delimiter) => Ok(Form::Delimited(*delimiter)),
            Form::Fixed(widths) => Ok(Form::Fixed(widths.copied()?)),
        }
    }
}

/// Whether a byte may stand between fields.
fn is_delimiter(byte: u8) -> bool
    ensures { IsTrue result ↔ IsDelimiter byte }
{
    byte != b'\n' && byte != b'\r' && byte != b'"'
}

/// Whether a column may have this width.
fn is_width(width: u32) -> bool
    ensures { IsTrue result ↔ IsWidth width }
{
    1 <= width && width <= 65_536
}

/// Whether there is one width for each field.
fn are_widths(fields: &[Field], widths: &[u32]) -> bool
    ensures { IsTrue result ↔ AreWidths fields.now widths.now }
{
    widths.len() == fields.len() && widths.iter().all(|width| is_width(*width))
}

/// Whether a form suits a schema.
pub fn form_fits(schema: &Schema, form: &Form) -> bool
    ensures { IsTrue result ↔ FormFits schema.now form.now }
{
    match form {
        Form::Delimited(delimiter) => is_delimiter(*delimiter),
        Form::Fixed(widths) => are_widths(schema.as_slice(), widths.as_slice()),
    }
}
