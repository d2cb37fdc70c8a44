ghost use Rattle.std.specs.Prelude.{◌≡◌, ◌≤◌, ◌<◌, ◌^◌, ◌+◌, nat_le, length};
ghost use Rattle.shape_base.specs.Widths.{widest, widest_row, has_double, is_narrow, fields_cause};

use crate::ShapeWhy;
use crate::naming::has_column;
use ds_schema::Field;
use ds_value::Kind;

/// The greatest number of canonical bytes of a row.
const WIDEST_ROW: u64 = 2_097_152;

fn widest(kind: Kind) -> u64
    ensures bytes { result ≡ widest kind }
    ensures few { result < 2 ^ 33 }
{
    match kind {
        Kind::Int(_) | Kind::UInt(_) => 9,
        Kind::Dec { .. } => 17,
        Kind::Text { max, .. } => 5 + u64::from(max),
        Kind::Date => 5,
    }
}

/// Whether no row of these fields has too many canonical bytes.
fn is_short(fields: &[Field]) -> bool
    ensures { result ≡ nat_le (widest_row fields.now) 2097152 }
{
    let mut bytes = 0;
    for field in fields {
        bytes += widest(field.kind);
        if bytes > WIDEST_ROW {
            return false;
        }
    }
    true
}

fn is_narrow(fields: &[Field]) -> bool
    ensures { result ≡ is_narrow fields.now }
{
    1 <= fields.len() && fields.len() <= 256 && is_short(fields)
}

/// Whether two fields have one name.
fn has_double(fields: &[Field]) -> bool
    ensures { result ≡ has_double fields.now }
{
    for (i, field) in fields.iter().enumerate() {
        if has_column(&fields[i + 1..], &field.name) {
            return true;
        }
    }
    false
}

/// What is wrong with the fields of an output.
pub fn fields_cause(fields: &[Field]) -> Option<ShapeWhy>
    ensures { result ≡ fields_cause fields.now }
{
    if has_double(fields) {
        return Some(ShapeWhy::Double);
    }
    if !is_narrow(fields) {
        return Some(ShapeWhy::Wide);
    }
    None
}
