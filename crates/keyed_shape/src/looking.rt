//! The columns of a lookup: the main ones, then the reference's others.

ghost use Rattle.std.specs.Prelude.{◌≡◌, ◌<◌, ◌^◌, ◌++◌, ◌∷◌, [], length, map, None, IfOk};
ghost use Rattle.shape_base.specs.Causes.{first_cause};
ghost use Rattle.shape_base.specs.Fields.{made_or_rejected};
ghost use Rattle.shape_base.specs.Widths.{fields_cause};
ghost use Rattle.keyed_shape.specs.Keyed.{both_cause, main_field, continues, lookup_fields};

use crate::joining::both_cause;
use crate::keying::{is_key, is_nullable, nullable_if, push_others};
use ds_schema::{Field, Schema};
use ds_value::{Copied, Name, NoMemory};
use op_base::Missing;
use shape_base::{ShapeWhy, fields_cause};
use std::alloc::Global;

/// A main column; a key may be null where it may on either side.
fn main_field(key: &[(Name, bool)], reference: &[Field], field: &Field) -> Result<Field, NoMemory>
    ensures { IfOk result (λ made. made ≡ main_field key.now reference.now field.now) }
{
    let test = is_key(key, &field.name) && is_nullable(reference, &field.name);
    nullable_if(test, field)
}

fn main_fields(
    alloc: Global,
    key: &[(Name, bool)],
    main: &[Field],
    reference: &[Field],
) -> Result<Vec<Field>, NoMemory>
    ensures { IfOk result (λ made. made.items ≡ map (main_field key.now reference.now) main.now) }
{
    let mut made = Vec::new(alloc);
    for field in main {
        made.push(main_field(key, reference, field)?)?;
    }
    Ok(made)
}

/// Whether rows without a reference row go on.
fn continues(missing: Missing) -> bool
    ensures { result ≡ continues missing }
{
    match missing {
        Missing::Continue => true,
        Missing::Drop | Missing::Fail | Missing::Reject => false,
    }
}

fn lookup_fields(
    alloc: Global,
    key: &[(Name, bool)],
    missing: Missing,
    main: &[Field],
    reference: &[Field],
) -> Result<Vec<Field>, NoMemory>
    requires { length reference.now < 2 ^ 32 }
    ensures { IfOk result (λ made. made.items ≡ lookup_fields key.now missing main.now reference.now) }
{
    let mut made = main_fields(alloc, key, main, reference)?;
    push_others(alloc, &mut made, key, continues(missing), reference)?;
    Ok(made)
}

/// What is wrong at a lookup.
pub fn lookup_cause(
    alloc: Global,
    key: &[(Name, bool)],
    missing: Missing,
    main: &Schema,
    reference: &Schema,
) -> Result<Option<ShapeWhy>, NoMemory>
    ensures { IfOk result (λ cause. cause ≡ first_cause (both_cause key.now main.now reference.now ∷ (fields_cause (lookup_fields key.now missing main.now reference.now) ∷ []))) }
{
    if let Some(why) = both_cause(key, main.as_slice(), reference.as_slice()) {
        return Ok(Some(why));
    }
    let made = lookup_fields(alloc, key, missing, main.as_slice(), reference.as_slice())?;
    Ok(fields_cause(made.as_slice()))
}

/// The schema of rows with what was found for them, or of those that are rejected.
pub fn lookup_schema(
    alloc: Global,
    key: &[(Name, bool)],
    missing: Missing,
    main: &Schema,
    reference: &Schema,
    out: u32,
) -> Result<Schema, NoMemory>
    requires { first_cause (both_cause key.now main.now reference.now ∷ (fields_cause (lookup_fields key.now missing main.now reference.now) ∷ [])) ≡ None }
    ensures { IfOk result (λ schema. schema ≡ made_or_rejected (lookup_fields key.now missing main.now reference.now) main.now out) }
{
    if out != 0 {
        return main.copied();
    }
    let fields = lookup_fields(alloc, key, missing, main.as_slice(), reference.as_slice())?;
    Ok(Schema::from_vec(fields))
}
