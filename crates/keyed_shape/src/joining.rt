//! The columns of the four joins: the keys, then the left's other columns, then the right's.

ghost use Rattle.std.specs.Prelude.{◌≡◌, ◌<◌, ◌^◌, ◌++◌, ◌∷◌, ◌&&◌, [], List, ℕ, Bool, length, map, true, None, IfOk};
ghost use Rattle.shape_base.specs.Causes.{first_cause};
ghost use Rattle.shape_base.specs.Naming.{has_column, has_keys};
ghost use Rattle.shape_base.specs.Widths.{fields_cause};
ghost use Rattle.keyed_shape.specs.Keyed.{same_flag, same_kind, kinds_agree, both_cause, field_named, joined_key, join_fields};

use crate::keying::{field_named, is_nullable, kind_of, nullable_if, push_others};
use ds_schema::{Field, Schema};
use ds_value::{Kind, Name, NoMemory};
use shape_base::naming::has_keys;
use shape_base::{ShapeWhy, fields_cause};
use std::alloc::Global;

/// Whose row may be missing where a row of the other side is given.
#[derive(Clone, Copy, Debug)]
pub struct Lost {
    pub left: bool,
    pub right: bool,
}

pub const INNER: Lost = Lost {
    left: false,
    right: false,
};

pub const LEFT_OUTER: Lost = Lost {
    left: false,
    right: true,
};

pub const RIGHT_OUTER: Lost = Lost {
    left: true,
    right: false,
};

pub const FULL_OUTER: Lost = Lost {
    left: true,
    right: true,
};

pub fn same_kind(a: Kind, b: Kind) -> bool
    ensures { result ≡ same_kind a b }
{
    match (a, b) {
        (Kind::Int(m), Kind::Int(n)) | (Kind::UInt(m), Kind::UInt(n)) => m == n,
        (Kind::Dec { p, s }, Kind::Dec { p: q, s: t }) => p == q && s == t,
        (
            Kind::Text { max, fixed },
            Kind::Text {
                max: other,
                fixed: also,
            },
        ) => max == other && fixed == also,
        (Kind::Date, Kind::Date) => true,
        _ => false,
    }
}

/// Whether the columns of that name are of one kind.
fn has_one_kind(left: &[Field], right: &[Field], name: &Name) -> bool
    ensures { result ≡ same_kind (field_named left.now name.now).kind (field_named right.now name.now).kind }
{
    same_kind(kind_of(left, name), kind_of(right, name))
}

pub fn kinds_agree(key: &[(Name, bool)], left: &[Field], right: &[Field]) -> bool
    ensures { result ≡ kinds_agree key.now left.now right.now }
{
    key.iter().all(|part| has_one_kind(left, right, &part.0))
}

/// What is wrong with keys on two inputs.
pub fn both_cause(key: &[(Name, bool)], left: &[Field], right: &[Field]) -> Option<ShapeWhy>
    ensures { result ≡ both_cause key.now left.now right.now }
{
    if !(has_keys(left, key) && has_keys(right, key)) {
        return Some(ShapeWhy::Field);
    }
    if !kinds_agree(key, left, right) {
        return Some(ShapeWhy::Kind);
    }
    None
}

/// What is wrong at a join.
pub fn join_cause(
    alloc: Global,
    key: &[(Name, bool)],
    lost: Lost,
    left: &Schema,
    right: &Schema,
) -> Result<Option<ShapeWhy>, NoMemory>
    ensures { IfOk result (λ cause. cause ≡ first_cause (both_cause key.now left.now right.now ∷ (fields_cause (join_fields lost.left lost.right key.now left.now right.now) ∷ []))) }
{
    if let Some(why) = both_cause(key, left.as_slice(), right.as_slice()) {
        return Ok(Some(why));
    }
    let made = join_fields(alloc, key, lost, left.as_slice(), right.as_slice())?;
    Ok(fields_cause(made.as_slice()))
}

/// A key's field, of the left's kind; it may be null where it may on either side.
fn joined_key(left: &[Field], right: &[Field], name: &Name) -> Result<Field, NoMemory>
    requires { has_column left.now name.now ≡ true }
    ensures { IfOk result (λ field. field ≡ joined_key left.now right.now name.now) }
{
    nullable_if(is_nullable(right, name), field_named(left, name))
}

fn key_fields(
    alloc: Global,
    key: &[(Name, bool)],
    left: &[Field],
    right: &[Field],
) -> Result<Vec<Field>, NoMemory>
    requires { has_keys left.now key.now ≡ true }
    ensures { IfOk result (λ made. made.items ≡ map (λ (k : List ℕ × Bool). joined_key left.now right.now (k.0)) key.now) }
{
    let mut made = Vec::new(alloc);
    for (name, _) in key {
        made.push(joined_key(left, right, name)?)?;
    }
    Ok(made)
}

/// The fields of what is joined.
fn join_fields(
    alloc: Global,
    key: &[(Name, bool)],
    lost: Lost,
    left: &[Field],
    right: &[Field],
) -> Result<Vec<Field>, NoMemory>
    requires few_left { length left.now < 2 ^ 32 }
    requires few_right { length right.now < 2 ^ 32 }
    requires named { has_keys left.now key.now ≡ true }
    ensures { IfOk result (λ made. made.items ≡ join_fields lost.left lost.right key.now left.now right.now) }
{
    let mut made = key_fields(alloc, key, left, right)?;
    push_others(alloc, &mut made, key, lost.left, left)?;
    push_others(alloc, &mut made, key, lost.right, right)?;
    Ok(made)
}

/// The schema of what is joined.
pub fn join_schema(
    alloc: Global,
    key: &[(Name, bool)],
    lost: Lost,
    left: &Schema,
    right: &Schema,
) -> Result<Schema, NoMemory>
    requires { first_cause (both_cause key.now left.now right.now ∷ (fields_cause (join_fields lost.left lost.right key.now left.now right.now) ∷ [])) ≡ None }
    ensures { IfOk result (λ schema. schema ≡ join_fields lost.left lost.right key.now left.now right.now) }
{
    let fields = join_fields(alloc, key, lost, left.as_slice(), right.as_slice())?;
    Ok(Schema::from_vec(fields))
}
