//! The columns of a group: its keys, and its results in the written order.

ghost use Rattle.std.specs.Prelude.{◌≡◌, ◌<◌, ◌^◌, ◌++◌, ◌∷◌, [], List, ℕ, Bool, length, map, true, None, option_copied, IfOk};
ghost use Rattle.std.specs.List.{AllByRecursion};
ghost use Rattle.ds_schema.specs.Schemas.{IsFieldName};
ghost use Rattle.flow_graph.specs.declared.op_kind.AggSpec.{AggSpec as Agg};
ghost use Rattle.shape_base.specs.Causes.{first_cause};
ghost use Rattle.shape_base.specs.Naming.{has_keys, key_cause};
ghost use Rattle.shape_base.specs.Widths.{fields_cause};
ghost use Rattle.keyed_shape.specs.Keyed.{can_sum, sum_kind, source, source_columns, source_cause, sum_cause, result_cause, result_causes, result_name, made_field, field_named, result_field, group_fields};

use crate::keying::{field_named, is_nullable, kind_of};
use ds_schema::{Field, Schema};
use ds_value::{Copied, Items, Kind, Name, NoMemory};
use flow_graph::AggSpec;
use shape_base::naming::{column, has_column, has_keys};
use shape_base::{ShapeWhy, fields_cause};
use std::alloc::Global;

fn can_sum(kind: Kind) -> bool
    ensures { result ≡ can_sum kind }
{
    match kind {
        Kind::Int(_) | Kind::UInt(_) => true,
        Kind::Dec { p, .. } => p <= 18,
        Kind::Text { .. } | Kind::Date => false,
    }
}

/// The kind of a sum; a kind that has none stays as it is.
fn sum_kind(kind: Kind) -> Kind
    ensures { result ≡ sum_kind kind }
{
    match kind {
        Kind::Int(_) => Kind::Int(64),
        Kind::UInt(_) => Kind::UInt(64),
        Kind::Dec { s, .. } => Kind::Dec { p: 38, s },
        Kind::Text { .. } | Kind::Date => kind,
    }
}

fn source_cause(fields: &[Field], old: &Name) -> Option<ShapeWhy>
    ensures { result ≡ source_cause fields.now old.now }
{
    if has_column(fields, old) {
        None
    } else {
        Some(ShapeWhy::Field)
    }
}

fn sum_cause(fields: &[Field], old: &Name) -> Option<ShapeWhy>
    ensures { result ≡ sum_cause fields.now old.now }
{
    if !has_column(fields, old) {
        return Some(ShapeWhy::Field);
    }
    if !can_sum(kind_of(fields, old)) {
        return Some(ShapeWhy::Kind);
    }
    None
}

fn result_cause(fields: &[Field], agg: &AggSpec) -> Option<ShapeWhy>
    ensures { result ≡ result_cause fields.now agg.now }
{
    match agg {
        AggSpec::Sum(_, old) => sum_cause(fields, old),
        AggSpec::Count(_) => None,
        AggSpec::Min(_, old)
        | AggSpec::Max(_, old)
        | AggSpec::First(_, old)
        | AggSpec::Last(_, old) => source_cause(fields, old),
    }
}

/// The first cause at the results of a group.
fn results_cause(fields: &[Field], results: &[AggSpec]) -> Option<ShapeWhy>
    ensures { result ≡ first_cause (result_causes results.now fields.now) }
{
    for agg in results {
        if let Some(why) = result_cause(fields, agg) {
            return Some(why);
        }
    }
    None
}

/// What is wrong at a group, where its input has this schema.
pub fn group_cause(
    alloc: Global,
    key: &[(Name, bool)],
    results: &[AggSpec],
    first: &Schema,
) -> Result<Option<ShapeWhy>, NoMemory>
    ensures { IfOk result (λ cause. cause ≡ first_cause ((key_cause key.now first.now ∷ result_causes results.now first.now) ++ (fields_cause (group_fields key.now results.now first.now) ∷ []))) }
{
    let fields = first.as_slice();
    if !has_keys(fields, key) {
        return Ok(Some(ShapeWhy::Field));
    }
    if let Some(why) = results_cause(fields, results) {
        return Ok(Some(why));
    }
    let made = group_fields(alloc, key, results, fields)?;
    Ok(fields_cause(made.as_slice()))
}

fn made_field(name: &Name, nullable: bool, kind: Kind) -> Result<Field, NoMemory>
    ensures { IfOk result (λ field. field ≡ made_field name.now nullable kind) }
{
    Ok(Field {
        name: name.copied()?,
        nullable,
        kind,
    })
}

/// The column of a result. Sums, least and greatest values are null where no value is left.
fn result_field(fields: &[Field], agg: &AggSpec) -> Result<Field, NoMemory>
    ensures { IfOk result (λ field. field ≡ result_field fields.now agg.now) }
{
    match agg {
        AggSpec::Sum(new, old) => made_field(new, true, sum_kind(kind_of(fields, old))),
        AggSpec::Count(new) => made_field(new, false, Kind::UInt(64)),
        AggSpec::Min(new, old) | AggSpec::Max(new, old) => {
            made_field(new, true, kind_of(fields, old))
        }
        AggSpec::First(new, old) | AggSpec::Last(new, old) => {
            made_field(new, is_nullable(fields, old), kind_of(fields, old))
        }
    }
}

fn key_fields(alloc: Global, key: &[(Name, bool)], fields: &[Field]) -> Result<Vec<Field>, NoMemory>
    requires { has_keys fields.now key.now ≡ true }
    ensures { IfOk result (λ made. made.items ≡ map (λ (k : List ℕ × Bool). field_named fields.now (k.0)) key.now) }
{
    let mut made = Vec::new(alloc);
    for (name, _) in key {
        made.push(field_named(fields, name).copied()?)?;
    }
    Ok(made)
}

/// The fields of a group's rows.
fn group_fields(
    alloc: Global,
    key: &[(Name, bool)],
    results: &[AggSpec],
    fields: &[Field],
) -> Result<Vec<Field>, NoMemory>
    requires { has_keys fields.now key.now ≡ true }
    ensures { IfOk result (λ made. made.items ≡ group_fields key.now results.now fields.now) }
{
    let mut made = key_fields(alloc, key, fields)?;
    for agg in results {
        made.push(result_field(fields, agg)?)?;
    }
    Ok(made)
}

/// The schema of a group's rows.
pub fn group_schema(
    alloc: Global,
    key: &[(Name, bool)],
    results: &[AggSpec],
    first: &Schema,
) -> Result<Schema, NoMemory>
    requires sound { first_cause ((key_cause key.now first.now ∷ result_causes results.now first.now) ++ (fields_cause (group_fields key.now results.now first.now) ∷ [])) ≡ None }
    requires stand { AllByRecursion (λ (a : Agg). IsFieldName (result_name a)) results.now }
    ensures { IfOk result (λ schema. schema ≡ group_fields key.now results.now first.now) }
{
    let fields = group_fields(alloc, key, results, first.as_slice())?;
    Ok(Schema::from_vec(fields))
}

/// The column that a result is made of; a count is of none.
fn source(agg: &AggSpec) -> Option<&Name>
    ensures { option_copied result ≡ source agg.now }
{
    match agg {
        AggSpec::Count(_) => None,
        AggSpec::Sum(_, old)
        | AggSpec::Min(_, old)
        | AggSpec::Max(_, old)
        | AggSpec::First(_, old)
        | AggSpec::Last(_, old) => Some(old),
    }
}

/// The columns of a group's results without its counts.
pub fn source_columns(
    alloc: Global,
    results: &[AggSpec],
    fields: &[Field],
) -> Result<Items<u32>, NoMemory>
    requires { length fields.now < 2 ^ 32 }
    ensures { IfOk result (λ cols. cols ≡ source_columns results.now fields.now) }
{
    let mut cols = Items::new(alloc);
    for agg in results {
        if let Some(old) = source(agg) {
            cols.push(column(fields, old))?;
        }
    }
    Ok(cols)
}
