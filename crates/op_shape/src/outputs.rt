//! The schemas of an operator's outputs.

ghost use Rattle.std.specs.Prelude.{◌≡◌, ◌++◌, ℕ, List, [], ◌∷◌, true, None, codes, map, length, IfOk};
ghost use Rattle.std.specs.List.{AllByRecursion};
ghost use Rattle.ds_schema.specs.Schemas.{IsField, IsFieldName};
ghost use Rattle.flow_graph.specs.declared.op_kind.SetSpec.{SetSpec as SetOf};
ghost use Rattle.shape_base.specs.Causes.{first_cause};
ghost use Rattle.op_shape.specs.Columns.{modified_fields, set_fields};
ghost use Rattle.shape_base.specs.Naming.{has_columns};
ghost use Rattle.shape_base.specs.Widths.{fields_cause};
ghost use Rattle.op_shape.specs.Options.{IsKeyed, IsKnown, IsFed, OptionsStand, line_fields, option_causes, output_causes, output_fields};
ghost use Rattle.shape_base.specs.Fields.{made_or_rejected};

use crate::modifying::modified_fields;
use crate::setting::set_fields;
use ds_schema::{Field, Schema};
use ds_value::{Kind, Name, NoMemory};
use flow_graph::{OpKind, SetSpec};
use keyed_shape::{
    FULL_OUTER, INNER, LEFT_OUTER, RIGHT_OUTER, group_schema, join_schema, lookup_schema,
};
use shape_base::inputs::{first, second};
use std::alloc::Global;

fn line_name(alloc: Global) -> Result<Name, NoMemory>
    ensures { IfOk result (λ name. name ≡ codes "line") }
{
    match Name::from_bytes(alloc, b"line".as_slice())? {
        Some(name) => Ok(name),
        None => unreachable!(),
    }
}

/// The schema `record ( line: string[max=65536]; )`, of rejected lines.
pub fn line_schema(alloc: Global) -> Result<Schema, NoMemory>
    ensures { IfOk result (λ schema. schema ≡ line_fields) }
{
    let field = Field {
        name: line_name(alloc)?,
        nullable: false,
        kind: Kind::Text {
            max: 65_536,
            fixed: false,
        },
    };
    let mut fields = Vec::new(alloc);
    fields.push(field)?;
    Ok(Schema::from_vec(fields))
}

fn import_schema(alloc: Global, schema: &Schema, out: u32) -> Result<Schema, NoMemory>
    ensures { IfOk result (λ copy. copy ≡ made_or_rejected schema.now line_fields out) }
{
    if out == 0 {
        schema.copied()
    } else {
        line_schema(alloc)
    }
}

/// The schema of a transform's rows, with what is set.
fn set_schema(alloc: Global, first: &Schema, sets: &[SetSpec]) -> Result<Schema, NoMemory>
    requires sound { fields_cause (set_fields first.now sets.now) ≡ None }
    requires stand { AllByRecursion (λ (s : SetOf). IsField s.field) sets.now }
    ensures { IfOk result (λ schema. schema ≡ set_fields first.now sets.now) }
{
    let fields = set_fields(alloc, first.as_slice(), sets)?;
    Ok(Schema::from_vec(fields))
}

fn transform_schema(
    alloc: Global,
    first: &Schema,
    sets: &[SetSpec],
    out: u32,
) -> Result<Schema, NoMemory>
    requires sound { fields_cause (set_fields first.now sets.now) ≡ None }
    requires stand { AllByRecursion (λ (s : SetOf). IsField s.field) sets.now }
    ensures { IfOk result (λ schema. schema ≡ made_or_rejected (set_fields first.now sets.now) first.now out) }
{
    if out == 0 {
        set_schema(alloc, first, sets)
    } else {
        first.copied()
    }
}

fn modify_schema(
    alloc: Global,
    keep: &[Name],
    drop: &[Name],
    rename: &[(Name, Name)],
    first: &Schema,
) -> Result<Schema, NoMemory>
    requires there { has_columns first.now keep.now ≡ true }
    requires sound { fields_cause (modified_fields keep.now drop.now rename.now first.now) ≡ None }
    requires stand { AllByRecursion (λ (p : List ℕ × List ℕ). IsFieldName (p.0)) rename.now }
    ensures { IfOk result (λ schema. schema ≡ modified_fields keep.now drop.now rename.now first.now) }
{
    let fields = modified_fields(alloc, keep, drop, rename, first.as_slice())?;
    Ok(Schema::from_vec(fields))
}

/// The schema of an output, where the inputs have these schemas and nothing is wrong.
pub fn output_schema(
    alloc: Global,
    kind: &OpKind,
    ins: &[&Schema],
    out: u32,
) -> Result<Schema, NoMemory>
    requires known { IsKnown kind.now }
    requires fed { IsFed kind.now (length ins.now) }
    requires sound { first_cause (option_causes kind.now (map (λ s. s.now) ins.now) ++ output_causes kind.now (map (λ s. s.now) ins.now)) ≡ None }
    requires stand { OptionsStand kind.now }
    ensures { IfOk result (λ schema. schema ≡ output_fields kind.now (map (λ s. s.now) ins.now) out) }
{
    match kind {
        OpKind::Import { schema, .. } => import_schema(alloc, schema, out),
        OpKind::Transform { set, .. } => transform_schema(alloc, first(ins), set.as_slice(), out),
        OpKind::Modify { keep, drop, rename } => modify_schema(
            alloc,
            keep.as_slice(),
            drop.as_slice(),
            rename.as_slice(),
            first(ins),
        ),
        OpKind::Export { .. }
        | OpKind::Copy
        | OpKind::Filter { .. }
        | OpKind::Switch { .. }
        | OpKind::Tsort { .. }
        | OpKind::Remdup { .. } => first(ins).copied(),
        _ => keyed_schema(alloc, kind, ins, out),
    }
}

/// Of an operator by keys.
fn keyed_schema(alloc: Global, kind: &OpKind, ins: &[&Schema], out: u32) -> Result<Schema, NoMemory>
    requires keyed { IsKeyed kind.now }
    requires fed { IsFed kind.now (length ins.now) }
    requires sound { first_cause (option_causes kind.now (map (λ s. s.now) ins.now) ++ output_causes kind.now (map (λ s. s.now) ins.now)) ≡ None }
    requires stand { OptionsStand kind.now }
    ensures { IfOk result (λ schema. schema ≡ output_fields kind.now (map (λ s. s.now) ins.now) out) }
{
    match kind {
        OpKind::Group { key, results, .. } => {
            group_schema(alloc, key.as_slice(), results.as_slice(), first(ins))
        }
        OpKind::InnerJoin { key } => {
            join_schema(alloc, key.as_slice(), INNER, first(ins), second(ins))
        }
        OpKind::LeftOuterJoin { key } => {
            join_schema(alloc, key.as_slice(), LEFT_OUTER, first(ins), second(ins))
        }
        OpKind::RightOuterJoin { key } => {
            join_schema(alloc, key.as_slice(), RIGHT_OUTER, first(ins), second(ins))
        }
        OpKind::FullOuterJoin { key } => {
            join_schema(alloc, key.as_slice(), FULL_OUTER, first(ins), second(ins))
        }
        OpKind::Lookup { key, missing } => {
            lookup_schema(
                alloc,
                key.as_slice(),
                *missing,
                first(ins),
                second(ins),
                out,
            )
        }
        _ => unreachable!(),
    }
}
