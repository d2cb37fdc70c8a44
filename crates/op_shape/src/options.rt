//! What is wrong at the options and the outputs of an operator.

ghost use Rattle.std.specs.Prelude.{◌≡◌, ◌<◌, ◌^◌, ◌++◌, not, [], ◌∷◌, None, length, map, IfOk};
ghost use Rattle.shape_base.specs.Causes.{first_cause};
ghost use Rattle.op_shape.specs.Columns.{columns_cause, kept_fields, modified_fields, set_fields, sets_cause};
ghost use Rattle.op_shape.specs.Exprs.{set_causes};
ghost use Rattle.shape_base.specs.Widths.{fields_cause};
ghost use Rattle.op_shape.specs.Options.{IsKeyed, IsKnown, IsFed, widths_suit, widths_cause, renames_cause, option_causes, output_causes};
ghost use Rattle.shape_base.specs.Naming.{key_cause};

use crate::expressions::{on_cause, set_causes, test_cause};
use crate::modifying::{columns_cause, modified_fields, renames_cause};
use crate::setting::{set_fields, sets_cause};
use ds_schema::{Field, Schema};
use ds_value::{Items, Name, NoMemory};
use flow_graph::{OpKind, SetSpec};
use keyed_shape::{
    FULL_OUTER, INNER, LEFT_OUTER, RIGHT_OUTER, group_cause, join_cause, lookup_cause,
};
use shape_base::inputs::{first, second};
use shape_base::naming::has_keys;
use shape_base::{ShapeWhy, fields_cause};
use std::alloc::Global;

fn widths_suit(widths: &Option<Items<u32>>, fields: &[Field]) -> bool
    ensures { result ≡ widths_suit widths.now fields.now }
{
    match widths {
        Some(widths) => widths.as_slice().len() == fields.len(),
        None => true,
    }
}

fn widths_cause(widths: &Option<Items<u32>>, fields: &[Field]) -> Option<ShapeWhy>
    ensures { result ≡ widths_cause widths.now fields.now }
{
    if widths_suit(widths, fields) {
        None
    } else {
        Some(ShapeWhy::Schemas)
    }
}

fn key_cause(key: &[(Name, bool)], fields: &[Field]) -> Option<ShapeWhy>
    ensures { result ≡ key_cause key.now fields.now }
{
    if has_keys(fields, key) {
        None
    } else {
        Some(ShapeWhy::Field)
    }
}

fn import_cause(widths: &Option<Items<u32>>, fields: &[Field]) -> Option<ShapeWhy>
    ensures { result ≡ first_cause (widths_cause widths.now fields.now ∷ (fields_cause fields.now ∷ [])) }
{
    match widths_cause(widths, fields) {
        Some(why) => Some(why),
        None => fields_cause(fields),
    }
}

fn transform_cause(
    alloc: Global,
    first: &Schema,
    sets: &[SetSpec],
) -> Result<Option<ShapeWhy>, NoMemory>
    ensures { IfOk result (λ cause. cause ≡ first_cause (set_causes first.now sets.now ++ (sets_cause sets.now ∷ (fields_cause (set_fields first.now sets.now) ∷ [])))) }
{
    if let Some(why) = set_causes(alloc, first, sets)? {
        return Ok(Some(why));
    }
    if let Some(why) = sets_cause(sets) {
        return Ok(Some(why));
    }
    let made = set_fields(alloc, first.as_slice(), sets)?;
    Ok(fields_cause(made.as_slice()))
}

fn modify_cause(
    alloc: Global,
    keep: &[Name],
    drop: &[Name],
    rename: &[(Name, Name)],
    first: &Schema,
) -> Result<Option<ShapeWhy>, NoMemory>
    ensures { IfOk result (λ cause. cause ≡ first_cause (columns_cause keep.now first.now ∷ (columns_cause drop.now first.now ∷ (renames_cause rename.now (kept_fields keep.now drop.now first.now) ∷ (fields_cause (modified_fields keep.now drop.now rename.now first.now) ∷ []))))) }
{
    let fields = first.as_slice();
    if let Some(why) = columns_cause(keep, fields) {
        return Ok(Some(why));
    }
    if let Some(why) = columns_cause(drop, fields) {
        return Ok(Some(why));
    }
    if let Some(why) = renames_cause(alloc, keep, drop, rename, fields)? {
        return Ok(Some(why));
    }
    let made = modified_fields(alloc, keep, drop, rename, fields)?;
    Ok(fields_cause(made.as_slice()))
}

/// What is wrong at an operator's options and outputs, where its inputs have these schemas.
pub fn own_cause(
    alloc: Global,
    kind: &OpKind,
    ins: &[&Schema],
) -> Result<Option<ShapeWhy>, NoMemory>
    requires known { IsKnown kind.now }
    requires fed { IsFed kind.now (length ins.now) }
    ensures { IfOk result (λ cause. cause ≡ first_cause (option_causes kind.now (map (λ s. s.now) ins.now) ++ output_causes kind.now (map (λ s. s.now) ins.now))) }
{
    match kind {
        OpKind::Import { schema, fixed, .. } => Ok(import_cause(fixed, schema.as_slice())),
        OpKind::Export { fixed, .. } => Ok(widths_cause(fixed, first(ins).as_slice())),
        OpKind::Copy => Ok(None),
        OpKind::Filter { test, .. } => test_cause(alloc, first(ins), test.as_slice()),
        OpKind::Transform { set, .. } => transform_cause(alloc, first(ins), set.as_slice()),
        OpKind::Modify { keep, drop, rename } => modify_cause(
            alloc,
            keep.as_slice(),
            drop.as_slice(),
            rename.as_slice(),
            first(ins),
        ),
        OpKind::Switch { on, .. } => on_cause(alloc, first(ins), on.as_slice()),
        OpKind::Tsort { key } | OpKind::Remdup { key, .. } => {
            Ok(key_cause(key.as_slice(), first(ins).as_slice()))
        }
        _ => keyed_cause(alloc, kind, ins),
    }
}

/// Of an operator by keys.
fn keyed_cause(alloc: Global, kind: &OpKind, ins: &[&Schema]) -> Result<Option<ShapeWhy>, NoMemory>
    requires keyed { IsKeyed kind.now }
    requires fed { IsFed kind.now (length ins.now) }
    ensures { IfOk result (λ cause. cause ≡ first_cause (option_causes kind.now (map (λ s. s.now) ins.now) ++ output_causes kind.now (map (λ s. s.now) ins.now))) }
{
    match kind {
        OpKind::Group { key, results, .. } => {
            group_cause(alloc, key.as_slice(), results.as_slice(), first(ins))
        }
        OpKind::InnerJoin { key } => {
            join_cause(alloc, key.as_slice(), INNER, first(ins), second(ins))
        }
        OpKind::LeftOuterJoin { key } => {
            join_cause(alloc, key.as_slice(), LEFT_OUTER, first(ins), second(ins))
        }
        OpKind::RightOuterJoin { key } => {
            join_cause(alloc, key.as_slice(), RIGHT_OUTER, first(ins), second(ins))
        }
        OpKind::FullOuterJoin { key } => {
            join_cause(alloc, key.as_slice(), FULL_OUTER, first(ins), second(ins))
        }
        OpKind::Lookup { key, missing } => {
            lookup_cause(alloc, key.as_slice(), *missing, first(ins), second(ins))
        }
        _ => unreachable!(),
    }
}
