//! What the names and the expressions of an operator's options stand for.

ghost use Rattle.std.specs.Prelude.{◌≡◌, ◌<◌, ◌^◌, ◌++◌, [], ◌∷◌, true, None, length, map, IfOk};
ghost use Rattle.shape_base.specs.Causes.{first_cause};
ghost use Rattle.op_shape.specs.Exprs.{exprs_of};
ghost use Rattle.keyed_shape.specs.Keyed.{both_cause};
ghost use Rattle.shape_base.specs.Naming.{has_keys, key_columns, NamesDiffer, key_cause};
ghost use Rattle.op_shape.specs.Options.{IsKnown, IsFed, KeysDistinct, option_causes, output_causes, operator_keys, operator_columns, operator_parts};
ghost use Rattle.shape_base.specs.Fields.{first_fields};

use crate::expressions::{one_expr, set_exprs};
use crate::modifying::kept_columns;
use crate::setting::set_columns;
use ds_expr::Typed;
use ds_schema::{Field, KeyList, Schema};
use ds_value::{Items, Name, NoMemory};
use flow_graph::{OpKind, OpParts};
use keyed_shape::source_columns;
use shape_base::inputs::{first, second};
use shape_base::naming::key_list;
use std::alloc::Global;

fn one_key(
    alloc: Global,
    fields: &[Field],
    key: &[(Name, bool)],
) -> Result<Items<KeyList>, NoMemory>
    requires few { length fields.now < 2 ^ 32 }
    requires named { key_cause key.now fields.now ≡ None }
    requires differ { NamesDiffer key.now }
    ensures { IfOk result (λ keys. keys ≡ key_columns fields.now key.now ∷ []) }
{
    let mut keys = Items::new(alloc);
    keys.push(key_list(alloc, fields, key)?)?;
    Ok(keys)
}

fn both_keys(
    alloc: Global,
    left: &[Field],
    right: &[Field],
    key: &[(Name, bool)],
) -> Result<Items<KeyList>, NoMemory>
    requires few_left { length left.now < 2 ^ 32 }
    requires few_right { length right.now < 2 ^ 32 }
    requires named { both_cause key.now left.now right.now ≡ None }
    requires differ { NamesDiffer key.now }
    ensures { IfOk result (λ keys. keys ≡ key_columns left.now key.now ∷ (key_columns right.now key.now ∷ [])) }
{
    let mut keys = Items::new(alloc);
    keys.push(key_list(alloc, left, key)?)?;
    keys.push(key_list(alloc, right, key)?)?;
    Ok(keys)
}

/// The key lists of an operator, one for each input.
fn operator_keys(alloc: Global, kind: &OpKind, ins: &[&Schema]) -> Result<Items<KeyList>, NoMemory>
    requires known { IsKnown kind.now }
    requires fed { IsFed kind.now (length ins.now) }
    requires sound { first_cause (option_causes kind.now (map (λ s. s.now) ins.now) ++ output_causes kind.now (map (λ s. s.now) ins.now)) ≡ None }
    requires differ { KeysDistinct kind.now }
    ensures { IfOk result (λ keys. keys ≡ operator_keys kind.now (map (λ s. s.now) ins.now)) }
{
    match kind {
        OpKind::Tsort { key } | OpKind::Remdup { key, .. } | OpKind::Group { key, .. } => {
            one_key(alloc, first(ins).as_slice(), key.as_slice())
        }
        OpKind::InnerJoin { key }
        | OpKind::LeftOuterJoin { key }
        | OpKind::RightOuterJoin { key }
        | OpKind::FullOuterJoin { key }
        | OpKind::Lookup { key, .. } => both_keys(
            alloc,
            first(ins).as_slice(),
            second(ins).as_slice(),
            key.as_slice(),
        ),
        _ => Ok(Items::new(alloc)),
    }
}

/// The columns that a transform sets, those that a modify keeps, and those of a group's results
/// without its counts.
fn operator_columns(alloc: Global, kind: &OpKind, ins: &[&Schema]) -> Result<Items<u32>, NoMemory>
    requires known { IsKnown kind.now }
    requires fed { IsFed kind.now (length ins.now) }
    requires sound { first_cause (option_causes kind.now (map (λ s. s.now) ins.now) ++ output_causes kind.now (map (λ s. s.now) ins.now)) ≡ None }
    ensures { IfOk result (λ cols. cols ≡ operator_columns kind.now (map (λ s. s.now) ins.now)) }
{
    match kind {
        OpKind::Transform { set, .. } => set_columns(alloc, first(ins).as_slice(), set.as_slice()),
        OpKind::Modify { keep, drop, .. } => kept_columns(
            alloc,
            keep.as_slice(),
            drop.as_slice(),
            first(ins).as_slice(),
        ),
        OpKind::Group { results, .. } => {
            source_columns(alloc, results.as_slice(), first(ins).as_slice())
        }
        _ => Ok(Items::new(alloc)),
    }
}

/// The expressions of an operator, in the written order.
fn operator_exprs(alloc: Global, kind: &OpKind, ins: &[&Schema]) -> Result<Items<Typed>, NoMemory>
    requires known { IsKnown kind.now }
    requires fed { IsFed kind.now (length ins.now) }
    requires sound { first_cause (option_causes kind.now (map (λ s. s.now) ins.now) ++ output_causes kind.now (map (λ s. s.now) ins.now)) ≡ None }
    ensures { IfOk result (λ exprs. exprs ≡ exprs_of kind.now (first_fields (map (λ s. s.now) ins.now))) }
{
    match kind {
        OpKind::Filter { test, .. } => one_expr(alloc, first(ins), test.as_slice()),
        OpKind::Transform { set, .. } => set_exprs(alloc, first(ins), set.as_slice()),
        OpKind::Switch { on, .. } => one_expr(alloc, first(ins), on.as_slice()),
        _ => Ok(Items::new(alloc)),
    }
}

/// What the names and the expressions of an operator's options stand for, where its inputs have
/// these schemas.
pub fn operator_parts(alloc: Global, kind: &OpKind, ins: &[&Schema]) -> Result<OpParts, NoMemory>
    requires known { IsKnown kind.now }
    requires fed { IsFed kind.now (length ins.now) }
    requires sound { first_cause (option_causes kind.now (map (λ s. s.now) ins.now) ++ output_causes kind.now (map (λ s. s.now) ins.now)) ≡ None }
    requires differ { KeysDistinct kind.now }
    ensures { IfOk result (λ parts. parts ≡ operator_parts kind.now (map (λ s. s.now) ins.now)) }
{
    Ok(OpParts {
        keys: operator_keys(alloc, kind, ins)?,
        cols: operator_columns(alloc, kind, ins)?,
        exprs: operator_exprs(alloc, kind, ins)?,
    })
}
