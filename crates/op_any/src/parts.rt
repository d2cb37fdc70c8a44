//! What operators are made of, copied from what a flow's shape has.

ghost use Rattle.std.specs.Prelude.{◌≡◌, ◌∷◌, [], IfOk, get_or, length};
ghost use Rattle.ds_schema.specs.Rows.{cols};
ghost use Rattle.op_base.specs.Keyed.{get_keys};
ghost use Rattle.flow_graph.specs.RowRules.{first_expr, sets_of};
ghost use Rattle.flow_ops.specs.Keyed.{aggs_of};
ghost use Rattle.op_any.specs.Results.{agg_on};

use ds_expr::{Typed, copy_typed};
use ds_schema::KeyList;
use ds_value::{Copied, Items, NoMemory};
use flow_graph::{AggSpec, OpParts, SetSpec};
use op_group::Agg;
use op_row::Set;
use std::alloc::Global;

/// The one expression of a filter or a switch.
pub(crate) fn first_expr(parts: &OpParts) -> &Typed
    requires { parts.now.exprs ≡ first_expr parts.now ∷ [] }
    ensures { result.now ≡ first_expr parts.now }
{
    &parts.exprs.as_slice()[0]
}

/// The sets of a transform, each with its column and its expression.
pub(crate) fn sets_of(
    alloc: Global,
    set: &Items<SetSpec>,
    cols: &Items<u32>,
    exprs: &Items<Typed>,
) -> Result<Vec<Set>, NoMemory>
    requires cols { length cols.now ≡ length set.now }
    requires exprs { length exprs.now ≡ length set.now }
    ensures { IfOk result (λ sets. sets.items ≡ sets_of set.now cols.now exprs.now) }
{
    let set = set.as_slice();
    let mut sets = Vec::new(alloc);
    for i in 0..set.len() {
        sets.push(Set {
            col: cols.as_slice()[i],
            field: set[i].field.copied()?,
            expr: copy_typed(alloc, &exprs.as_slice()[i])?,
        })?;
    }
    Ok(sets)
}

/// The keys of an input.
pub(crate) fn keys_of(alloc: Global, parts: &OpParts, input: usize) -> Result<KeyList, NoMemory>
    ensures { IfOk result (λ keys. keys ≡ get_keys parts.now.keys input) }
{
    match parts.keys.as_slice().get(input) {
        Some(keys) => keys.copied(),
        None => Ok(KeyList::from_vec(Vec::new(alloc))),
    }
}

/// The columns that the keys of an input name.
pub(crate) fn key_columns(
    alloc: Global,
    parts: &OpParts,
    input: usize,
) -> Result<Vec<u32>, NoMemory>
    ensures { IfOk result (λ columns. columns.items ≡ cols (get_keys parts.now.keys input)) }
{
    let keys = keys_of(alloc, parts, input)?;
    let mut columns = Vec::new(alloc);
    for key in keys.as_slice() {
        columns.push(key.col)?;
    }
    Ok(columns)
}

/// The number of columns of an input.
pub(crate) fn width_of(widths: &[u32], input: usize) -> u32
    ensures { result ≡ get_or widths.now input 0 }
{
    widths.get(input).copied().unwrap_or(0)
}

fn agg_on(spec: &AggSpec, col: u32) -> Agg
    ensures { result ≡ agg_on spec.now col }
{
    match spec {
        AggSpec::Sum(_, _) => Agg::Sum(col),
        AggSpec::Count(_) => Agg::Count,
        AggSpec::Min(_, _) => Agg::Min(col),
        AggSpec::Max(_, _) => Agg::Max(col),
        AggSpec::First(_, _) => Agg::First(col),
        AggSpec::Last(_, _) => Agg::Last(col),
    }
}

/// The results of a group with their columns. A count has none.
pub(crate) fn aggs_of(
    alloc: Global,
    results: &Items<AggSpec>,
    cols: &Items<u32>,
) -> Result<Vec<Agg>, NoMemory>
    ensures { IfOk result (λ aggs. aggs.items ≡ aggs_of results.now cols.now) }
{
    let mut aggs = Vec::new(alloc);
    let mut rest = cols.as_slice();
    for spec in results.as_slice() {
        if let AggSpec::Count(_) = spec {
            aggs.push(Agg::Count)?;
            continue;
        }
        let Some((col, more)) = rest.split_first() else {
            return Ok(aggs);
        };
        aggs.push(agg_on(spec, *col))?;
        rest = more;
    }
    Ok(aggs)
}
