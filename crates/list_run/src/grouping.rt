//! Groups of the rows of a partition.

ghost use Rattle.std.specs.Prelude.{◌≡◌, false, true, IfOk};
ghost use Rattle.op_group.specs.Results.{grouping};
ghost use Rattle.flow_ops.specs.Keyed.{aggs_of};
ghost use Rattle.list_run.specs.Grouped.{Groups, agg_on};
ghost use Rattle.list_run.specs.Worked.{SuitsGroup};

use ds_schema::{KeyList, Row};
use ds_value::{Items, NoMemory};
use flow_graph::AggSpec;
use op_base::{Emit, run_list};
use op_group::{Agg, group_hashed, group_sorted};
use std::alloc::Global;

fn agg_on(spec: &AggSpec, col: u32) -> Agg
    ensures { result ≡ agg_on spec.now col }
{
    match spec {
        AggSpec::Sum(_, _) => Agg::Sum(col),
        AggSpec::Count(_) => Agg::Count,
        AggSpec::Min(_, _) => Agg::Min(col),
        AggSpec::Max(_, _) => Agg::Max(col),
        AggSpec::First(_, _) => Agg::First(col),
        AggSpec::Last(_, _) => Agg::Last(col),
    }
}

/// The results of a group with their columns. A count has none.
pub(crate) fn aggs_of(
    alloc: Global,
    results: &Items<AggSpec>,
    cols: &Items<u32>,
) -> Result<Vec<Agg>, NoMemory>
    ensures { IfOk result (λ aggs. aggs.items ≡ aggs_of results.now cols.now) }
{
    let mut aggs = Vec::new(alloc);
    let mut rest = cols.as_slice();
    for spec in results.as_slice() {
        if let AggSpec::Count(_) = spec {
            aggs.push(Agg::Count)?;
            continue;
        }
        let Some((col, more)) = rest.split_first() else {
            return Ok(aggs);
        };
        aggs.push(agg_on(spec, *col))?;
        rest = more;
    }
    Ok(aggs)
}

fn run_sorted(
    alloc: Global,
    keys: KeyList,
    aggs: Vec<Agg>,
    rows: Vec<Row>,
) -> Result<Emit, NoMemory>
    requires { SuitsGroup keys aggs.items rows.items }
    ensures { IfOk result (λ emit. Groups (grouping keys false aggs.items) rows.items emit) }
{
    let mut op = group_sorted(alloc, keys, aggs)?;
    let emit = run_list(alloc, &mut op, rows)?;
    Ok(emit)
}

fn run_hashed(
    alloc: Global,
    keys: KeyList,
    aggs: Vec<Agg>,
    rows: Vec<Row>,
) -> Result<Emit, NoMemory>
    requires { SuitsGroup keys aggs.items rows.items }
    ensures { IfOk result (λ emit. Groups (grouping keys true aggs.items) rows.items emit) }
{
    let mut op = group_hashed(alloc, keys, aggs)?;
    let emit = run_list(alloc, &mut op, rows)?;
    Ok(emit)
}

/// What a group emits for the rows of a partition: run by run, or with `hash` key value by key
/// value.
pub(crate) fn run_group(
    alloc: Global,
    keys: KeyList,
    aggs: Vec<Agg>,
    hash: bool,
    rows: Vec<Row>,
) -> Result<Emit, NoMemory>
    requires { SuitsGroup keys aggs.items rows.items }
    ensures { IfOk result (λ emit. Groups (grouping keys hash aggs.items) rows.items emit) }
{
    if hash {
        run_hashed(alloc, keys, aggs, rows)
    } else {
        run_sorted(alloc, keys, aggs, rows)
    }
}
