//! Joins and lookups of the rows of a partition.

ghost use Rattle.std.specs.Prelude.{◌≡◌, IfOk, get_or, length};
ghost use Rattle.ds_schema.specs.Rows.{cols};
ghost use Rattle.op_base.specs.Keyed.{get_keys};
ghost use Rattle.list_run.specs.Matched.{LooksUp, Matches};
ghost use Rattle.list_run.specs.Worked.{AreJoined, AreLooked, SuitsJoin, SuitsLookup};

use crate::lanes::Partitions;
use crate::work::keys_of;
use ds_value::NoMemory;
use flow_graph::OpParts;
use op_base::{Emit, Missing};
use op_join::{JoinKind, join};
use op_lookup::lookup;
use run_ports::run_ports;
use std::alloc::Global;

fn width_of(widths: &[u32], input: usize) -> u32
    ensures { result ≡ get_or widths.now input 0 }
{
    widths.get(input).copied().unwrap_or(0)
}

/// The columns that the keys of an input name.
fn key_columns(alloc: Global, parts: &OpParts, input: usize) -> Result<Vec<u32>, NoMemory>
    ensures { IfOk result (λ columns. columns.items ≡ cols (get_keys parts.now.keys input)) }
{
    let keys = keys_of(alloc, parts, input)?;
    let mut columns = Vec::new(alloc);
    for key in keys.as_slice() {
        columns.push(key.col)?;
    }
    Ok(columns)
}

/// What a join emits for the lists of a partition, by port.
pub(crate) fn match_rows(
    alloc: Global,
    kind: JoinKind,
    parts: &OpParts,
    widths: &[u32],
    lists: Partitions,
) -> Result<Emit, NoMemory>
    requires parts { SuitsJoin parts.now widths.now }
    requires ports { length lists ≡ 2 }
    requires rows { AreJoined widths.now lists }
    ensures { IfOk result (λ emit. Matches kind parts.now widths.now lists emit) }
{
    let left = keys_of(alloc, parts, 0)?;
    let right = keys_of(alloc, parts, 1)?;
    let widths = (width_of(widths, 0), width_of(widths, 1));
    let mut op = join(alloc, kind, left, right, widths)?;
    let emit = run_ports(alloc, &mut op, lists.into_vec())?;
    Ok(emit)
}

/// What a lookup emits for its main rows and its reference.
pub(crate) fn look_up(
    alloc: Global,
    missing: Missing,
    parts: &OpParts,
    widths: &[u32],
    lists: Partitions,
) -> Result<Emit, NoMemory>
    requires parts { SuitsLookup parts.now widths.now }
    requires ports { length lists ≡ 2 }
    requires rows { AreLooked parts.now widths.now lists }
    ensures { IfOk result (λ emit. LooksUp missing parts.now (get_or widths.now 0 0) (get_or widths.now 1 0) lists emit) }
{
    let main = key_columns(alloc, parts, 0)?;
    let reference = key_columns(alloc, parts, 1)?;
    let mut op = lookup(alloc, main, reference, width_of(widths, 1), missing)?;
    let emit = run_ports(alloc, &mut op, lists.into_vec())?;
    Ok(emit)
}
