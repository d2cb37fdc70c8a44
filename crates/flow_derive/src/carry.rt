ghost use Rattle.std.specs.Prelude.{◌≡◌, IfOk};
ghost use Rattle.op_base.specs.Columns.{pairs_of, column_in};
ghost use Rattle.flow_derive.specs.Derive.{carried, carried_place, kept_place};

use ds_place::Place;
use ds_value::{Copied, Items, NoMemory};
use flow_graph::Spot;
use std::alloc::Global;

/// Columns of an input, each with the output column that holds its values.
#[tactic(auto, using(crate::proofs::CodeSteps::pairs_step, crate::proofs::CodeSteps::pairs_end))]
pub(crate) fn pairs_of(
    alloc: Global,
    columns: &[u32],
    others: &[u32],
) -> Result<Vec<(u32, u32)>, NoMemory>
    ensures { IfOk result (λ pairs. pairs.items ≡ pairs_of columns.now others.now) }
{
    let mut pairs = Vec::new(alloc);
    for (i, column) in columns.iter().enumerate() {
        if i == others.len() {
            return Ok(pairs);
        }
        pairs.push((*column, others[i]))?;
    }
    Ok(pairs)
}

/// The output column that holds an input column's values.
#[tactic(auto, using(crate::proofs::CodeSteps::column_step))]
pub(crate) fn column_in(pairs: &[(u32, u32)], column: u32) -> Option<u32>
    ensures { result ≡ column_in pairs.now column }
{
    for pair in pairs {
        if pair.0 == column {
            return Some(pair.1);
        }
    }
    None
}

/// The output columns of these columns, if all of them pass.
pub(crate) fn carried(
    alloc: Global,
    pairs: &[(u32, u32)],
    columns: &[u32],
) -> Result<Option<Items<u32>>, NoMemory>
    ensures { IfOk result (λ found. found ≡ carried pairs.now columns.now) }
{
    let mut found = Items::new(alloc);
    for column in columns {
        match column_in(pairs, *column) {
            None => return Ok(None),
            Some(other) => found.push(other)?,
        }
    }
    Ok(Some(found))
}

/// A place where its columns pass.
pub(crate) fn carried_place(
    alloc: Global,
    pairs: &[(u32, u32)],
    place: &Spot,
) -> Result<Spot, NoMemory>
    ensures { IfOk result (λ found. found ≡ carried_place pairs.now place.now) }
{
    match place {
        Spot::Solo => Ok(Spot::Solo),
        Spot::Placed(Place::Hash(columns)) => match carried(alloc, pairs, columns.as_slice())? {
            None => Ok(Spot::None),
            Some(found) => Ok(Spot::Placed(Place::Hash(found))),
        },
        Spot::Placed(Place::Modulus(column)) => match column_in(pairs, *column) {
            None => Ok(Spot::None),
            Some(found) => Ok(Spot::Placed(Place::Modulus(found))),
        },
        Spot::Entire | Spot::None => Ok(Spot::None),
    }
}

/// A place as an operator by rows keeps it.
pub(crate) fn kept_place(
    alloc: Global,
    pairs: &[(u32, u32)],
    place: &Spot,
) -> Result<Spot, NoMemory>
    ensures { IfOk result (λ found. found ≡ kept_place pairs.now place.now) }
{
    match place {
        Spot::Entire => Ok(Spot::Entire),
        _ => carried_place(alloc, pairs, place),
    }
}
