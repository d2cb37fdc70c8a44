ghost use Rattle.std.specs.Prelude.{◌≡◌, ◌<◌, IfOk, [], drop, length};
ghost use Rattle.op_match.specs.Captures.{capture_stream, capture_suits};
ghost use Rattle.op_match.specs.Merges.{merge_stream, merge_suits, merging, others_in, AreWithin};
ghost use Rattle.op_match.specs.Waiting.{HaveSameWays};

use crate::change::Changes;
use crate::columns::others;
use crate::layout::Layout;
use crate::sides::start;
use crate::{Capture, Merger};
use ds_schema::KeyList;
use ds_value::{Items, NoMemory};
use op_base::Operator;
use std::alloc::Global;

fn others_of(alloc: Global, keys: &[KeyList], widths: &[u32]) -> Result<Vec<Items<u32>>, NoMemory>
    requires { length keys.now ≡ length widths.now }
    ensures { IfOk result (λ found. found.items ≡ others_in (drop 1 keys.now) (drop 1 widths.now)) }
{
    let mut found = Vec::new(alloc);
    for i in 1..keys.len() {
        found.push(others(alloc, &keys[i], widths[i])?)?;
    }
    Ok(found)
}

/// Merges updates into a master, input 0, by keys; `widths` are the numbers of the inputs'
/// columns. `keep` says that masters without any update are kept, and `reject` that updates
/// that aren't joined go to the output of their input's number.
pub fn merger(
    alloc: Global,
    keys: Vec<KeyList>,
    widths: Vec<u32>,
    keep: bool,
    reject: bool,
) -> Result<Merger, NoMemory>
    requires some { 0 < length keys.items }
    requires same_ways { HaveSameWays keys.items }
    requires same { length widths.items ≡ length keys.items }
    requires within { AreWithin widths.items keys.items }
    ensures stream { IfOk result (λ op. ⟦<Merger as Operator>⟧.stream op ≡ merge_stream (merging keys.items widths.items keep reject)) }
    ensures suits { IfOk result (λ op. ⟦<Merger as Operator>⟧.suits op ≡ merge_suits widths.items) }
    ensures stands { IfOk result (λ op. ⟦<Merger as Operator>⟧.Stands op []) }
{
    let layout = Layout {
        alloc,
        master: widths[0],
        others: others_of(alloc, keys.as_slice(), widths.as_slice())?,
        keep,
        reject,
    };
    Ok(Merger::new(layout, Items::from_vec(widths), start(alloc, keys)?))
}

/// Captures the changes from input 0 to input 1 by keys; rows of one key value are compared
/// in the columns `values`, and `keep` says that copies are given too.
pub fn capture(
    alloc: Global,
    keys: KeyList,
    values: Vec<u32>,
    keep: bool,
) -> Result<Capture, NoMemory>
    ensures stream { IfOk result (λ op. ⟦<Capture as Operator>⟧.stream op ≡ capture_stream keys values.items keep) }
    ensures suits { IfOk result (λ op. ⟦<Capture as Operator>⟧.suits op ≡ capture_suits keys values.items) }
    ensures stands { IfOk result (λ op. ⟦<Capture as Operator>⟧.Stands op []) }
{
    let changes = Changes {
        alloc,
        values,
        keep,
    };
    let mut both = Vec::with_capacity(alloc, 2)?;
    both.push(keys.copied()?)?;
    both.push(keys)?;
    Ok(Capture::new(changes, start(alloc, both)?))
}
