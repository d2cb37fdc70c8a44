ghost use Rattle.std.specs.Prelude.{◌≡◌, ◌≤◌, length, IfOk};
ghost use Rattle.op_base.specs.Columns.{all_columns, pairs_of};
ghost use Rattle.op_base.specs.RowOperators.{not_set};
ghost use Rattle.flow_graph.specs.Charts.{funnel_form};
ghost use Rattle.flow_graph.specs.FlowShape.{FewKept};
ghost use Rattle.flow_graph.specs.Forms.{join, merge, changecapture};
ghost use Rattle.flow_derive.specs.Derive.{settled, derived, passed_state};
ghost use Rattle.flow_derive.specs.Outlines.{OutputsDiffer, kind_passes, outline_form};

use crate::carry::pairs_of;
use crate::outline::{Outline, keys_of};
use crate::routes::all_columns;
use crate::rows::{
    first_state, funnel_state, grouped_state, keyed_state, ordered_state, passed_state, read_state,
    remdup_state, solo_state, sorted_state,
};
use crate::sorts::{first_keys, no_keys};
use ds_schema::KeyList;
use ds_value::{Copied, Items, NoMemory};
use flow_graph::{OpKind, State, is_in};
use std::alloc::Global;

#[tactic(auto, using(crate::proofs::CodeSteps::not_set_step))]
fn not_set(alloc: Global, targets: &[u32], columns: &[u32]) -> Result<Vec<u32>, NoMemory>
    ensures { IfOk result (λ found. found.items ≡ not_set targets.now columns.now) }
{
    let mut found = Vec::new(alloc);
    for column in columns {
        if !is_in(*column, targets) {
            found.push(*column)?;
        }
    }
    Ok(found)
}

/// The columns that a transform leaves, each to itself.
#[tactic(auto, using(crate::proofs::KeyLists::left_differ))]
fn left_pairs(alloc: Global, targets: &[u32], width: u32) -> Result<Vec<(u32, u32)>, NoMemory>
    ensures pairs { IfOk result (λ pairs. pairs.items ≡ pairs_of (not_set targets.now (all_columns width)) (not_set targets.now (all_columns width))) }
    ensures differ { IfOk result (λ pairs. OutputsDiffer pairs.items) }
{
    let columns = all_columns(alloc, width)?;
    let left = not_set(alloc, targets, columns.as_slice())?;
    pairs_of(alloc, left.as_slice(), left.as_slice())
}

/// The columns that a modify keeps, each to its place among them.
#[tactic(auto, using(crate::proofs::KeyLists::kept_differ))]
fn kept_pairs(alloc: Global, kept: &[u32]) -> Result<Vec<(u32, u32)>, NoMemory>
    requires { length kept.now ≤ 256 }
    ensures pairs { IfOk result (λ pairs. pairs.items ≡ pairs_of kept.now (all_columns (length kept.now))) }
    ensures differ { IfOk result (λ pairs. OutputsDiffer pairs.items) }
{
    let places = all_columns(alloc, kept.len() as u32)?;
    pairs_of(alloc, kept, places.as_slice())
}

#[tactic(auto, using(crate::proofs::KeyLists::kept_differ))]
fn all_pairs(alloc: Global, width: u32) -> Result<Vec<(u32, u32)>, NoMemory>
    ensures pairs { IfOk result (λ pairs. pairs.items ≡ pairs_of (all_columns width) (all_columns width)) }
    ensures differ { IfOk result (λ pairs. OutputsDiffer pairs.items) }
{
    let columns = all_columns(alloc, width)?;
    pairs_of(alloc, columns.as_slice(), columns.as_slice())
}

/// What of a state passes an operator by rows, or a lookup, to an output.
#[tactic(auto, using(crate::proofs::KeyLists::later_transform, crate::proofs::KeyLists::later_lookup))]
fn passed(
    alloc: Global,
    kind: &OpKind,
    columns: &[u32],
    width: u32,
    out: u32,
    state: &State,
) -> Result<State, NoMemory>
    requires { FewKept kind.now columns.now }
    ensures { IfOk result (λ s. settled s ≡ settled (passed_state (kind_passes kind.now columns.now width out) state.now)) }
{
    match kind {
        OpKind::Export { .. } | OpKind::Dswrite { .. } => passed_state(alloc, &[], state),
        OpKind::Transform { .. } => {
            if out != 0 {
                return state.copied();
            }
            let pairs = left_pairs(alloc, columns, width)?;
            passed_state(alloc, pairs.as_slice(), state)
        }
        OpKind::Modify { .. } => {
            let pairs = kept_pairs(alloc, columns)?;
            passed_state(alloc, pairs.as_slice(), state)
        }
        OpKind::Lookup { .. } => {
            if out != 0 {
                return state.copied();
            }
            let pairs = all_pairs(alloc, width)?;
            passed_state(alloc, pairs.as_slice(), state)
        }
        OpKind::Import { .. }
        | OpKind::Dsread { .. }
        | OpKind::Copy
        | OpKind::Filter { .. }
        | OpKind::Switch { .. }
        | OpKind::Tsort { .. }
        | OpKind::Remdup { .. }
        | OpKind::Group { .. }
        | OpKind::InnerJoin { .. }
        | OpKind::LeftOuterJoin { .. }
        | OpKind::RightOuterJoin { .. }
        | OpKind::FullOuterJoin { .. }
        | OpKind::Merge { .. }
        | OpKind::Changecapture { .. }
        | OpKind::Funnel { .. } => state.copied(),
    }
}

fn join_state(
    alloc: Global,
    left: &KeyList,
    right: &KeyList,
    inputs: &[State],
) -> Result<State, NoMemory>
    ensures { IfOk result (λ s. settled s ≡ settled (derived (join left.now right.now) 0 inputs.now)) }
{
    let mut keys = Items::new(alloc);
    keys.push(left.copied()?)?;
    keys.push(right.copied()?)?;
    keyed_state(alloc, keys.as_slice(), first_keys(alloc, left)?, inputs)
}

fn capture_state(alloc: Global, keys: &KeyList, inputs: &[State]) -> Result<State, NoMemory>
    ensures { IfOk result (λ s. settled s ≡ settled (derived (changecapture keys.now) 0 inputs.now)) }
{
    let mut both = Items::new(alloc);
    both.push(keys.copied()?)?;
    both.push(keys.copied()?)?;
    keyed_state(alloc, both.as_slice(), keys.copied()?, inputs)
}

fn merge_state(
    alloc: Global,
    keys: &Items<KeyList>,
    out: u32,
    inputs: &[State],
) -> Result<State, NoMemory>
    ensures { IfOk result (λ s. settled s ≡ settled (derived (merge keys.now) out inputs.now)) }
{
    let heads = keys_of(keys, out as usize)?;
    keyed_state(alloc, keys.as_slice(), heads, inputs)
}

fn gathered_state(
    alloc: Global,
    sequence: bool,
    keys: &KeyList,
    inputs: &[State],
) -> Result<State, NoMemory>
    ensures { IfOk result (λ s. settled s ≡ settled (derived (funnel_form sequence keys.now) 0 inputs.now)) }
{
    if sequence {
        return ordered_state(alloc, &no_keys(alloc), inputs);
    }
    if keys.as_slice().is_empty() {
        return funnel_state(alloc, inputs);
    }
    ordered_state(alloc, keys, inputs)
}

/// The state of an output, by those of the inputs. `columns` are those of the operator's parts,
/// and `width` is the number of columns of input 0.
pub(crate) fn derived(
    alloc: Global,
    kind: &OpKind,
    outline: &Outline,
    columns: &[u32],
    width: u32,
    out: u32,
    inputs: &[State],
) -> Result<State, NoMemory>
    requires { FewKept kind.now columns.now }
    ensures { IfOk result (λ s. settled s ≡ settled (derived (outline_form outline.now (kind_passes kind.now columns.now width)) out inputs.now)) }
{
    match outline {
        Outline::Import => Ok(solo_state(alloc)),
        Outline::Dsread(partitions, declared) => read_state(alloc, *partitions, declared),
        Outline::ByRow | Outline::Lookup(_, _) => {
            let first = first_state(alloc, inputs)?;
            passed(alloc, kind, columns, width, out, &first)
        }
        Outline::Tsort(keys) => sorted_state(alloc, keys, &first_state(alloc, inputs)?),
        Outline::Remdup(keys) => remdup_state(alloc, keys, &first_state(alloc, inputs)?),
        Outline::Group(keys, hashes, _) => {
            grouped_state(alloc, keys, *hashes, &first_state(alloc, inputs)?)
        }
        Outline::Join(left, right) => join_state(alloc, left, right, inputs),
        Outline::Merge(keys) => merge_state(alloc, keys, out, inputs),
        Outline::Changecapture(keys) => capture_state(alloc, keys, inputs),
        Outline::Funnel(sequence, keys) => gathered_state(alloc, *sequence, keys, inputs),
    }
}
