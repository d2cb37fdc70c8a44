ghost use Rattle.std.specs.Prelude.{◌≡◌, ◌++◌, [], IfOk};
ghost use Rattle.ds_schema.specs.Rows.{cols};
ghost use Rattle.op_base.specs.Keyed.{without};
ghost use Rattle.flow_derive.specs.Derive.{first_keys, carried_sort};
ghost use Rattle.flow_derive.specs.Outlines.{OutputsDiffer};

use crate::carry::column_in;
use ds_schema::{Key, KeyList};
use ds_value::NoMemory;
use flow_graph::{columns_of, is_in};
use std::alloc::Global;

/// A list without keys.
pub fn no_keys(alloc: Global) -> KeyList
    ensures { result ≡ [] }
{
    KeyList::from_vec(Vec::new(alloc))
}

#[tactic(auto, using(crate::proofs::CodeSteps::first_step))]
fn first_columns(alloc: Global, keys: &KeyList, columns: &[u32]) -> Result<Vec<Key>, NoMemory>
    requires { columns.now ≡ cols keys.now }
    ensures { IfOk result (λ found. found.items ≡ first_keys 0 keys.now) }
{
    let mut found = Vec::new(alloc);
    for (i, key) in keys.as_slice().iter().enumerate() {
        found.push(Key {
            col: i as u32,
            desc: key.desc,
        })?;
    }
    Ok(found)
}

/// Keys as the first columns of an output.
#[tactic(auto, using(crate::proofs::KeyLists::first_differ))]
pub(crate) fn first_keys(alloc: Global, keys: &KeyList) -> Result<KeyList, NoMemory>
    ensures { IfOk result (λ found. found ≡ first_keys 0 keys.now) }
{
    let columns = columns_of(alloc, keys)?;
    let found = first_columns(alloc, keys, columns.as_slice())?;
    Ok(KeyList::from_vec(found))
}

fn carried_keys(alloc: Global, pairs: &[(u32, u32)], sort: &KeyList) -> Result<Vec<Key>, NoMemory>
    ensures { IfOk result (λ found. found.items ≡ carried_sort pairs.now sort.now) }
{
    let mut found = Vec::new(alloc);
    for key in sort.as_slice() {
        match column_in(pairs, key.col) {
            None => return Ok(found),
            Some(col) => found.push(Key {
                col,
                desc: key.desc,
            })?,
        }
    }
    Ok(found)
}

/// The longest prefix of a sort list whose columns pass.
#[tactic(auto, using(crate::proofs::KeyLists::carried_differ))]
pub(crate) fn carried_sort(
    alloc: Global,
    pairs: &[(u32, u32)],
    sort: &KeyList,
) -> Result<KeyList, NoMemory>
    requires { OutputsDiffer pairs.now }
    ensures { IfOk result (λ found. found ≡ carried_sort pairs.now sort.now) }
{
    let _ = sort.as_slice();
    let found = carried_keys(alloc, pairs, sort)?;
    Ok(KeyList::from_vec(found))
}

#[tactic(auto, using(crate::proofs::CodeSteps::without_step))]
fn with_old(alloc: Global, keys: &KeyList, old: &KeyList) -> Result<Vec<Key>, NoMemory>
    ensures { IfOk result (λ found. found.items ≡ keys.now ++ without keys.now old.now) }
{
    let columns = columns_of(alloc, keys)?;
    let mut found = Vec::new(alloc);
    found.extend_from_slice(keys.as_slice())?;
    for key in old.as_slice() {
        if !is_in(key.col, columns.as_slice()) {
            found.push(*key)?;
        }
    }
    Ok(found)
}

/// A sort list as a sort by keys leaves it: these, then the old ones of other columns.
#[tactic(auto, using(crate::proofs::KeyLists::resorted_differ))]
pub(crate) fn resorted(alloc: Global, keys: &KeyList, old: &KeyList) -> Result<KeyList, NoMemory>
    ensures { IfOk result (λ found. found ≡ keys.now ++ without keys.now old.now) }
{
    let _ = keys.as_slice();
    let _ = old.as_slice();
    let found = with_old(alloc, keys, old)?;
    Ok(KeyList::from_vec(found))
}
