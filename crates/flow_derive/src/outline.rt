ghost use Rattle.std.specs.Prelude.{◌≡◌, ◌<◌, ℕ, List, length, IfOk, option_copied};
ghost use Rattle.std.specs.List.{list_any};
ghost use Rattle.op_base.specs.Columns.{Passing};
ghost use Rattle.op_base.specs.Keyed.{get_keys};
ghost use Rattle.flow_graph.specs.Charts.{sees_order, stored_form, kind_form, form_at};
ghost use Rattle.flow_derive.specs.Outlines.{outline_form, kind_passes, passes_at};

use ds_place::Place;
use ds_schema::KeyList;
use ds_value::{Copied, Items, NoMemory};
use flow_graph::{AggSpec, OpKind, Shaped, Stored};

/// What the checker sees of an operator: which it is, and its keys.
#[derive(Debug, Drop)]
pub enum Outline {
    Import,
    /// The number of partitions, and the declared place.
    Dsread(u32, Option<Place>),
    ByRow,
    Tsort(KeyList),
    Remdup(KeyList),
    /// The keys, whether it has `-hash`, and whether a result sees the order of rows.
    Group(KeyList, bool, bool),
    Join(KeyList, KeyList),
    Merge(Items<KeyList>),
    Lookup(KeyList, KeyList),
    Changecapture(KeyList),
    /// Whether it has `-sequence`, and the keys of `-sort`.
    Funnel(bool, KeyList),
}

/// The keys of an input; none where it has no key list.
#[tactic(auto, using(crate::proofs::CodeSteps::keys_there, crate::proofs::CodeSteps::keys_beyond))]
pub fn keys_of(keys: &Items<KeyList>, input: usize) -> Result<KeyList, NoMemory>
    ensures { IfOk result (λ found. found ≡ get_keys keys.now input) }
{
    let lists = keys.as_slice();
    if input < lists.len() {
        return lists[input].copied();
    }
    Ok(KeyList::from_vec(Vec::new(keys.allocator())))
}

fn sees_order(agg: &AggSpec) -> bool
    ensures { result ≡ sees_order agg.now }
{
    match agg {
        AggSpec::First(_, _) | AggSpec::Last(_, _) => true,
        _ => false,
    }
}

fn any_sees_order(results: &[AggSpec]) -> bool
    ensures { result ≡ list_any sees_order results.now }
{
    results.iter().any(|agg| sees_order(agg))
}

fn stored_outline(stored: Option<&Stored>) -> Result<Outline, NoMemory>
    ensures { IfOk result (λ found. (passes : ℕ → Passing) → outline_form found passes ≡ stored_form (option_copied stored.entry)) }
{
    match stored {
        None => Ok(Outline::Dsread(0, None)),
        Some(data) => Ok(Outline::Dsread(data.partitions, Copied::copied(&data.place)?)),
    }
}

fn kind_outline(
    kind: &OpKind,
    keys: &Items<KeyList>,
    stored: Option<&Stored>,
) -> Result<Outline, NoMemory>
    ensures { IfOk result (λ found. (columns : List ℕ) (width : ℕ) → outline_form found (kind_passes kind.now columns width) ≡ kind_form kind.now keys.now columns (option_copied stored.entry) width) }
{
    match kind {
        OpKind::Import { .. } => Ok(Outline::Import),
        OpKind::Dsread { .. } => stored_outline(stored),
        OpKind::Export { .. }
        | OpKind::Dswrite { .. }
        | OpKind::Copy
        | OpKind::Filter { .. }
        | OpKind::Transform { .. }
        | OpKind::Modify { .. }
        | OpKind::Switch { .. } => Ok(Outline::ByRow),
        OpKind::Tsort { .. } => Ok(Outline::Tsort(keys_of(keys, 0)?)),
        OpKind::Remdup { .. } => Ok(Outline::Remdup(keys_of(keys, 0)?)),
        OpKind::Group { hash, results, .. } => Ok(Outline::Group(
            keys_of(keys, 0)?,
            *hash,
            any_sees_order(results.as_slice()),
        )),
        OpKind::InnerJoin { .. }
        | OpKind::LeftOuterJoin { .. }
        | OpKind::RightOuterJoin { .. }
        | OpKind::FullOuterJoin { .. } => {
            Ok(Outline::Join(keys_of(keys, 0)?, keys_of(keys, 1)?))
        }
        OpKind::Merge { .. } => Ok(Outline::Merge(keys.copied()?)),
        OpKind::Lookup { .. } => Ok(Outline::Lookup(keys_of(keys, 0)?, keys_of(keys, 1)?)),
        OpKind::Changecapture { .. } => Ok(Outline::Changecapture(keys_of(keys, 0)?)),
        OpKind::Funnel { sequence, .. } => Ok(Outline::Funnel(*sequence, keys_of(keys, 0)?)),
    }
}

/// What is seen of an operator.
pub fn outline_at(shaped: &Shaped, op: u32) -> Result<Outline, NoMemory>
    requires ops { op < length shaped.now.flow.ops }
    requires parts { op < length shaped.now.parts }
    requires stored { op < length shaped.now.stored }
    ensures { IfOk result (λ found. outline_form found (passes_at shaped.now op) ≡ form_at shaped.now op) }
{
    let kind = &shaped.flow().ops.as_slice()[op as usize].kind;
    kind_outline(kind, &shaped.parts(op).keys, shaped.stored(op))
}
