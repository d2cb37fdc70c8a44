ghost use Rattle.std.specs.Prelude.{◌≡◌, ◌<◌, ◌==◌, ◌||◌, ◌&&◌, not, ℕ, true, false, length, IfOk, IfSome, IfNone};
ghost use Rattle.std.specs.List.{list_all};
ghost use Rattle.flow_shape.specs.Lowest.{IsLowest};
ghost use Rattle.flow_shape.specs.Laws.{OneOrder, OrderedIsFree};
ghost use Rattle.flow_shape.specs.Links.{IsOrder, is_done, is_ready};

use ds_value::NoMemory;
use flow_graph::LinkSpec;
use std::alloc::Global;

fn is_done(done: &[u32], op: u32) -> bool
    ensures { result ≡ is_done done.now op }
{
    done.iter().any(|other| *other == op)
}

fn allows(done: &[u32], op: u32, link: &LinkSpec) -> bool
    ensures { result ≡ (not (link.now.to == op) || is_done done.now link.now.from) }
{
    link.to != op || is_done(done, link.from)
}

fn is_fed(links: &[LinkSpec], done: &[u32], op: u32) -> bool
    ensures { result ≡ list_all (λ l. not (l.to == op) || is_done done.now l.from) links.now }
{
    links.iter().all(|link| allows(done, op, link))
}

fn is_ready(links: &[LinkSpec], done: &[u32], op: u32) -> bool
    ensures { result ≡ is_ready links.now done.now op }
{
    !is_done(done, op) && is_fed(links, done, op)
}

/// The lowest operator that is ready.
fn lowest_ready(count: u32, links: &[LinkSpec], done: &[u32]) -> Option<u32>
    ensures found { IfSome result (λ i. IsLowest count (λ j. is_ready links.now done.now j ≡ true) i) }
    ensures none { IfNone result ((j : ℕ) → j < count → is_ready links.now done.now j ≡ false) }
{
    for op in 0..count {
        if is_ready(links, done, op) {
            return Some(op);
        }
    }
    None
}

/// The operators in topological order, as far as there is one.
pub fn order(alloc: Global, count: u32, links: &[LinkSpec]) -> Result<Vec<u32>, NoMemory>
    ensures { IfOk result (λ order. IsOrder count links.now order.items) }
{
    let mut done = Vec::new(alloc);
    while let Some(i) = lowest_ready(count, links, done.as_slice()) {
        done.push(i)?;
    }
    Ok(done)
}

/// There is one order only.
#[tactic(auto, using(crate::proofs::Orders::one_order))]
pub fn one_order()
    ensures { OneOrder }
{}

/// An operator of the order is on no cycle.
#[tactic(auto, using(crate::proofs::Orders::ordered_is_free))]
pub fn ordered_is_free()
    ensures { OrderedIsFree }
{}
