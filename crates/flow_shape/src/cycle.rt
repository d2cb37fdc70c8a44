ghost use Rattle.std.specs.Prelude.{◌≡◌, ◌<◌, ◌^◌, ◌==◌, ◌||◌, ◌&&◌, not, ℕ, true, false, length, get_or, IfOk, IfSome, IfNone, position};
ghost use Rattle.std.specs.List.{list_any};
ghost use Rattle.flow_shape.specs.Lowest.{IsLowest, HasNone};
ghost use Rattle.flow_shape.specs.Links.{AreWithin, Reaches, OnCycle, is_open};

use ds_value::NoMemory;
use flow_graph::{Flow, LinkSpec};
use std::alloc::Global;

fn is_marked(marks: &[bool], op: u32, otherwise: bool) -> bool
    ensures { result ≡ get_or marks.now op otherwise }
{
    match marks.get(op as usize) {
        Some(mark) => *mark,
        None => otherwise,
    }
}

fn begins(start: u32, marks: &[bool], link: &LinkSpec) -> bool
    ensures { result ≡ ((link.now.from == start) || get_or marks.now link.now.from false) }
{
    link.from == start || is_marked(marks, link.from, false)
}

/// Whether a link leads from what is reached to what isn't yet.
fn is_open(start: u32, marks: &[bool], link: &LinkSpec) -> bool
    ensures { result ≡ is_open start marks.now link.now }
{
    begins(start, marks, link) && !is_marked(marks, link.to, true)
}

fn open_link(start: u32, marks: &[bool], links: &[LinkSpec]) -> Option<usize>
    ensures place { result ≡ position (is_open start marks.now) links.now }
    ensures within { IfSome result (λ k. k < length links.now) }
{
    links.iter().position(|link| is_open(start, marks, link))
}

/// Marks what an operator reaches.
fn reached(alloc: Global, count: u32, links: &[LinkSpec], start: u32) -> Result<Vec<bool>, NoMemory>
    ensures len { IfOk result (λ marks. length marks.items ≡ count) }
    ensures sound { IfOk result (λ marks. (v : ℕ) → get_or marks.items v false ≡ true → Reaches links.now start v) }
    ensures closed { IfOk result (λ marks. list_any (is_open start marks.items) links.now ≡ false) }
{
    let mut marks = vec![in alloc; false; count as usize]?;
    while let Some(k) = open_link(start, marks.as_slice(), links) {
        let to = links[k].to as usize;
        marks[to] = true;
    }
    Ok(marks)
}

/// Whether an operator is on a cycle.
fn is_on_cycle(alloc: Global, count: u32, links: &[LinkSpec], op: u32) -> Result<bool, NoMemory>
    requires { AreWithin count links.now }
    ensures yes { IfOk result (λ yes. yes ≡ true → OnCycle links.now op) }
    ensures no { IfOk result (λ yes. yes ≡ false → OnCycle links.now op → ⊥) }
{
    let marks = reached(alloc, count, links, op)?;
    Ok(is_marked(marks.as_slice(), op, false))
}

/// The lowest operator on a cycle.
pub fn lowest_on_cycle(alloc: Global, flow: &Flow) -> Result<Option<u32>, NoMemory>
    requires few { length flow.now.ops < 2 ^ 32 }
    requires within { AreWithin (length flow.now.ops) flow.now.links }
    ensures found { IfOk result (λ r. IfSome r (λ i. IsLowest (length flow.now.ops) (OnCycle flow.now.links) i)) }
    ensures none { IfOk result (λ r. IfNone r (HasNone (length flow.now.ops) (OnCycle flow.now.links))) }
{
    let count = flow.ops.as_slice().len() as u32;
    for op in 0..count {
        if is_on_cycle(alloc, count, flow.links.as_slice(), op)? {
            return Ok(Some(op));
        }
    }
    Ok(None)
}
