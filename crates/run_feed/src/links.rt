//! Rows by link.

ghost use Rattle.std.specs.Prelude.{◌≡◌, ◌<◌, ℕ, true, false, [], get_or, length, IfOk, OnOk};
ghost use Rattle.std.specs.List.{list_any};
ghost use Rattle.flow_graph.specs.declared.flow.LinkSpec.{LinkSpec as Link};
ghost use Rattle.run_feed.specs.Sources.{is_same, rows_for, rows_on};

use ds_schema::{Row, copy_row};
use ds_value::{Items, NoMemory};
use flow_graph::{LinkSpec, Shaped};
use std::alloc::Global;
use std::mem;

/// What operators have of their files, by their numbers: rows, and rejected lines.
#[derive(Drop)]
pub(crate) struct Reads {
    pub rows: Items<Items<Row>>,
    pub rejected: Items<Items<Row>>,
}

/// Whether two links have the same rows of an operator.
fn is_same(a: &LinkSpec, b: &LinkSpec) -> bool
    ensures { result ≡ is_same a.now b.now }
{
    a.from == b.from && if a.out == 0 { b.out == 0 } else { b.out != 0 }
}

/// Whether one of the links has the same rows.
fn is_shared(link: &LinkSpec, links: &[LinkSpec]) -> bool
    ensures { result ≡ list_any (is_same link.now) links.now }
{
    links.iter().any(|other| is_same(link, other))
}

fn copy_rows(alloc: Global, rows: &[Row]) -> Result<Items<Row>, NoMemory>
    ensures { IfOk result (λ copy. copy ≡ rows.now) }
{
    let mut copies = Items::new(alloc);
    for row in rows {
        copies.push(copy_row(alloc, row)?)?;
    }
    Ok(copies)
}

/// Takes the rows of an operator, or copies them.
fn take_rows(
    alloc: Global,
    rows: &mut Vec<Items<Row>>,
    op: u32,
    copies: bool,
) -> Result<Items<Row>, NoMemory>
    ensures taken { IfOk result (λ taken. taken ≡ get_or rows.old.items op []) }
    ensures kept { copies ≡ true → rows.new ≡ rows.old }
    ensures others { (o : ℕ) → (o ≡ op → ⊥) → get_or rows.new.items o [] ≡ get_or rows.old.items o [] }
{
    let at = op as usize;
    if at >= rows.len() {
        return Ok(Items::new(alloc));
    }
    if copies {
        copy_rows(alloc, rows[at].as_slice())
    } else {
        Ok(mem::replace(&mut rows[at], Items::new(alloc)))
    }
}

/// The rows of a link, which leave their operator unless another link needs them too.
fn take_for(
    alloc: Global,
    rows: &mut Vec<Items<Row>>,
    rejected: &mut Vec<Items<Row>>,
    link: &LinkSpec,
    copies: bool,
) -> Result<Items<Row>, NoMemory>
    ensures taken { IfOk result (λ taken. taken ≡ rows_for rows.old.items rejected.old.items link.now) }
    ensures rest { (other : Link) → (copies ≡ false → is_same link.now other ≡ false) → rows_for rows.new.items rejected.new.items other ≡ rows_for rows.old.items rejected.old.items other }
{
    if link.out == 0 {
        take_rows(alloc, rows, link.from, copies)
    } else {
        take_rows(alloc, rejected, link.from, copies)
    }
}

/// Puts what operators read on the links that leave them.
pub(crate) fn by_link(
    alloc: Global,
    shaped: &Shaped,
    reads: Reads,
) -> Result<Items<Items<Row>>, NoMemory>
    ensures count { IfOk result (λ sources. length sources ≡ length shaped.now.flow.links) }
    ensures each { IfOk result (λ sources. (l : ℕ) → l < length shaped.now.flow.links → get_or sources l [] ≡ rows_on shaped.now reads.rows reads.rejected l) }
{
    let mut rows = reads.rows.into_vec();
    let mut rejected = reads.rejected.into_vec();
    let mut sources = Items::new(alloc);
    let links = shaped.flow().links.as_slice();
    for (at, link) in links.iter().enumerate() {
        let copies = is_shared(link, &links[at + 1..]);
        sources.push(take_for(alloc, &mut rows, &mut rejected, link, copies)?)?;
    }
    Ok(sources)
}
