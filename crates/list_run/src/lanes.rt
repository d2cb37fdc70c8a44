//! Rows on their way from the partitions of a producer to those of a consumer.

ghost use Rattle.std.specs.Prelude.{◌≡◌, ◌<◌, ◌+◌, ◌%◌, ◌∷◌, ◌++◌, [], ℕ, length, get_or, slice_set, replicate, OnOk, IfOk, All, false};
ghost use Rattle.op_base.specs.Lists.{joined};
ghost use Rattle.ds_place.specs.Places.{place_number};
ghost use Rattle.list_run.specs.Dealt.{Deals, dealt, turn_goes};
ghost use Rattle.list_run.specs.Routed.{SuitsRoute, SuitsPlace, routed};

use ds_place::{Place, partition_of};
use ds_schema::{Row, copy_row};
use ds_value::{Copied, Items, NoMemory};
use flow_graph::Route;
use std::alloc::Global;

/// The rows of each partition.
pub type Partitions = Items<Items<Row>>;

/// Puts rows behind those that are there.
fn append_rows(into: &mut Items<Row>, rows: Items<Row>) -> Result<(), NoMemory>
    ensures { OnOk result (into.new ≡ into.old ++ rows) }
{
    for row in rows.into_vec() {
        into.push(row)?;
    }
    Ok(())
}

fn copy_rows(alloc: Global, rows: &Items<Row>) -> Result<Items<Row>, NoMemory>
    ensures { IfOk result (λ copies. copies ≡ rows.now) }
{
    let mut copies = Items::new(alloc);
    for row in rows.as_slice() {
        copies.push(copy_row(alloc, row)?)?;
    }
    Ok(copies)
}

/// A copy of each row.
pub(crate) fn copy_partitions(alloc: Global, lists: &Partitions) -> Result<Partitions, NoMemory>
    ensures { IfOk result (λ copies. copies ≡ lists.now) }
{
    let mut copies = Items::new(alloc);
    for rows in lists.as_slice() {
        copies.push(copy_rows(alloc, rows)?)?;
    }
    Ok(copies)
}

/// All rows, partition by partition.
pub(crate) fn join(alloc: Global, sent: Partitions) -> Result<Items<Row>, NoMemory>
    ensures { IfOk result (λ rows. rows ≡ joined sent) }
{
    let mut all = Items::new(alloc);
    for rows in sent.into_vec() {
        append_rows(&mut all, rows)?;
    }
    Ok(all)
}

/// To each of some partitions all rows.
pub(crate) fn to_each(alloc: Global, sent: Partitions, count: u32) -> Result<Partitions, NoMemory>
    requires { 0 < count }
    ensures { IfOk result (λ got. got ≡ replicate count (joined sent)) }
{
    let rows = join(alloc, sent)?;
    let mut got = Items::new(alloc);
    for _ in 1..count {
        got.push(copy_rows(alloc, &rows)?)?;
    }
    got.push(rows)?;
    Ok(got)
}

/// So many lists without members.
pub(crate) fn empty_lists<T: Drop>(alloc: Global, count: usize) -> Result<Vec<Items<T>>, NoMemory>
    ensures { IfOk result (λ lists. lists.items ≡ replicate count []) }
{
    let mut lists = Vec::with_capacity(alloc, count)?;
    for _ in 0..count {
        lists.push(Items::new(alloc))?;
    }
    Ok(lists)
}

/// Puts a row behind those of one partition.
pub(crate) fn put_row(lists: &mut Vec<Items<Row>>, at: u32, row: Row) -> Result<(), NoMemory>
    requires { at < length lists.old.items }
    ensures { OnOk result (lists.new.items ≡ slice_set lists.old.items at (get_or lists.old.items at [] ++ row ∷ [])) }
{
    lists[at as usize].push(row)?;
    Ok(())
}

/// The partition after this one, in turn.
fn next_turn(at: u32, count: u32) -> u32
    requires { at < count }
    ensures { result ≡ (at + 1) % count }
{
    if at + 1 == count { 0 } else { at + 1 }
}

/// Deals the rows of a producer to partitions in turn.
fn deal_in_turn(
    first: u32,
    rows: Items<Row>,
    lists: &mut Vec<Items<Row>>,
    count: u32,
) -> Result<(), NoMemory>
    requires first { first < count }
    requires count { length lists.old.items ≡ count }
    ensures { OnOk result (Deals (turn_goes first count) rows lists.old.items lists.new.items) }
{
    let mut at = first;
    for row in rows.into_vec() {
        put_row(lists, at, row)?;
        at = next_turn(at, count);
    }
    Ok(())
}

/// Round robin into a parallel consumer.
pub(crate) fn round_robin(
    alloc: Global,
    sent: Partitions,
    count: u32,
) -> Result<Partitions, NoMemory>
    requires { 0 < count }
    ensures { IfOk result (λ got. got ≡ dealt (λ p t r. (p + t) % count) count sent) }
{
    let mut lists = empty_lists(alloc, count as usize)?;
    let mut first = 0;
    for rows in sent.into_vec() {
        deal_in_turn(first, rows, &mut lists, count)?;
        first = next_turn(first, count);
    }
    Ok(Items::from_vec(lists))
}

/// Deals the rows of a producer to the partitions in which a place puts them.
fn deal_by_place(
    place: &Place,
    rows: Items<Row>,
    lists: &mut Vec<Items<Row>>,
    count: u32,
) -> Result<(), NoMemory>
    requires some { 0 < count }
    requires count { length lists.old.items ≡ count }
    requires rows { All (SuitsPlace place.now) rows }
    ensures { OnOk result (Deals (λ t r. place_number place.now r count) rows lists.old.items lists.new.items) }
{
    for row in rows.into_vec() {
        let at = partition_of(place, &row, count);
        put_row(lists, at, row)?;
    }
    Ok(())
}

/// To the partitions in which a place puts the rows.
fn by_place(
    alloc: Global,
    place: &Place,
    sent: Partitions,
    count: u32,
) -> Result<Partitions, NoMemory>
    requires some { 0 < count }
    requires rows { All (All (SuitsPlace place.now)) sent }
    ensures { IfOk result (λ got. got ≡ dealt (λ p t r. place_number place.now r count) count sent) }
{
    let mut lists = empty_lists(alloc, count as usize)?;
    for rows in sent.into_vec() {
        deal_by_place(place, rows, &mut lists, count)?;
    }
    Ok(Items::from_vec(lists))
}

/// By the hash of some columns.
pub(crate) fn by_hash(
    alloc: Global,
    columns: &Items<u32>,
    sent: Partitions,
    count: u32,
) -> Result<Partitions, NoMemory>
    requires some { 0 < count }
    requires rows { All (All (SuitsRoute (Route.Hash columns.now))) sent }
    ensures { IfOk result (λ got. got ≡ routed false (Route.Hash columns.now) count sent) }
{
    let place = Place::Hash(columns.copied()?);
    let got = by_place(alloc, &place, sent, count)?;
    Ok(got)
}

/// By the remainder of a column.
pub(crate) fn by_remainder(
    alloc: Global,
    column: u32,
    sent: Partitions,
    count: u32,
) -> Result<Partitions, NoMemory>
    requires some { 0 < count }
    requires rows { All (All (SuitsRoute (Route.Modulus column))) sent }
    ensures { IfOk result (λ got. got ≡ routed false (Route.Modulus column) count sent) }
{
    let got = by_place(alloc, &Place::Modulus(column), sent, count)?;
    Ok(got)
}
