//! Each operator in turn, over the lists of its partitions.

ghost use Rattle.std.specs.Prelude.{◌≡◌, ◌≢◌, ◌<◌, ◌==◌, ◌∷◌, [], ℕ, List, true, false, cond, nat_lt, All, OnOk, IfOk, MatchOption, length, map, get_or, set};
ghost use Rattle.op_base.specs.Columns.{Row as Cells};
ghost use Rattle.flow_graph.specs.FlowShape.{IsShape};
ghost use Rattle.flow_graph.specs.Charts.{all_links, link_at, into_seq, is_seq, op_at};
ghost use Rattle.flow_derive.specs.LinkStates.{choice_at};
ghost use Rattle.list_run.specs.Found.{Tallies};
ghost use Rattle.list_run.specs.Held.{CameFits, HasRoom, MaySend, Moves, Puts, Steps, found_at, inputs_of, leaves, leaves_but, made_at, out_on, outputs, place_on, sent_on, waits, worked_at};
ghost use Rattle.list_run.specs.Routed.{Joins, SuitsRoute};
ghost use Rattle.flow_rules.specs.Exports.{input_of};
ghost use Rattle.list_run.specs.Runnable.{CanRun, IsBuilt, IsRunOf, IsRunnable, OpsAre, degree_at, row_count};
ghost use Rattle.flow_ops.specs.Kinds.{widths_into};
ghost use Rattle.list_run.specs.Turns.{Stands};
ghost use Rattle.list_run.specs.Worked.{IsWorked};
ghost use Rattle.flow_graph.specs.Operators.{Op};

use crate::delivery::{deliver, one_partition};
use crate::emitting::work_on_each;
use crate::held::{Held, take_at};
use crate::lanes::{Partitions, copy_partitions};
use crate::ran::Ran;
use crate::work::pass_each;
use ds_schema::Row;
use ds_value::{Items, NoMemory};
use flow_graph::{Choice, Mark, OpKind, Shaped};
use std::alloc::Global;

/// As many rows as are counted.
const COUNTED: u64 = 0x7fff_ffff_ffff_ffff;

fn count_rows(lists: &Partitions) -> u64
    ensures { result ≡ row_count lists.now }
{
    let mut count: u64 = 0;
    for rows in lists.as_slice() {
        count = count
            .saturating_add(rows.as_slice().len() as u64)
            .min(COUNTED);
    }
    count
}

/// Whether an operator is sequential.
fn is_sequential(shaped: &Shaped, op: u32) -> bool
    ensures { result ≡ is_seq (op_at shaped.now op).mark }
{
    match shaped.flow().ops.as_slice().get(op as usize) {
        Some(spec) => spec.mark == Mark::Seq,
        None => true,
    }
}

fn degree(shaped: &Shaped, nodes: u32, op: u32) -> u32
    ensures { result ≡ degree_at shaped.now nodes op }
{
    if is_sequential(shaped, op) { 1 } else { nodes }
}

/// The link at input 0.
fn input_of(shaped: &Shaped, op: u32) -> usize
    ensures { result ≡ input_of shaped.now op }
{
    for (link, spec) in shaped.flow().links.as_slice().iter().enumerate() {
        if spec.to == op {
            return link;
        }
    }
    0
}

/// Takes what waits at the operator's inputs, by port.
fn take_inputs(
    alloc: Global,
    shaped: &Shaped,
    op: u32,
    waiting: &mut Vec<Partitions>,
) -> Result<Vec<Partitions>, NoMemory>
    ensures inputs { IfOk result (λ inputs. inputs.items ≡ inputs_of shaped.now op (λ l. get_or waiting.old.items l [])) }
    ensures others { OnOk result ((l : ℕ) → (link_at shaped.now l).to ≢ op → get_or waiting.new.items l [] ≡ get_or waiting.old.items l []) }
    ensures count { OnOk result (length waiting.new.items ≡ length waiting.old.items) }
{
    let mut inputs = Vec::new(alloc);
    for (link, spec) in shaped.flow().links.as_slice().iter().enumerate() {
        if spec.to == op {
            inputs.push(take_at(alloc, waiting, link))?;
        }
    }
    Ok(inputs)
}

/// The numbers of columns of the operator's inputs, by port.
fn widths_into(alloc: Global, shaped: &Shaped, op: u32) -> Result<Vec<u32>, NoMemory>
    requires { IsShape shaped.now }
    ensures { IfOk result (λ widths. widths.items ≡ widths_into shaped.now op) }
{
    let mut widths = Vec::new(alloc);
    for (link, spec) in shaped.flow().links.as_slice().iter().enumerate() {
        if spec.to == op {
            widths.push(shaped.schema(link as u32).as_slice().len() as u32)?;
        }
    }
    Ok(widths)
}

/// A link that leaves the operator, if there is one.
fn output_of(shaped: &Shaped, op: u32) -> Option<usize>
    ensures { MatchOption result ((l : ℕ) → l < length shaped.now.flow.links → leaves shaped.now op l ≡ false) (λ l. (l < length shaped.now.flow.links) × (leaves shaped.now op l ≡ true)) }
{
    for (link, spec) in shaped.flow().links.as_slice().iter().enumerate() {
        if spec.from == op {
            return Some(link);
        }
    }
    None
}

/// Whether a link leaves the operator.
fn leaves(shaped: &Shaped, op: u32, link: usize) -> bool
    requires { link < length shaped.now.flow.links }
    ensures { result ≡ leaves shaped.now op link }
{
    shaped.flow().links.as_slice()[link].from == op
}

/// Puts on a link what its producer's partitions have for it.
fn put(
    alloc: Global,
    shaped: &Shaped,
    choices: &[Choice],
    nodes: u32,
    link: usize,
    sent: Partitions,
    held: &mut Held,
) -> Result<(), NoMemory>
    requires link { link < length shaped.now.flow.links }
    requires chosen { choices.now ≡ map (choice_at shaped.now) (all_links shaped.now) }
    requires some { 0 < nodes }
    requires room { HasRoom shaped.now held.old }
    requires joins { Joins (into_seq shaped.now link) (choice_at shaped.now link).method (length sent) (degree_at shaped.now nodes (link_at shaped.now link).to) }
    requires rows { All (All (SuitsRoute (choice_at shaped.now link).method)) sent }
    ensures { OnOk result (Puts shaped.now nodes (λ l. l == link) (λ l. sent) held.old held.new) }
{
    let to = shaped.flow().links.as_slice()[link].to;
    let sequential = is_sequential(shaped, to);
    let count = degree(shaped, nodes, to);
    held.counts[link] = count_rows(&sent);
    held.waiting[link] = deliver(alloc, &choices[link], sequential, sent, count)?;
    Ok(())
}

/// Puts a copy of what an operator made on each link that leaves it, but the last.
fn put_copies(
    alloc: Global,
    shaped: &Shaped,
    choices: &[Choice],
    nodes: u32,
    op: u32,
    last: usize,
    sent: &Partitions,
    held: &mut Held,
) -> Result<(), NoMemory>
    requires chosen { choices.now ≡ map (choice_at shaped.now) (all_links shaped.now) }
    requires some { 0 < nodes }
    requires room { HasRoom shaped.now held.old }
    requires may { MaySend shaped.now nodes op (λ l. sent.now) }
    ensures { OnOk result (Puts shaped.now nodes (λ l. cond (nat_lt l (length shaped.now.flow.links)) (leaves_but shaped.now op last l) false) (λ l. sent.now) held.old held.new) }
{
    for link in 0..shaped.flow().links.as_slice().len() {
        if link == last || !leaves(shaped, op, link) {
            continue;
        }
        let copy = copy_partitions(alloc, sent)?;
        put(alloc, shaped, choices, nodes, link, copy, held)?;
    }
    Ok(())
}

/// Puts what an operator made on each link that leaves it.
fn send(
    alloc: Global,
    shaped: &Shaped,
    choices: &[Choice],
    nodes: u32,
    op: u32,
    sent: Partitions,
    held: &mut Held,
) -> Result<(), NoMemory>
    requires chosen { choices.now ≡ map (choice_at shaped.now) (all_links shaped.now) }
    requires some { 0 < nodes }
    requires room { HasRoom shaped.now held.old }
    requires may { MaySend shaped.now nodes op (λ l. sent) }
    ensures { OnOk result (Puts shaped.now nodes (outputs shaped.now op) (λ l. sent) held.old held.new) }
{
    let Some(last) = output_of(shaped, op) else {
        return Ok(());
    };
    put_copies(alloc, shaped, choices, nodes, op, last, &sent, held)?;
    put(alloc, shaped, choices, nodes, last, sent, held)?;
    Ok(())
}

/// Whether no link behind this one leaves the operator with the same list.
fn is_last(shaped: &Shaped, op: u32, link: usize, outs: usize) -> bool
    requires link { link < length shaped.now.flow.links }
    requires outs { 0 < outs }
    ensures { result ≡ true → (l : ℕ) → link < l → l < length shaped.now.flow.links → leaves shaped.now op l ≡ true → place_on shaped.now outs l ≢ place_on shaped.now outs link }
{
    let place = place_on(shaped, link, outs);
    for later in 0..shaped.flow().links.as_slice().len() {
        if later <= link {
            continue;
        }
        if !leaves(shaped, op, later) {
            continue;
        }
        if place_on(shaped, later, outs) == place {
            return false;
        }
    }
    true
}

/// Which of the lists of its producer a link has.
fn place_on(shaped: &Shaped, link: usize, outs: usize) -> usize
    requires link { link < length shaped.now.flow.links }
    requires outs { 0 < outs }
    ensures { result ≡ place_on shaped.now outs link }
{
    (shaped.flow().links.as_slice()[link].out as usize).min(outs - 1)
}

/// The list, or a copy of it, where it is to stay.
fn take_or_copy(
    alloc: Global,
    outs: &mut Vec<Partitions>,
    at: usize,
    take: bool,
) -> Result<Partitions, NoMemory>
    requires { at < length outs.old.items }
    ensures list { IfOk result (λ lists. lists ≡ get_or outs.old.items at []) }
    ensures count { OnOk result (length outs.new.items ≡ length outs.old.items) }
    ensures rest { OnOk result ((k : ℕ) → (take ≡ true → k ≢ at) → get_or outs.new.items k [] ≡ get_or outs.old.items k []) }
{
    if take {
        Ok(take_at(alloc, outs, at))
    } else {
        copy_partitions(alloc, &outs[at])
    }
}

/// Puts on each link that leaves an operator what that made for its output.
fn send_outputs(
    alloc: Global,
    shaped: &Shaped,
    choices: &[Choice],
    nodes: u32,
    op: u32,
    outs: Vec<Partitions>,
    held: &mut Held,
) -> Result<(), NoMemory>
    requires chosen { choices.now ≡ map (choice_at shaped.now) (all_links shaped.now) }
    requires some { 0 < nodes }
    requires outs { 0 < length outs.items }
    requires room { HasRoom shaped.now held.old }
    requires may { MaySend shaped.now nodes op (out_on shaped.now outs.items) }
    ensures { OnOk result (Puts shaped.now nodes (outputs shaped.now op) (out_on shaped.now outs.items) held.old held.new) }
{
    let mut outs = outs;
    let count = outs.len();
    for link in 0..shaped.flow().links.as_slice().len() {
        if !leaves(shaped, op, link) {
            continue;
        }
        let last = is_last(shaped, op, link, count);
        let sent = take_or_copy(alloc, &mut outs, place_on(shaped, link, count), last)?;
        put(alloc, shaped, choices, nodes, link, sent, held)?;
    }
    Ok(())
}

/// Puts on each link that leaves an import the rows that are given for it.
fn send_sources(
    alloc: Global,
    shaped: &Shaped,
    choices: &[Choice],
    nodes: u32,
    op: u32,
    sources: &mut Vec<Items<Row>>,
    held: &mut Held,
) -> Result<(), NoMemory>
    requires chosen { choices.now ≡ map (choice_at shaped.now) (all_links shaped.now) }
    requires some { 0 < nodes }
    requires room { HasRoom shaped.now held.old }
    requires may { MaySend shaped.now nodes op (λ l. get_or sources.old.items l [] ∷ []) }
    ensures puts { OnOk result (Puts shaped.now nodes (outputs shaped.now op) (λ l. get_or sources.old.items l [] ∷ []) held.old held.new) }
    ensures kept { OnOk result ((l : ℕ) → leaves shaped.now op l ≡ false → get_or sources.new.items l [] ≡ get_or sources.old.items l []) }
    ensures count { OnOk result (length sources.new.items ≡ length sources.old.items) }
{
    for link in 0..shaped.flow().links.as_slice().len() {
        if !leaves(shaped, op, link) {
            continue;
        }
        let given = one_partition(alloc, take_at(alloc, sources, link))?;
        put(alloc, shaped, choices, nodes, link, given, held)?;
    }
    Ok(())
}

/// Keeps what came at an export.
fn keep(alloc: Global, shaped: &Shaped, op: u32, held: &mut Held)
    requires { op < length held.old.sinks.items }
    ensures waiting { held.new.waiting.items ≡ set held.old.waiting.items (input_of shaped.now op) [] }
    ensures counts { held.new.counts.items ≡ held.old.counts.items }
    ensures sinks { held.new.sinks.items ≡ set held.old.sinks.items op (get_or held.old.waiting.items (input_of shaped.now op) []) }
    ensures tally { held.new.tally ≡ held.old.tally }
{
    let got = take_at(alloc, &mut held.waiting, input_of(shaped, op));
    held.sinks[op as usize] = got;
}

/// Takes what came at a copy, a tsort or a remdup, and sends what it makes of that.
fn pass_on(
    alloc: Global,
    shaped: &Shaped,
    choices: &[Choice],
    nodes: u32,
    op: u32,
    held: &mut Held,
) -> Result<(), NoMemory>
    requires op { op < length shaped.now.flow.ops }
    requires parts { length shaped.now.parts ≡ length shaped.now.flow.ops }
    requires chosen { choices.now ≡ map (choice_at shaped.now) (all_links shaped.now) }
    requires some { 0 < nodes }
    requires room { HasRoom shaped.now held.old }
    requires input { (link_at shaped.now (input_of shaped.now op)).to ≡ op }
    requires may { MaySend shaped.now nodes op (λ l. made_at shaped.now op held.old) }
    ensures { OnOk result (Moves shaped.now nodes op (outputs shaped.now op) (λ l. made_at shaped.now op held.old) [] held.old held.new) }
{
    let got = take_at(alloc, &mut held.waiting, input_of(shaped, op));
    let kind = &shaped.flow().ops.as_slice()[op as usize].kind;
    let made = pass_each(alloc, kind, shaped.parts(op), got)?;
    send(alloc, shaped, choices, nodes, op, made, held)?;
    Ok(())
}

/// Takes what came at an operator that emits rows for some outputs, or faults, and sends what it
/// makes of that for each output.
fn work_on(
    alloc: Global,
    shaped: &Shaped,
    choices: &[Choice],
    nodes: u32,
    op: u32,
    held: &mut Held,
) -> Result<(), NoMemory>
    requires shape { IsShape shaped.now }
    requires op { op < length shaped.now.flow.ops }
    requires chosen { choices.now ≡ map (choice_at shaped.now) (all_links shaped.now) }
    requires some { 0 < nodes }
    requires room { HasRoom shaped.now held.old }
    requires worked { IsWorked (op_at shaped.now op).kind }
    requires built { IsBuilt shaped.now op (op_at shaped.now op).kind }
    requires fits { CameFits shaped.now op (waits held.old) }
    requires may { MaySend shaped.now nodes op (worked_at shaped.now op held.old) }
    ensures { OnOk result (Moves shaped.now nodes op (outputs shaped.now op) (worked_at shaped.now op held.old) (found_at shaped.now op (waits held.old)) held.old held.new) }
{
    let inputs = take_inputs(alloc, shaped, op, &mut held.waiting)?;
    let widths = widths_into(alloc, shaped, op)?;
    let kind = &shaped.flow().ops.as_slice()[op as usize].kind;
    let parts = shaped.parts(op);
    let outs = work_on_each(alloc, op, kind, parts, &widths, inputs, &mut held.tally)?;
    send_outputs(alloc, shaped, choices, nodes, op, outs, held)?;
    Ok(())
}

/// An operator's turn: it takes what waits for it, and puts what it makes of that on its links.
fn run_operator(
    alloc: Global,
    shaped: &Shaped,
    choices: &[Choice],
    nodes: u32,
    op: u32,
    sources: &mut Vec<Items<Row>>,
    held: &mut Held,
) -> Result<(), NoMemory>
    requires shape { IsShape shaped.now }
    requires op { op < length shaped.now.flow.ops }
    requires built { IsBuilt shaped.now op (op_at shaped.now op).kind }
    requires chosen { choices.now ≡ map (choice_at shaped.now) (all_links shaped.now) }
    requires some { 0 < nodes }
    requires room { HasRoom shaped.now held.old }
    requires fits { CameFits shaped.now op (waits held.old) }
    requires may { MaySend shaped.now nodes op (sent_on shaped.now (waits held.old) (λ i. get_or sources.old.items i [])) }
    ensures { OnOk result (Steps shaped.now nodes op sources.old.items sources.new.items held.old held.new) }
{
    match &shaped.flow().ops.as_slice()[op as usize].kind {
        OpKind::Import { .. } => {
            send_sources(alloc, shaped, choices, nodes, op, sources, held)?;
            Ok(())
        }
        OpKind::Export { .. } => {
            keep(alloc, shaped, op, held);
            Ok(())
        }
        OpKind::Copy | OpKind::Tsort { .. } | OpKind::Remdup { .. } => {
            pass_on(alloc, shaped, choices, nodes, op, held)?;
            Ok(())
        }
        OpKind::Filter { .. }
        | OpKind::Transform { .. }
        | OpKind::Modify { .. }
        | OpKind::Switch { .. }
        | OpKind::Group { .. }
        | OpKind::InnerJoin { .. }
        | OpKind::LeftOuterJoin { .. }
        | OpKind::RightOuterJoin { .. }
        | OpKind::FullOuterJoin { .. }
        | OpKind::Lookup { .. } => {
            work_on(alloc, shaped, choices, nodes, op, held)?;
            Ok(())
        }
        _ => unreachable!(),
    }
}

/// Each operator's turn, in the order of the flow.
fn run_all(
    alloc: Global,
    shaped: &Shaped,
    choices: &[Choice],
    nodes: u32,
    sources: &mut Vec<Items<Row>>,
    held: &mut Held,
) -> Result<(), NoMemory>
    requires runs { IsRunnable shaped.now choices.now nodes sources.old.items }
    requires room { HasRoom shaped.now held.old }
    requires tally { Tallies [] held.old.tally }
    ensures { OnOk result (Stands shaped.now nodes sources.old.items (length shaped.now.order) sources.new.items held.new) }
{
    for op in shaped.order() {
        run_operator(alloc, shaped, choices, nodes, *op, sources, held)?;
    }
    Ok(())
}

/// Runs a flow over the rows that its imports put on their links, by link.
pub fn run_lists(
    alloc: Global,
    shaped: &Shaped,
    choices: &[Choice],
    nodes: u32,
    sources: Items<Items<Row>>,
) -> Result<Ran, NoMemory>
    requires { CanRun shaped.now choices.now nodes sources }
    ensures { IfOk result (λ ran. (ops : ℕ → Op) → OpsAre shaped.now sources ops → IsRunOf shaped.now nodes ops ran) }
{
    shaped.is_shaped();
    let flow = shaped.flow();
    let mut held = Held::new(
        alloc,
        flow.links.as_slice().len(),
        flow.ops.as_slice().len(),
    )?;
    let mut sources = sources.into_vec();
    run_all(alloc, shaped, choices, nodes, &mut sources, &mut held)?;
    let Held {
        waiting: _,
        counts,
        sinks,
        tally,
    } = held;
    Ok(Ran {
        counts: Items::from_vec(counts),
        sinks: Items::from_vec(sinks),
        faults: tally.faults,
        least: tally.least,
    })
}
