//! The whole text of a score.

ghost use Rattle.std.specs.Prelude.{◌≡◌, ◌<◌, ◌≤◌, ◌^◌, ◌++◌, OnOk, IfOk, length, string_bytes, codes};
ghost use Rattle.std.specs.Fmt.{decimal};
ghost use Rattle.flow_graph.specs.FlowShape.{IsShape};
ghost use Rattle.flow_score.specs.Scores.{op_of, op_lines, link_of, link_lines, nodes_line, players_line, score_text};
ghost use Rattle.flow_score.specs.Seating.{Seats};

use crate::columns::put;
use crate::degrees::degree;
use crate::score_lines::{put_link, put_op};
use ds_value::{Bytes, NoMemory};
use flow_graph::{Choice, Shaped};
use std::alloc::{AllocError, Global};

#[tactic(auto, unfolding(crate::specs::Scores::op_of))]
fn put_op_of(
    alloc: Global,
    text: &mut Bytes,
    shaped: &Shaped,
    nodes: u32,
    op: usize,
) -> Result<(), NoMemory>
    requires shape { IsShape shaped.now }
    requires op { op < length shaped.now.flow.ops }
    ensures { OnOk result (text.new ≡ text.old ++ op_of shaped.now nodes op) }
{
    let degree = degree(shaped, op as u32, nodes);
    let spec = &shaped.flow().ops.as_slice()[op];
    put_op(alloc, text, op as u32, spec, degree)
}

fn put_ops(alloc: Global, text: &mut Bytes, shaped: &Shaped, nodes: u32) -> Result<(), NoMemory>
    requires { IsShape shaped.now }
    ensures { OnOk result (text.new ≡ text.old ++ op_lines shaped.now nodes) }
{
    for op in 0..shaped.flow().ops.as_slice().len() {
        put_op_of(alloc, text, shaped, nodes, op)?;
    }
    Ok(())
}

#[tactic(auto, unfolding(crate::specs::Scores::link_of))]
fn put_link_of(
    alloc: Global,
    text: &mut Bytes,
    shaped: &Shaped,
    choices: &[Choice],
    link: usize,
) -> Result<(), NoMemory>
    requires shape { IsShape shaped.now }
    requires each { length choices.now ≡ length shaped.now.flow.links }
    requires link { link < length shaped.now.flow.links }
    ensures { OnOk result (text.new ≡ text.old ++ link_of shaped.now choices.now link) }
{
    let fields = shaped.schema(link as u32).as_slice();
    let spec = &shaped.flow().links.as_slice()[link];
    put_link(alloc, text, link as u32, spec, fields, &choices[link])
}

fn put_links(
    alloc: Global,
    text: &mut Bytes,
    shaped: &Shaped,
    choices: &[Choice],
) -> Result<(), NoMemory>
    requires shape { IsShape shaped.now }
    requires each { length choices.now ≡ length shaped.now.flow.links }
    ensures { OnOk result (text.new ≡ text.old ++ link_lines shaped.now choices.now) }
{
    for link in 0..choices.len() {
        put_link_of(alloc, text, shaped, choices, link)?;
    }
    Ok(())
}

fn nodes_line(alloc: Global, nodes: u32) -> Result<String, AllocError>
    ensures { IfOk result (λ text. string_bytes text ≡ nodes_line nodes) }
{
    format!(in alloc; "score nodes {nodes}\n")
}

fn players_line(alloc: Global, players: u32) -> Result<String, AllocError>
    ensures { IfOk result (λ text. string_bytes text ≡ players_line players) }
{
    format!(in alloc; "players {players}\n")
}

/// The score of a flow with this number of players: a line for the nodes, for each operator, for
/// each link and for the players.
pub fn score_text(
    alloc: Global,
    shaped: &Shaped,
    choices: &[Choice],
    nodes: u32,
    players: u32,
) -> Result<Bytes, NoMemory>
    requires shape { IsShape shaped.now }
    requires each { length choices.now ≡ length shaped.now.flow.links }
    requires players { Seats shaped.now choices.now nodes players }
    ensures { IfOk result (λ text. text ≡ score_text shaped.now choices.now nodes) }
{
    let mut text = Bytes::new(alloc);
    put(&mut text, nodes_line(alloc, nodes)?.as_str())?;
    put_ops(alloc, &mut text, shaped, nodes)?;
    put_links(alloc, &mut text, shaped, choices)?;
    put(&mut text, players_line(alloc, players)?.as_str())?;
    Ok(text)
}
