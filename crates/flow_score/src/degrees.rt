//! Degrees and players.

ghost use Rattle.std.specs.Prelude.{◌≡◌, ◌<◌, ◌≤◌, ◌^◌, ◌-◌, min, option_copied, length, IfOk, IfErr};
ghost use Rattle.flow_score.specs.Seating.{Mismatches, Seats, Refuses};
ghost use Rattle.flow_graph.specs.FlowShape.{IsShape};
ghost use Rattle.flow_score.specs.Scores.{degree, degree_at, sort_players_at, op_players, sort_players, players, is_same, joins_unequal, JoinsEqual};

use flow_graph::{Choice, Mark, Route, Shaped, Stored};

/// Why a flow can't run on so many nodes.
#[derive(Clone, Copy, Debug, PartialEq, Eq)]
pub enum ScoreFault {
    /// A link's `same` joins unequal degrees.
    DegreeMismatch { link: u32, from: u32, to: u32 },
    TooManyPlayers { players: u32 },
    Memory,
}

/// The most players of a run.
pub const MOST_PLAYERS: u32 = 512;

fn mark_degree(mark: Mark, stored: Option<&Stored>, nodes: u32) -> u32
    ensures { result ≡ degree nodes mark (option_copied stored.entry) }
{
    match mark {
        Mark::Seq => 1,
        Mark::Par => nodes,
        Mark::Stored => match stored {
            Some(stored) => stored.partitions,
            None => 0,
        },
    }
}

/// The number of partitions of an operator, with so many nodes in the default pool.
pub fn degree(shaped: &Shaped, op: u32, nodes: u32) -> u32
    requires shape { IsShape shaped.now }
    requires op { op < length shaped.now.flow.ops }
    ensures { result ≡ degree_at shaped.now nodes op }
{
    let mark = shaped.flow().ops.as_slice()[op as usize].mark;
    mark_degree(mark, shaped.stored(op), nodes)
}

fn op_players(shaped: &Shaped, nodes: u32) -> u32
    requires shape { IsShape shaped.now }
    ensures { result ≡ min (op_players shaped.now nodes (length shaped.now.flow.ops)) (2 ^ 32 - 1) }
{
    let mut total = 0_u32;
    for op in 0..shaped.flow().ops.as_slice().len() {
        total = total.saturating_add(degree(shaped, op as u32, nodes));
    }
    total
}

/// The players of the sort before a link's consumer.
fn sort_players_at(shaped: &Shaped, choices: &[Choice], nodes: u32, link: usize) -> u32
    requires shape { IsShape shaped.now }
    requires each { length choices.now ≡ length shaped.now.flow.links }
    requires link { link < length shaped.now.flow.links }
    ensures { result ≡ sort_players_at shaped.now choices.now nodes link }
{
    match &choices[link].sort {
        None => 0,
        Some(_) => degree(shaped, shaped.flow().links.as_slice()[link].to, nodes),
    }
}

fn sort_players(shaped: &Shaped, choices: &[Choice], nodes: u32) -> u32
    requires shape { IsShape shaped.now }
    requires each { length choices.now ≡ length shaped.now.flow.links }
    ensures { result ≡ min (sort_players shaped.now choices.now nodes (length shaped.now.flow.links)) (2 ^ 32 - 1) }
{
    let mut total = 0_u32;
    for link in 0..choices.len() {
        total = total.saturating_add(sort_players_at(shaped, choices, nodes, link));
    }
    total
}

/// The number of players: one for each operator, inserted sorts included, on each of its partitions.
pub fn players(shaped: &Shaped, choices: &[Choice], nodes: u32) -> u32
    requires shape { IsShape shaped.now }
    requires each { length choices.now ≡ length shaped.now.flow.links }
    ensures { result ≡ min (players shaped.now choices.now nodes) (2 ^ 32 - 1) }
{
    op_players(shaped, nodes).saturating_add(sort_players(shaped, choices, nodes))
}

fn is_same(route: &Route) -> bool
    ensures { result ≡ is_same route.now }
{
    match route {
        Route::Same => true,
        _ => false,
    }
}

/// Whether a link's `same` joins unequal degrees.
fn joins_unequal(shaped: &Shaped, choices: &[Choice], nodes: u32, link: usize) -> bool
    requires shape { IsShape shaped.now }
    requires each { length choices.now ≡ length shaped.now.flow.links }
    requires link { link < length shaped.now.flow.links }
    ensures { result ≡ joins_unequal shaped.now choices.now nodes link }
{
    if !is_same(&choices[link].method) {
        return false;
    }
    let ends = &shaped.flow().links.as_slice()[link];
    degree(shaped, ends.from, nodes) != degree(shaped, ends.to, nodes)
}

/// Whether each `same` joins equal degrees, and else the first link where one doesn't.
fn join_degrees(shaped: &Shaped, choices: &[Choice], nodes: u32) -> Result<(), ScoreFault>
    requires shape { IsShape shaped.now }
    requires each { length choices.now ≡ length shaped.now.flow.links }
    ensures equal { IfOk result (λ _. JoinsEqual shaped.now choices.now nodes) }
    ensures unequal { IfErr result (Mismatches shaped.now choices.now nodes) }
{
    for link in 0..choices.len() {
        if joins_unequal(shaped, choices, nodes, link) {
            let ends = &shaped.flow().links.as_slice()[link];
            return Err(ScoreFault::DegreeMismatch {
                link: link as u32,
                from: degree(shaped, ends.from, nodes),
                to: degree(shaped, ends.to, nodes),
            });
        }
    }
    Ok(())
}

/// The number of players of a flow that can run on so many nodes.
pub fn seat(shaped: &Shaped, choices: &[Choice], nodes: u32) -> Result<u32, ScoreFault>
    requires shape { IsShape shaped.now }
    requires each { length choices.now ≡ length shaped.now.flow.links }
    ensures ok { IfOk result (Seats shaped.now choices.now nodes) }
    ensures err { IfErr result (Refuses shaped.now choices.now nodes) }
{
    join_degrees(shaped, choices, nodes)?;
    let players = players(shaped, choices, nodes);
    if players > MOST_PLAYERS {
        return Err(ScoreFault::TooManyPlayers { players });
    }
    Ok(players)
}
