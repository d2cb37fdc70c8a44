//! The nodes of a configuration.

ghost use Rattle.std.specs.Prelude.{◌≡◌, [], codes, length};
ghost use Rattle.ds_lex.specs.Reading.{Moves, Gives};
ghost use Rattle.config_read.specs.Reading.{Adds, further_node_at, node_at, nodes_at, text_at};

use crate::config::Node;
use crate::entry::entries;
use crate::fault::ConfigWhy;
use crate::quoted::{named, push, refuse};
use ds_lex::{Cursor, Sort, Stop};
use ds_value::Items;
use std::alloc::Global;

/// How many nodes a configuration may have.
const NODES: usize = 64;

/// A node behind these nodes.
#[tactic(auto, unfolding(crate::specs::Reading::node_at))]
fn node(
    alloc: Global,
    cursor: &mut Cursor<'_>,
    nodes: &Items<Node>,
) -> Result<Node, Stop<ConfigWhy>>
    ensures { Moves result cursor.new (node_at nodes.now cursor.old) }
{
    let word = cursor.expect(b"node", ConfigWhy::Syntax)?;
    if nodes.as_slice().len() >= NODES {
        return Err(refuse(word, ConfigWhy::TooMany));
    }
    let token = cursor.expect_sort(Sort::Quoted, ConfigWhy::Syntax)?;
    let name = named(alloc, nodes, token)?;
    cursor.expect(b"{", ConfigWhy::Syntax)?;
    let mut node = Node {
        name,
        pools: Items::new(alloc),
        scratch: Items::new(alloc),
    };
    entries(alloc, cursor, &mut node)?;
    Ok(node)
}

#[tactic(auto, unfolding(crate::specs::Reading::further_node_at))]
fn further_node(
    alloc: Global,
    cursor: &mut Cursor<'_>,
    nodes: &mut Items<Node>,
) -> Result<(), Stop<ConfigWhy>>
    ensures { Adds result nodes.new cursor.new (further_node_at nodes.old cursor.old) }
{
    let node = node(alloc, cursor, nodes)?;
    push(nodes, node)
}

/// Further nodes, up to the end of the configuration.
fn more_nodes(
    alloc: Global,
    cursor: &mut Cursor<'_>,
    nodes: &mut Items<Node>,
) -> Result<(), Stop<ConfigWhy>>
    ensures { Adds result nodes.new cursor.new (nodes_at nodes.old cursor.old) }
{
    while !cursor.accept(b"}") {
        further_node(alloc, cursor, nodes)?;
    }
    Ok(())
}

/// The nodes that all the tokens of a text spell.
#[tactic(auto, unfolding(crate::specs::Reading::text_at))]
pub fn nodes(alloc: Global, cursor: &mut Cursor<'_>) -> Result<Items<Node>, Stop<ConfigWhy>>
    ensures { Gives result (text_at cursor.old) }
{
    cursor.expect(b"{", ConfigWhy::Syntax)?;
    let mut nodes = Items::new(alloc);
    further_node(alloc, cursor, &mut nodes)?;
    more_nodes(alloc, cursor, &mut nodes)?;
    cursor.finish(ConfigWhy::Syntax)?;
    Ok(nodes)
}
