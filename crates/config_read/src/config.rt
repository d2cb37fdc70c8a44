ghost use Rattle.std.specs.Prelude.{◌≡◌, ◌==◌, ◌-◌, ◌^◌, min, length};
ghost use Rattle.std.specs.List.{list_any};
ghost use Rattle.config_read.specs.Pools.{is_default, default_count};

use ds_value::{Items, Name, Name0};

/// A processing node. A node with no pools is in the default pool; else it is there where one of its
/// pools is the empty name.
#[derive(Debug, Drop)]
pub struct Node {
    pub name: Name,
    pub pools: Items<Name0>,
    /// The paths of its scratch disks.
    pub scratch: Items<Name0>,
}

#[derive(Debug, Drop)]
pub struct Config {
    pub nodes: Items<Node>,
}

fn is_empty(pool: &Name0) -> bool
    ensures { result ≡ (length pool.now == 0) }
{
    pool.as_slice().is_empty()
}

fn has_empty(pools: &[Name0]) -> bool
    ensures { result ≡ list_any (λ pool. length pool == 0) pools.now }
{
    pools.iter().any(|pool| is_empty(pool))
}

/// Whether the node is in the default pool.
pub fn is_default(node: &Node) -> bool
    ensures { result ≡ is_default node.now }
{
    let pools = node.pools.as_slice();
    pools.is_empty() || has_empty(pools)
}

fn count_default(nodes: &[Node]) -> usize
    ensures { result ≡ default_count nodes.now }
{
    nodes.iter().filter(|node| is_default(*node)).count()
}

/// How many nodes are in the default pool, at most 2^32 - 1.
pub fn default_nodes(config: &Config) -> u32
    ensures { result ≡ min (default_count config.now.nodes) (2 ^ 32 - 1) }
{
    u32::try_from(count_default(config.nodes.as_slice())).unwrap_or(u32::MAX)
}
