//! The entries of a node.

ghost use Rattle.std.specs.Prelude.{◌≡◌, codes, length};
ghost use Rattle.ds_lex.specs.Lexemes.{lexeme};
ghost use Rattle.ds_lex.specs.Reading.{Fails, Moves};
ghost use Rattle.config_read.specs.Reading.{Adds, Makes, pool_named, more_pools_at, pools_at, behind_quoted, unused_at, with_path, braces_at, resource_at, fastname_at, entry_at, entries_at};

use crate::config::Node;
use crate::fault::ConfigWhy;
use crate::quoted::{named0, next_quoted, push, refuse};
use ds_lex::{Cursor, Lexeme, Sort, Stop};
use std::alloc::Global;

fn add_pool(alloc: Global, node: &mut Node, token: Lexeme<'_>) -> Result<(), Stop<ConfigWhy>>
    ensures { Makes result node.new (pool_named node.old (lexeme token.entry)) }
{
    let pool = named0(alloc, token)?;
    push(&mut node.pools, pool)
}

/// The pools that follow the word.
#[tactic(auto, unfolding(crate::specs::Reading::pools_at))]
fn pools(alloc: Global, cursor: &mut Cursor<'_>, node: &mut Node) -> Result<(), Stop<ConfigWhy>>
    ensures { Adds result node.new cursor.new (pools_at node.old cursor.old) }
{
    let first = cursor.expect_sort(Sort::Quoted, ConfigWhy::Syntax)?;
    add_pool(alloc, node, first)?;
    more_pools(alloc, cursor, node)
}

fn more_pools(
    alloc: Global,
    cursor: &mut Cursor<'_>,
    node: &mut Node,
) -> Result<(), Stop<ConfigWhy>>
    ensures { Adds result node.new cursor.new (more_pools_at node.old cursor.old) }
{
    while let Some(token) = next_quoted(cursor) {
        add_pool(alloc, node, token)?;
    }
    Ok(())
}

fn pass_quoted(cursor: &mut Cursor<'_>)
    ensures { cursor.new ≡ behind_quoted cursor.old }
{
    while next_quoted(cursor).is_some() {}
}

/// The pools of a resource, which aren't used, behind their bracket.
#[tactic(auto, unfolding(crate::specs::Reading::unused_at))]
fn unused_pools<'a>(cursor: &mut Cursor<'a>) -> Result<(), Stop<ConfigWhy>>
    ensures { Moves result cursor.new (unused_at cursor.old) }
{
    cursor.expect(b"pools", ConfigWhy::Syntax)?;
    cursor.expect_sort(Sort::Quoted, ConfigWhy::Syntax)?;
    pass_quoted(cursor);
    cursor.expect(b"}", ConfigWhy::Syntax)?;
    Ok(())
}

/// Keeps the path of a scratch disk.
fn add_path(
    alloc: Global,
    node: &mut Node,
    kind: Lexeme<'_>,
    path: Lexeme<'_>,
) -> Result<(), Stop<ConfigWhy>>
    ensures { Makes result node.new (with_path node.old (lexeme kind.entry) (lexeme path.entry)) }
{
    if kind.bytes == b"scratchdisk".as_slice() {
        let path = named0(alloc, path)?;
        return push(&mut node.scratch, path);
    }
    Ok(())
}

/// What follows the word `resource`.
#[tactic(auto, unfolding(crate::specs::Reading::resource_at, crate::specs::Reading::braces_at))]
fn resource(alloc: Global, cursor: &mut Cursor<'_>, node: &mut Node) -> Result<(), Stop<ConfigWhy>>
    ensures { Adds result node.new cursor.new (resource_at node.old cursor.old) }
{
    let kind = cursor.expect_sort(Sort::Word, ConfigWhy::Syntax)?;
    let path = cursor.expect_sort(Sort::Quoted, ConfigWhy::Syntax)?;
    add_path(alloc, node, kind, path)?;
    if cursor.accept(b"{") {
        unused_pools(cursor)?;
    }
    Ok(())
}

#[tactic(auto, unfolding(crate::specs::Reading::entry_at, crate::specs::Reading::fastname_at))]
fn entry(alloc: Global, cursor: &mut Cursor<'_>, node: &mut Node) -> Result<(), Stop<ConfigWhy>>
    ensures { Adds result node.new cursor.new (entry_at node.old cursor.old) }
{
    let word = cursor.token()?;
    if word.bytes == b"fastname".as_slice() {
        cursor.expect_sort(Sort::Quoted, ConfigWhy::Syntax)?;
        return Ok(());
    }
    if word.bytes == b"pools".as_slice() {
        return pools(alloc, cursor, node);
    }
    if word.bytes == b"resource".as_slice() {
        return resource(alloc, cursor, node);
    }
    Err(refuse(word, ConfigWhy::Syntax))
}

/// The entries of a node, up to its end.
pub fn entries(
    alloc: Global,
    cursor: &mut Cursor<'_>,
    node: &mut Node,
) -> Result<(), Stop<ConfigWhy>>
    ensures { Adds result node.new cursor.new (entries_at node.old cursor.old) }
{
    while !cursor.accept(b"}") {
        entry(alloc, cursor, node)?;
    }
    Ok(())
}
