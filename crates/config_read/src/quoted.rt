//! Names between quotes.

ghost use Rattle.std.specs.Prelude.{◌≡◌, ◌∷◌, ◌++◌, [], OnOk, IfErr};
ghost use Rattle.std.specs.Option.{option_map};
ghost use Rattle.ds_lex.specs.Lexemes.{lexeme};
ghost use Rattle.ds_lex.specs.Reading.{Gives};
ghost use Rattle.ds_lex.specs.declared.refusal.Stop.TheVariants as stop;
ghost use Rattle.config_read.specs.Spelled.{content, has_node};
ghost use Rattle.config_read.specs.Reading.{maybe_quoted, named, named0};

use crate::config::Node;
use crate::fault::ConfigWhy;
use ds_lex::{Cursor, Lexeme, Refusal, Sort, Stop};
use ds_value::{Items, Name, Name0};
use std::alloc::Global;

pub fn refuse(token: Lexeme<'_>, why: ConfigWhy) -> Stop<ConfigWhy>
    ensures { result ≡ stop.Refused (Refusal.At token.entry.at why) }
{
    Stop::Refused(Refusal::At { at: token.at, why })
}

/// The bytes between the quotes.
fn content<'a>(token: Lexeme<'a>) -> &'a [u8]
    ensures { result.now ≡ content (lexeme token.entry) }
{
    match token.bytes {
        [_, inside @ .., _] => inside,
        _ => &[],
    }
}

/// A token between quotes, where one comes.
#[tactic(auto, unfolding(ds_lex::specs::Reading::sort_at))]
pub fn next_quoted<'a>(cursor: &mut Cursor<'a>) -> Option<Lexeme<'a>>
    ensures { (option_map lexeme result, cursor.new) ≡ maybe_quoted cursor.old }
{
    cursor.expect_sort(Sort::Quoted, ConfigWhy::Syntax).ok()
}

/// A name that may be empty.
pub fn named0(alloc: Global, token: Lexeme<'_>) -> Result<Name0, Stop<ConfigWhy>>
    ensures { Gives result (named0 (lexeme token.entry)) }
{
    match Name0::from_bytes(alloc, content(token)) {
        Ok(Some(name)) => Ok(name),
        Ok(None) => Err(refuse(token, ConfigWhy::Name)),
        Err(_) => Err(Stop::Memory),
    }
}

fn has_node(nodes: &Items<Node>, name: &[u8]) -> bool
    ensures { result ≡ has_node nodes.now name.now }
{
    nodes
        .as_slice()
        .iter()
        .any(|node| node.name.as_slice() == name)
}

/// The name of a further node.
#[tactic(auto, unfolding(crate::specs::Reading::named))]
pub fn named(alloc: Global, nodes: &Items<Node>, token: Lexeme<'_>) -> Result<Name, Stop<ConfigWhy>>
    ensures { Gives result (named nodes.now (lexeme token.entry)) }
{
    match Name::from_bytes(alloc, content(token)) {
        Ok(Some(name)) => {
            if has_node(nodes, content(token)) {
                return Err(refuse(token, ConfigWhy::DoubleNode));
            }
            Ok(name)
        }
        Ok(None) => Err(refuse(token, ConfigWhy::Name)),
        Err(_) => Err(Stop::Memory),
    }
}

pub fn push<T: Drop>(items: &mut Items<T>, item: T) -> Result<(), Stop<ConfigWhy>>
    ensures ok { OnOk result (items.new ≡ items.old ++ item ∷ []) }
    ensures err { IfErr result (λ e. e ≡ stop.Memory) }
{
    match items.push(item) {
        Ok(()) => Ok(()),
        Err(_) => Err(Stop::Memory),
    }
}
