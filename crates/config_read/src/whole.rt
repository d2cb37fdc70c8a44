//! A whole text.

ghost use Rattle.std.specs.Prelude.{◌≡◌, IfOk, IfErr};
ghost use Rattle.std.specs.List.{list_any};
ghost use Rattle.config_read.specs.First.{IsSpelled, Refuses};
ghost use Rattle.config_read.specs.Pools.{is_default};
ghost use Rattle.config_read.specs.Reading.{Answers, config_of, end_why, ended, fault_of};

use crate::config::{Config, Node, is_default};
use crate::fault::{ConfigFault, ConfigWhy};
use crate::node::nodes;
use ds_lex::{Cursor, End, LimitedText, Mode, Refusal, Stop, lex_limited};
use ds_value::Items;
use std::alloc::Global;

/// The cause behind the last token.
fn end_why(end: End) -> ConfigWhy
    ensures { result ≡ end_why end }
{
    match end {
        End::Text(_) => ConfigWhy::Syntax,
        End::NoToken(_) => ConfigWhy::Token,
        End::Limit(_) => ConfigWhy::TooLong,
    }
}

fn has_default(nodes: &Items<Node>) -> bool
    ensures { result ≡ list_any is_default nodes.now }
{
    nodes.as_slice().iter().any(|node| is_default(node))
}

/// A configuration of nodes behind which the text ends so.
fn ended(nodes: Items<Node>, end: End) -> Result<Config, ConfigFault>
    ensures { Answers result (ended nodes end) }
{
    match end {
        End::Text(at) => {
            if has_default(&nodes) {
                Ok(Config { nodes })
            } else {
                Err(ConfigFault::Bad {
                    at,
                    why: ConfigWhy::NoDefault,
                })
            }
        }
        End::NoToken(at) => Err(ConfigFault::Bad {
            at,
            why: ConfigWhy::Token,
        }),
        End::Limit(at) => Err(ConfigFault::Bad {
            at,
            why: ConfigWhy::TooLong,
        }),
    }
}

#[tactic(auto, unfolding(crate::specs::Reading::config_of))]
fn read(alloc: Global, bytes: &[u8]) -> Result<Config, ConfigFault>
    ensures { Answers result (config_of bytes.now) }
{
    let LimitedText { lexemes, end } = lex_limited(alloc, Mode::Inner, bytes)?;
    let mut cursor = Cursor::new(&lexemes);
    match nodes(alloc, &mut cursor) {
        Ok(nodes) => ended(nodes, end),
        Err(Stop::Refused(Refusal::At { at, why })) => Err(ConfigFault::Bad { at, why }),
        Err(Stop::Refused(Refusal::AtEnd)) => Err(ConfigFault::Bad {
            at: end.place(),
            why: end_why(end),
        }),
        Err(Stop::Memory) => Err(ConfigFault::Memory),
    }
}

/// The configuration that the bytes spell, or their first fault.
pub fn read_config(alloc: Global, bytes: &[u8]) -> Result<Config, ConfigFault>
    ensures spelled { IfOk result (λ config. IsSpelled bytes.now config) }
    ensures first_fault { IfErr result (λ fault. Refuses fault bytes.now) }
{
    read(alloc, bytes)
}
