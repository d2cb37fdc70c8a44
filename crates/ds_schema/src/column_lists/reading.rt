//! Reading lists at the front of some tokens. What stops a reader is a cause that its caller
//! gives, at the first token with which the list doesn't go on.

ghost use Rattle.std.specs.Prelude.{◌≡◌};
ghost use Rattle.ds_lex.specs.Lexemes.{lexeme};
ghost use Rattle.ds_lex.specs.Reading.{Gives, Moves};
ghost use Rattle.ds_schema.specs.ColumnReading.{has_key, has_name, held, key_at, keys_at, name_at, names_at, new_name_at};

use crate::schema_text::refuse;
use ds_lex::{Cursor, Lexeme, Sort, Stop};
use ds_value::{Items, Name, NoMemory};
use std::alloc::Global;

fn held<W: Copy>(alloc: Global, word: Lexeme<'_>, why: W) -> Result<Name, Stop<W>>
    ensures { Gives result (held why (lexeme word.entry)) }
{
    match Name::from_bytes(alloc, word.bytes) {
        Ok(Some(name)) => Ok(name),
        Ok(None) => Err(Stop::Refused(refuse(word, why))),
        Err(NoMemory) => Err(Stop::Memory),
    }
}

/// A word of at most 255 bytes.
#[tactic(auto, unfolding(crate::specs::ColumnReading::name_at))]
pub fn parse_name<W: Copy>(alloc: Global, cursor: &mut Cursor<'_>, why: W) -> Result<Name, Stop<W>>
    ensures { Moves result cursor.new (name_at why cursor.old) }
{
    let word = cursor.expect_sort(Sort::Word, why)?;
    let name = held(alloc, word, why)?;
    Ok(name)
}

fn has_name(names: &[Name], bytes: &[u8]) -> bool
    ensures { result ≡ has_name names.now bytes.now }
{
    names.iter().any(|name| name.as_slice() == bytes)
}

fn has_key(keys: &[(Name, bool)], bytes: &[u8]) -> bool
    ensures { result ≡ has_key keys.now bytes.now }
{
    keys.iter().any(|(name, _)| name.as_slice() == bytes)
}

#[tactic(auto, unfolding(crate::specs::ColumnReading::new_name_at))]
fn new_name<W: Copy>(
    alloc: Global,
    names: &[Name],
    cursor: &mut Cursor<'_>,
    why: W,
) -> Result<Name, Stop<W>>
    ensures { Moves result cursor.new (new_name_at why names.now cursor.old) }
{
    let word = cursor.expect_sort(Sort::Word, why)?;
    if has_name(names, word.bytes) {
        return Err(Stop::Refused(refuse(word, why)));
    }
    let name = held(alloc, word, why)?;
    Ok(name)
}

/// A name that no key has yet, and whether its order is descending.
#[tactic(auto, unfolding(crate::specs::ColumnReading::key_at))]
fn key<W: Copy>(
    alloc: Global,
    keys: &[(Name, bool)],
    cursor: &mut Cursor<'_>,
    why: W,
) -> Result<(Name, bool), Stop<W>>
    ensures { Moves result cursor.new (key_at why keys.now cursor.old) }
{
    let word = cursor.expect_sort(Sort::Word, why)?;
    if has_key(keys, word.bytes) {
        return Err(Stop::Refused(refuse(word, why)));
    }
    let name = held(alloc, word, why)?;
    let desc = cursor.accept(b"desc");
    Ok((name, desc))
}

/// A column list at the front of the tokens, whatever follows.
#[tactic(auto, unfolding(crate::specs::ColumnReading::names_at))]
pub fn parse_names<W: Copy>(
    alloc: Global,
    cursor: &mut Cursor<'_>,
    why: W,
) -> Result<Items<Name>, Stop<W>>
    ensures { Moves result cursor.new (names_at why cursor.old) }
{
    let mut names = Vec::new(alloc);
    let first = new_name(alloc, &[], cursor, why)?;
    names.push(first)?;
    while cursor.accept(b",") {
        let name = new_name(alloc, names.as_slice(), cursor, why)?;
        names.push(name)?;
    }
    Ok(Items::from_vec(names))
}

/// A key list at the front of the tokens, whatever follows: each name with whether its order
/// is descending.
#[tactic(auto, unfolding(crate::specs::ColumnReading::keys_at))]
pub fn parse_keys<W: Copy>(
    alloc: Global,
    cursor: &mut Cursor<'_>,
    why: W,
) -> Result<Items<(Name, bool)>, Stop<W>>
    ensures { Moves result cursor.new (keys_at why cursor.old) }
{
    let mut keys = Vec::new(alloc);
    let first = key(alloc, &[], cursor, why)?;
    keys.push(first)?;
    while cursor.accept(b",") {
        let key = key(alloc, keys.as_slice(), cursor, why)?;
        keys.push(key)?;
    }
    Ok(Items::from_vec(keys))
}
