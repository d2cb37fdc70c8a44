//! Lists that are all of some bytes, as the value of an option is one.

ghost use Rattle.std.specs.Prelude.{◌≡◌, IfOk};
ghost use Rattle.ds_lex.specs.Lexemes.{lexemes};
ghost use Rattle.ds_schema.specs.ColumnGrammar.{Found, SpellsKeys, SpellsNames};
ghost use Rattle.ds_schema.specs.ColumnReading.{all_keys, all_names};

use crate::column_lists::reading::{parse_keys, parse_names};
use ds_lex::{Cursor, LexedText, Lexeme, Mode, Stop, lex};
use ds_value::{Items, Name, NoMemory};
use std::alloc::Global;

fn all_names(alloc: Global, tokens: &[Lexeme<'_>]) -> Result<Option<Items<Name>>, NoMemory>
    ensures { IfOk result (λ names. names ≡ all_names (lexemes tokens.now)) }
{
    let mut cursor = Cursor::new(tokens);
    match parse_names(alloc, &mut cursor, ()) {
        Ok(names) => if cursor.is_empty() {
            Ok(Some(names))
        } else {
            Ok(None)
        },
        Err(Stop::Refused(_)) => Ok(None),
        Err(Stop::Memory) => Err(NoMemory),
    }
}

/// The names of the column list that the bytes are, where they are one.
pub fn read_names(alloc: Global, bytes: &[u8]) -> Result<Option<Items<Name>>, NoMemory>
    ensures { IfOk result (λ names. Found (SpellsNames bytes.now) names) }
{
    let LexedText { lexemes, bad } = lex(alloc, Mode::Inner, bytes)?;
    match bad {
        None => {
            let names = all_names(alloc, lexemes.as_slice())?;
            Ok(names)
        }
        Some(_) => Ok(None),
    }
}

fn all_keys(alloc: Global, tokens: &[Lexeme<'_>]) -> Result<Option<Items<(Name, bool)>>, NoMemory>
    ensures { IfOk result (λ keys. keys ≡ all_keys (lexemes tokens.now)) }
{
    let mut cursor = Cursor::new(tokens);
    match parse_keys(alloc, &mut cursor, ()) {
        Ok(keys) => if cursor.is_empty() {
            Ok(Some(keys))
        } else {
            Ok(None)
        },
        Err(Stop::Refused(_)) => Ok(None),
        Err(Stop::Memory) => Err(NoMemory),
    }
}

/// The keys of the key list that the bytes are, where they are one: each name with whether its
/// order is descending.
pub fn read_keys(alloc: Global, bytes: &[u8]) -> Result<Option<Items<(Name, bool)>>, NoMemory>
    ensures { IfOk result (λ keys. Found (SpellsKeys bytes.now) keys) }
{
    let LexedText { lexemes, bad } = lex(alloc, Mode::Inner, bytes)?;
    match bad {
        None => {
            let keys = all_keys(alloc, lexemes.as_slice())?;
            Ok(keys)
        }
        Some(_) => Ok(None),
    }
}
