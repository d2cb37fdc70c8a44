//! Values that are read as tokens.

ghost use Rattle.std.specs.Prelude.{◌≡◌, length, []};
ghost use Rattle.std.specs.List.{list_any};
ghost use Rattle.std.specs.Str.{bytes_eq};
ghost use Rattle.ds_lex.specs.Lexemes.{lexeme};
ghost use Rattle.ds_lex.specs.Reading.{Moves, Gives};
ghost use Rattle.ds_lex.specs.declared.refusal.Stop.TheVariants as stop;
ghost use Rattle.osh_value.specs.Values.{new_name_at, has_old, rename_at, renames_at, width_at, widths_at};

use crate::name::{owned_name, push};
use ds_lex::{Cursor, Lexeme, Refusal, Sort, Stop};
use ds_schema::{is_field_name, size_of};
use ds_value::{Items, Name};
use std::alloc::Global;

/// Inside a value no cause is told.
pub fn refuse(token: Lexeme<'_>) -> Stop<()>
    ensures { result ≡ stop.Refused (Refusal.At token.entry.at tt) }
{
    Stop::Refused(Refusal::At {
        at: token.at,
        why: (),
    })
}

/// A name that a new column may have.
#[tactic(auto, unfolding(crate::specs::Values::new_name_at))]
pub fn new_name(alloc: Global, cursor: &mut Cursor<'_>) -> Result<Name, Stop<()>>
    ensures { Moves result cursor.new (new_name_at cursor.old) }
{
    let word = cursor.expect_sort(Sort::Word, ())?;
    if !is_field_name(word.bytes) {
        return Err(refuse(word));
    }
    owned_name(alloc, word, ())
}

fn has_old(found: &[(Name, Name)], name: &[u8]) -> bool
    ensures { result ≡ has_old found.now name.now }
{
    found.iter().any(|pair| pair.1.as_slice() == name)
}

/// `new=old`, where no pair before has the old name.
#[tactic(auto, unfolding(crate::specs::Values::rename_at))]
fn rename(
    alloc: Global,
    found: &[(Name, Name)],
    cursor: &mut Cursor<'_>,
) -> Result<(Name, Name), Stop<()>>
    ensures { Moves result cursor.new (rename_at found.now cursor.old) }
{
    let new = new_name(alloc, cursor)?;
    cursor.expect(b"=", ())?;
    let word = cursor.expect_sort(Sort::Word, ())?;
    if has_old(found, word.bytes) {
        return Err(refuse(word));
    }
    let old = owned_name(alloc, word, ())?;
    Ok((new, old))
}

/// `new=old`
pub fn pair(alloc: Global, cursor: &mut Cursor<'_>) -> Result<(Name, Name), Stop<()>>
    ensures { Moves result cursor.new (rename_at [] cursor.old) }
{
    rename(alloc, &[], cursor)
}

pub fn renames(alloc: Global, cursor: &mut Cursor<'_>) -> Result<Items<(Name, Name)>, Stop<()>>
    ensures { Moves result cursor.new (renames_at cursor.old) }
{
    let count = cursor.len();
    let mut found = Items::new(alloc);
    for _count in 0..count {
        let pair = rename(alloc, found.as_slice(), cursor)?;
        push(&mut found, pair)?;
        if !cursor.accept(b",") {
            return Ok(found);
        }
    }
    Err(Stop::Refused(Refusal::AtEnd))
}

/// The width of a column.
#[tactic(auto, unfolding(crate::specs::Values::width_at))]
fn width(cursor: &mut Cursor<'_>) -> Result<u32, Stop<()>>
    ensures { Moves result cursor.new (width_at cursor.old) }
{
    let number = cursor.expect_sort(Sort::Number, ())?;
    match size_of(1, 65536, number.bytes) {
        Some(width) => Ok(width),
        None => Err(refuse(number)),
    }
}

pub fn widths(alloc: Global, cursor: &mut Cursor<'_>) -> Result<Items<u32>, Stop<()>>
    ensures { Moves result cursor.new (widths_at cursor.old) }
{
    let count = cursor.len();
    let mut found = Items::new(alloc);
    for _count in 0..count {
        let width = width(cursor)?;
        push(&mut found, width)?;
        if !cursor.accept(b",") {
            return Ok(found);
        }
    }
    Err(Stop::Refused(Refusal::AtEnd))
}
