//! Names, and what a token stands for as a value.

ghost use Rattle.std.specs.Prelude.{◌≡◌, ◌∷◌, ◌++◌, [], Some, None, IfOk, OnOk, IfErr, if◌then◌else◌};
ghost use Rattle.ds_lex.specs.Lexemes.{lexeme};
ghost use Rattle.ds_lex.specs.Reading.{Gives};
ghost use Rattle.ds_lex.specs.declared.refusal.Stop.TheVariants as stop;
ghost use Rattle.ds_schema.specs.ColumnReading.{held, is_name};
ghost use Rattle.osh_value.specs.Values.{content_of};

use ds_lex::{Lexeme, Refusal, Sort, Stop};
use ds_value::{Items, Name, NoMemory};
use std::alloc::Global;

/// The bytes that a token stands for as a value.
pub fn content<'a>(token: Lexeme<'a>) -> &'a [u8]
    ensures { result.now ≡ content_of (lexeme token.entry) }
{
    match token.sort {
        Sort::Quoted => inside(token.bytes),
        _ => token.bytes,
    }
}

fn inside(bytes: &[u8]) -> &[u8]
    ensures { result.now ≡ content_of (record { at = 0; sort = Sort.Quoted; bytes = bytes.now }) }
{
    match bytes {
        [] => bytes,
        [_] => &[],
        [_, inside @ .., _] => inside,
    }
}

/// The bytes as a name, where they are one.
pub fn name_of(alloc: Global, bytes: &[u8]) -> Result<Option<Name>, NoMemory>
    ensures { IfOk result (λ name. name ≡ (if is_name bytes.now then Some bytes.now else None)) }
{
    Name::from_bytes(alloc, bytes)
}

/// The token's bytes as a name; others are refused for this cause.
pub fn owned_name<W: Copy>(alloc: Global, token: Lexeme<'_>, why: W) -> Result<Name, Stop<W>>
    ensures { Gives result (held why (lexeme token.entry)) }
{
    match name_of(alloc, token.bytes) {
        Ok(Some(name)) => Ok(name),
        Ok(None) => Err(Stop::Refused(Refusal::At { at: token.at, why })),
        Err(_) => Err(Stop::Memory),
    }
}

pub fn push<T: Drop, W>(items: &mut Items<T>, item: T) -> Result<(), Stop<W>>
    ensures ok { OnOk result (items.new ≡ items.old ++ item ∷ []) }
    ensures err { IfErr result (λ e. e ≡ stop.Memory) }
{
    match items.push(item) {
        Ok(()) => Ok(()),
        Err(_) => Err(Stop::Memory),
    }
}
