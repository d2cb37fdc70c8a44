//! Reading a schema.

ghost use Rattle.std.specs.Prelude.{◌≡◌, [], true, IfOk, Ok};
ghost use Rattle.std.specs.List.{list_all};
ghost use Rattle.ds_lex.specs.Pieces.{begins_with, is_opt_byte, opens_word};
ghost use Rattle.ds_lex.specs.Lexemes.{lexemes};
ghost use Rattle.ds_lex.specs.Reading.{Gives, Moves, moved, moved_token};
ghost use Rattle.ds_schema.specs.SchemaReading.{Reads, answered, fault_behind, field_at, fields_at, has_field, is_field_name, name_at, schema_at, schema_of, semicolon_at, separator_at, whole_schema_at};

use crate::schema_text::fault::{SchemaFault, SchemaWhy};
use crate::schema_text::kinds::{parse_kind, refuse};
use crate::{Field, Schema};
use ds_lex::{Cursor, LexedText, Lexeme, Mode, Refusal, Sort, Stop, is_opt_byte, lex, opens_word};
use ds_value::{Items, Name, NoMemory};
use std::alloc::Global;

fn begins_as_word(bytes: &[u8]) -> bool
    ensures { result ≡ begins_with opens_word bytes.now }
{
    match bytes {
        [] => false,
        [byte, ..] => opens_word(*byte),
    }
}

fn are_name_bytes(bytes: &[u8]) -> bool
    ensures { result ≡ list_all is_opt_byte bytes.now }
{
    bytes.iter().all(|byte| is_opt_byte(*byte))
}

/// Whether a column may have this name: a letter or '_', then letters, digits and '_', at most 64 bytes.
pub fn is_field_name(bytes: &[u8]) -> bool
    ensures { result ≡ is_field_name bytes.now }
{
    bytes.len() <= 64 && begins_as_word(bytes) && are_name_bytes(bytes)
}

fn has_field(fields: &[Field], name: &[u8]) -> bool
    ensures { result ≡ has_field fields.now name.now }
{
    fields.iter().any(|field| field.name.as_slice() == name)
}

/// The name of a field, where no field has it yet.
#[tactic(auto, unfolding(crate::specs::SchemaReading::name_at))]
fn name<'a>(fields: &[Field], cursor: &mut Cursor<'a>) -> Result<Lexeme<'a>, Refusal<SchemaWhy>>
    ensures read { moved_token result cursor.new ≡ name_at fields.now cursor.old }
    ensures name { IfOk result (λ word. is_field_name word.bytes.now ≡ true) }
{
    let word = cursor.expect_sort(Sort::Word, SchemaWhy::Syntax)?;
    let free = is_field_name(word.bytes) && !has_field(fields, word.bytes);
    if !free {
        return Err(refuse(word, SchemaWhy::Name));
    }
    Ok(word)
}

fn owned_name(alloc: Global, bytes: &[u8]) -> Result<Name, Stop<SchemaWhy>>
    requires { is_field_name bytes.now ≡ true }
    ensures { Gives result (Ok bytes.now) }
{
    match Name::from_bytes(alloc, bytes) {
        Ok(Some(name)) => Ok(name),
        Ok(None) => unreachable!(),
        Err(NoMemory) => Err(Stop::Memory),
    }
}

#[tactic(auto, unfolding(crate::specs::SchemaReading::field_at))]
fn further_field(
    alloc: Global,
    fields: &[Field],
    cursor: &mut Cursor<'_>,
) -> Result<Field, Stop<SchemaWhy>>
    ensures { Moves result cursor.new (field_at fields.now cursor.old) }
{
    let word = name(fields, cursor)?;
    cursor.expect(b":", SchemaWhy::Syntax)?;
    let nullable = cursor.accept(b"nullable");
    let kind = parse_kind(cursor)?;
    let name = owned_name(alloc, word.bytes)?;
    Ok(Field {
        name,
        nullable,
        kind,
    })
}

#[tactic(auto, unfolding(crate::specs::SchemaReading::semicolon_at))]
fn semicolon(cursor: &mut Cursor<'_>) -> Result<bool, Refusal<SchemaWhy>>
    ensures { moved result cursor.new ≡ semicolon_at cursor.old }
{
    cursor.expect(b";", SchemaWhy::Syntax)?;
    Ok(!cursor.accept(b")"))
}

/// Behind a field: whether another follows, or the bracket is closed.
#[tactic(auto, unfolding(crate::specs::SchemaReading::separator_at))]
fn separator(cursor: &mut Cursor<'_>) -> Result<bool, Refusal<SchemaWhy>>
    ensures { moved result cursor.new ≡ separator_at cursor.old }
{
    if cursor.accept(b")") {
        return Ok(false);
    }
    semicolon(cursor)
}

fn fields(alloc: Global, cursor: &mut Cursor<'_>) -> Result<Items<Field>, Stop<SchemaWhy>>
    ensures { Moves result cursor.new (fields_at 256 [] cursor.old) }
{
    let mut fields = Vec::new(alloc);
    for _count in 0..256_usize {
        let field = further_field(alloc, fields.as_slice(), cursor)?;
        let more = separator(cursor)?;
        fields.push(field)?;
        if !more {
            return Ok(Items::from_vec(fields));
        }
    }
    let word = name(fields.as_slice(), cursor)?;
    Err(Stop::Refused(refuse(word, SchemaWhy::Count)))
}

/// A schema at the front of the tokens, whatever follows.
#[tactic(auto, unfolding(crate::specs::SchemaReading::schema_at))]
pub fn parse_schema(alloc: Global, cursor: &mut Cursor<'_>) -> Result<Schema, Stop<SchemaWhy>>
    ensures { Moves result cursor.new (schema_at cursor.old) }
{
    cursor.expect(b"record", SchemaWhy::Syntax)?;
    cursor.expect(b"(", SchemaWhy::Syntax)?;
    let fields = fields(alloc, cursor)?;
    Ok(Schema::from_vec(fields.into_vec()))
}

/// A field at the front of the tokens, whatever follows.
pub fn parse_field(alloc: Global, cursor: &mut Cursor<'_>) -> Result<Field, Stop<SchemaWhy>>
    ensures { Moves result cursor.new (field_at [] cursor.old) }
{
    further_field(alloc, &[], cursor)
}

#[tactic(auto, unfolding(crate::specs::SchemaReading::whole_schema_at))]
fn whole_schema(alloc: Global, tokens: &[Lexeme<'_>]) -> Result<Schema, Stop<SchemaWhy>>
    ensures { Gives result (whole_schema_at (lexemes tokens.now)) }
{
    let mut cursor = Cursor::new(tokens);
    let schema = parse_schema(alloc, &mut cursor)?;
    cursor.finish(SchemaWhy::Syntax)?;
    Ok(schema)
}

fn fault_behind(len: usize, bad: Option<usize>) -> SchemaFault
    ensures { result ≡ fault_behind len bad }
{
    match bad {
        Some(at) => SchemaFault::BadSchema {
            at,
            why: SchemaWhy::Token,
        },
        None => SchemaFault::BadSchema {
            at: len,
            why: SchemaWhy::Syntax,
        },
    }
}

/// The schema that a text spells, or the first fault of the text.
pub fn read_schema(alloc: Global, text: &[u8]) -> Result<Schema, SchemaFault>
    ensures { Reads result (schema_of text.now) }
{
    let Ok(LexedText { lexemes, bad }) = lex(alloc, Mode::Inner, text) else {
        return Err(SchemaFault::Memory);
    };
    match whole_schema(alloc, lexemes.as_slice()) {
        Ok(schema) => match bad {
            None => Ok(schema),
            Some(_) => Err(fault_behind(text.len(), bad)),
        },
        Err(Stop::Refused(Refusal::At { at, why })) => Err(SchemaFault::BadSchema { at, why }),
        Err(Stop::Refused(Refusal::AtEnd)) => Err(fault_behind(text.len(), bad)),
        Err(Stop::Memory) => Err(SchemaFault::Memory),
    }
}
