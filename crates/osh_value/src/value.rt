//! What an option says.

ghost use Rattle.std.specs.Prelude.{◌≡◌, ◌&&◌, ◌||◌, ◌==◌, nat_le, length, IfOk, Some, None, if◌then◌else◌};
ghost use Rattle.std.specs.Option.{option_map};
ghost use Rattle.ds_lex.specs.Lexemes.{lexemes};
ghost use Rattle.ds_lex.specs.Reading.{Moves, Gives};
ghost use Rattle.ds_schema.specs.ColumnGrammar.{Found};
ghost use Rattle.ds_schema.specs.SchemaReading.{schema_of};
ghost use Rattle.osh_value.specs.ValueGrammar.{SpellsValue};
ghost use Rattle.osh_value.specs.Values.{data_set_value, delim_value, file_value, inside, kept_expression, missing_named, result_of, said_at, schema_value, set_value, value_of, whole_at};
ghost use Rattle.osh_value.specs.declared.value.OptValue.TheVariants as value;

use crate::cases::cases;
use crate::expression::{kept_expression, set_value};
use crate::lists::{new_name, pair, renames, widths};
use crate::name::name_of;
use ds_lex::{Cursor, LexedText, Lexeme, Mode, Refusal, Stop, lex};
use ds_schema::{Schema, SchemaFault, parse_keys, parse_names, read_schema};
use ds_value::{Bytes, Items, Name, NoMemory};
use flow_graph::{AggSpec, SetSpec};
use op_base::Missing;
use osh_table::Form;
use std::alloc::Global;

#[derive(Debug, Drop)]
pub enum OptValue {
    Flag,
    Name(Name),
    Schema(Schema),
    Delim(u8),
    Widths(Items<u32>),
    Columns(Items<Name>),
    Renames(Items<(Name, Name)>),
    Keys(Items<(Name, bool)>),
    Result(AggSpec),
    Missing(Missing),
    Expression(Bytes),
    Set(SetSpec),
    Cases(Items<i64>),
}

fn file_value(alloc: Global, bytes: &[u8]) -> Result<Option<OptValue>, NoMemory>
    ensures { IfOk result (λ v. v ≡ file_value bytes.now) }
{
    match name_of(alloc, bytes)? {
        Some(name) => Ok(Some(OptValue::Name(name))),
        None => Ok(None),
    }
}

fn data_set_value(alloc: Global, bytes: &[u8]) -> Result<Option<OptValue>, NoMemory>
    ensures { IfOk result (λ v. v ≡ data_set_value bytes.now) }
{
    if bytes.len() > 252 {
        return Ok(None);
    }
    file_value(alloc, bytes)
}

fn schema_value(alloc: Global, bytes: &[u8]) -> Result<Option<OptValue>, NoMemory>
    ensures { IfOk result (λ v. v ≡ schema_value (schema_of bytes.now)) }
{
    match read_schema(alloc, bytes) {
        Ok(schema) => Ok(Some(OptValue::Schema(schema))),
        Err(SchemaFault::BadSchema { at: _, why: _ }) => Ok(None),
        Err(SchemaFault::Memory) => Err(NoMemory),
    }
}

fn delim_value(bytes: &[u8]) -> Option<OptValue>
    ensures { result ≡ delim_value bytes.now }
{
    match bytes {
        [byte] => {
            if *byte == 10 || *byte == 13 || *byte == 34 {
                None
            } else {
                Some(OptValue::Delim(*byte))
            }
        }
        _ => None,
    }
}

fn missing_named(word: &[u8]) -> Option<Missing>
    ensures { result ≡ missing_named word.now }
{
    if word == b"continue".as_slice() {
        Some(Missing::Continue)
    } else if word == b"drop".as_slice() {
        Some(Missing::Drop)
    } else if word == b"fail".as_slice() {
        Some(Missing::Fail)
    } else if word == b"reject".as_slice() {
        Some(Missing::Reject)
    } else {
        None
    }
}

fn missing_value(word: &[u8]) -> Option<OptValue>
    ensures { result ≡ option_map value.Missing (missing_named word.now) }
{
    match missing_named(word) {
        Some(missing) => Some(OptValue::Missing(missing)),
        None => None,
    }
}

fn expression_value(alloc: Global, bytes: &[u8]) -> Result<Option<OptValue>, NoMemory>
    ensures { IfOk result (λ v. v ≡ option_map value.Expression (kept_expression bytes.now)) }
{
    match kept_expression(alloc, bytes)? {
        Some(expr) => Ok(Some(OptValue::Expression(expr))),
        None => Ok(None),
    }
}

fn setting_value(alloc: Global, bytes: &[u8]) -> Result<Option<OptValue>, NoMemory>
    ensures { IfOk result (λ v. v ≡ option_map value.Set (set_value bytes.now)) }
{
    match set_value(alloc, bytes)? {
        Some(set) => Ok(Some(OptValue::Set(set))),
        None => Ok(None),
    }
}

/// A new column of a group, made of an old one.
fn result_of(form: Form, new: Name, old: Name) -> AggSpec
    ensures { result ≡ result_of form new old }
{
    match form {
        Form::Min => AggSpec::Min(new, old),
        Form::Max => AggSpec::Max(new, old),
        Form::First => AggSpec::First(new, old),
        Form::Last => AggSpec::Last(new, old),
        _ => AggSpec::Sum(new, old),
    }
}

/// What the tokens at the front say, by the form.
fn said(alloc: Global, form: Form, cursor: &mut Cursor<'_>) -> Result<OptValue, Stop<()>>
    ensures { Moves result cursor.new (said_at form cursor.old) }
{
    match form {
        Form::Widths => Ok(OptValue::Widths(widths(alloc, cursor)?)),
        Form::Columns => Ok(OptValue::Columns(parse_names(alloc, cursor, ())?)),
        Form::Keys => Ok(OptValue::Keys(parse_keys(alloc, cursor, ())?)),
        Form::Renames => Ok(OptValue::Renames(renames(alloc, cursor)?)),
        Form::Cases => Ok(OptValue::Cases(cases(alloc, cursor)?)),
        Form::Count => Ok(OptValue::Result(AggSpec::Count(new_name(alloc, cursor)?))),
        Form::Sum | Form::Min | Form::Max | Form::First | Form::Last => {
            let (new, old) = pair(alloc, cursor)?;
            Ok(OptValue::Result(result_of(form, new, old)))
        }
        _ => Err(Stop::Refused(Refusal::AtEnd)),
    }
}

#[tactic(auto, unfolding(crate::specs::Values::whole_at))]
fn whole(alloc: Global, form: Form, tokens: &[Lexeme<'_>]) -> Result<OptValue, Stop<()>>
    ensures { Gives result (whole_at form (lexemes tokens.now)) }
{
    let mut cursor = Cursor::new(tokens);
    let value = said(alloc, form, &mut cursor)?;
    cursor.finish(())?;
    Ok(value)
}

/// What the tokens of some bytes say, by the form.
fn inside(alloc: Global, form: Form, bytes: &[u8]) -> Result<Option<OptValue>, NoMemory>
    ensures { IfOk result (λ v. v ≡ inside form bytes.now) }
{
    let LexedText { lexemes, bad } = lex(alloc, Mode::Inner, bytes)?;
    if bad.is_some() {
        return Ok(None);
    }
    match whole(alloc, form, lexemes.as_slice()) {
        Ok(value) => Ok(Some(value)),
        Err(Stop::Refused(_)) => Ok(None),
        Err(Stop::Memory) => Err(NoMemory),
    }
}

/// The value that bytes of this form spell; none where they spell none.
pub fn value_of(alloc: Global, form: Form, bytes: &[u8]) -> Result<Option<OptValue>, NoMemory>
    ensures spelled { IfOk result (λ v. Found (SpellsValue form bytes.now) v) }
    ensures read { IfOk result (λ v. v ≡ value_of form bytes.now) }
{
    read(alloc, form, bytes)
}

#[tactic(auto, unfolding(crate::specs::Values::value_of))]
fn read(alloc: Global, form: Form, bytes: &[u8]) -> Result<Option<OptValue>, NoMemory>
    ensures { IfOk result (λ v. v ≡ value_of form bytes.now) }
{
    match form {
        Form::File => file_value(alloc, bytes),
        Form::DataSet => data_set_value(alloc, bytes),
        Form::Schema => schema_value(alloc, bytes),
        Form::Delim => Ok(delim_value(bytes)),
        Form::Missing => Ok(missing_value(bytes)),
        Form::Expression => expression_value(alloc, bytes),
        Form::Setting => setting_value(alloc, bytes),
        Form::Flag => Ok(None),
        _ => inside(alloc, form, bytes),
    }
}
