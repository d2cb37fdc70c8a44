ghost use Rattle.std.specs.Prelude.{◌≡◌, ◌≤◌, ◌++◌, ◌∷◌, ◌||◌, ◌+◌, [], true, false, length, IfOk, OnOk, OnErr, Err};
ghost use Rattle.std.specs.List.{AllByRecursion};
ghost use Rattle.ds_value.specs.Values.{letters};
ghost use Rattle.ds_schema.specs.Schemas.{IsSchema, IsField, row_fits};
ghost use Rattle.ds_text.specs.Forms.{FormFits};
ghost use Rattle.ds_text.specs.Records.{SpellsIn, SpellsRow, SpellsNone, SpellsNoRow, has_byte, holds_end, is_too_wide, is_refused, written_row};
ghost use Rattle.ds_text.specs.RecordLaws.{OneRow, SpelledFits, ReadsBack, FileReadsBack};

use crate::columns::read_columns;
use crate::fault::RecordFault;
use crate::fields::read_fields;
use crate::form::Form;
use crate::write_columns::write_columns;
use crate::write_fields::{has_byte, write_fields};
use ds_schema::{Field, Row, Schema};
use ds_value::{Bytes, Value};
use std::alloc::Global;

/// The most bytes that a record may have.
const LONGEST: usize = 2_097_152;

/// The room that is made for a record at first.
const ROOM: usize = 128;

fn read_values(
    alloc: Global,
    fields: &[Field],
    form: &Form,
    line: &[u8],
) -> Result<Vec<Value>, RecordFault>
    requires form { FormFits fields.now form.now }
    requires fields { AllByRecursion IsField fields.now }
    ensures found { IfOk result (λ row. SpellsIn form.now fields.now line.now row.items) }
    ensures bad { result ≡ Err RecordFault.Bad → SpellsNone form.now fields.now line.now }
{
    match form {
        Form::Delimited(delimiter) => read_fields(alloc, fields, *delimiter, line),
        Form::Fixed(widths) => read_columns(alloc, fields, widths.as_slice(), line),
    }
}

/// The row that a line spells.
pub fn read_record(
    alloc: Global,
    schema: &Schema,
    form: &Form,
    line: &[u8],
) -> Result<Row, RecordFault>
    requires { FormFits schema.now form.now }
    ensures found { IfOk result (λ row. SpellsRow form.now schema.now line.now row) }
    ensures fits { IfOk result (λ row. row_fits schema.now row ≡ true) }
    ensures bad { result ≡ Err RecordFault.Bad → SpellsNoRow form.now schema.now line.now }
{
    if line.len() > LONGEST {
        return Err(RecordFault::Bad);
    }
    match read_values(alloc, schema.as_slice(), form, line) {
        Ok(values) => Ok(Row::from_vec(values)),
        Err(fault) => Err(fault),
    }
}

fn holds_end(row: &[Value]) -> bool
    ensures { result ≡ holds_end row.now }
{
    row.iter().any(|value| ends_line(value))
}

/// Whether a text holds the end of a line.
fn ends_line(value: &Value) -> bool
    ensures { result ≡ has_byte 10 (letters value.now) }
{
    match value {
        Value::Text(text) => has_byte(b'\n', text.as_slice()),
        _ => false,
    }
}

fn write_values(
    alloc: Global,
    fields: &[Field],
    form: &Form,
    row: &[Value],
    into: &mut Bytes,
) -> Result<(), RecordFault>
    requires form { FormFits fields.now form.now }
    requires fields { AllByRecursion IsField fields.now }
    requires fits { row_fits fields.now row.now ≡ true }
    ensures ok { OnOk result (into.new ≡ into.old ++ written_row form.now fields.now row.now) }
    ensures narrow { OnOk result (is_too_wide form.now fields.now row.now ≡ false) }
    ensures bad { result ≡ Err RecordFault.Bad → is_too_wide form.now fields.now row.now ≡ true }
{
    match form {
        Form::Delimited(delimiter) => match write_fields(alloc, *delimiter, fields, row, into) {
            Ok(()) => Ok(()),
            Err(_) => Err(RecordFault::Memory),
        },
        Form::Fixed(widths) => write_columns(alloc, fields, widths.as_slice(), row, into),
    }
}

/// The text of a record.
fn record_text(alloc: Global, schema: &Schema, form: &Form, row: &Row) -> Result<Bytes, RecordFault>
    requires form { FormFits schema.now form.now }
    requires fits { row_fits schema.now row.now ≡ true }
    ensures ok { IfOk result (λ text. text ≡ written_row form.now schema.now row.now) }
    ensures writable { OnOk result (is_refused form.now schema.now row.now ≡ false) }
    ensures bad { result ≡ Err RecordFault.Bad → is_refused form.now schema.now row.now ≡ true }
{
    if holds_end(row.as_slice()) {
        return Err(RecordFault::Bad);
    }
    let mut text = match Vec::with_capacity(alloc, ROOM) {
        Ok(bytes) => Bytes::from_vec(bytes),
        Err(_) => return Err(RecordFault::Memory),
    };
    match write_values(alloc, schema.as_slice(), form, row.as_slice(), &mut text) {
        Ok(()) => Ok(text),
        Err(fault) => Err(fault),
    }
}

/// Appends the one text of a record, without the end of a line, or changes nothing.
pub fn write_record(
    alloc: Global,
    schema: &Schema,
    form: &Form,
    row: &Row,
    into: &mut Bytes,
) -> Result<(), RecordFault>
    requires form { FormFits schema.now form.now }
    requires fits { row_fits schema.now row.now ≡ true }
    ensures ok { OnOk result (into.new ≡ into.old ++ written_row form.now schema.now row.now) }
    ensures writable { OnOk result (is_refused form.now schema.now row.now ≡ false) }
    ensures bad { result ≡ Err RecordFault.Bad → is_refused form.now schema.now row.now ≡ true }
    ensures err { OnErr result (into.new ≡ into.old) }
{
    let text = match record_text(alloc, schema, form, row) {
        Ok(text) => text,
        Err(fault) => return Err(fault),
    };
    match into.append(text.as_slice()) {
        Ok(()) => Ok(()),
        Err(_) => Err(RecordFault::Memory),
    }
}

/// Appends a record and the end of its line, or changes nothing.
pub fn write_line(
    alloc: Global,
    schema: &Schema,
    form: &Form,
    row: &Row,
    into: &mut Bytes,
) -> Result<(), RecordFault>
    requires form { FormFits schema.now form.now }
    requires fits { row_fits schema.now row.now ≡ true }
    ensures ok { OnOk result (into.new ≡ into.old ++ (written_row form.now schema.now row.now ++ 10 ∷ [])) }
    ensures writable { OnOk result (is_refused form.now schema.now row.now ≡ false) }
    ensures bad { result ≡ Err RecordFault.Bad → is_refused form.now schema.now row.now ≡ true }
    ensures err { OnErr result (into.new ≡ into.old) }
{
    let mut text = match record_text(alloc, schema, form, row) {
        Ok(text) => text,
        Err(fault) => return Err(fault),
    };
    match text.push(b'\n') {
        Ok(()) => {}
        Err(_) => return Err(RecordFault::Memory),
    }
    match into.append(text.as_slice()) {
        Ok(()) => Ok(()),
        Err(_) => Err(RecordFault::Memory),
    }
}

/// A line spells one row at most.
#[tactic(auto, using(crate::proofs::RecordProofs::one_row))]
pub fn one_row()
    ensures { OneRow }
{}

/// A row that a line spells fits the schema.
#[tactic(auto, using(crate::proofs::RecordProofs::spelled_fits))]
pub fn spelled_fits()
    ensures { SpelledFits }
{}

/// What is written reads back as the same row, and a file of rows as these rows.
#[tactic(auto, using(crate::proofs::RecordProofs::reads_back, crate::proofs::RecordProofs::file_reads_back))]
pub fn reads_back()
    ensures row { ReadsBack }
    ensures file { FileReadsBack }
{}
