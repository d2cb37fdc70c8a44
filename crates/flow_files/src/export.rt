//! Writing rows as the lines of a file.

ghost use Rattle.std.specs.Prelude.{◌≡◌, ◌≤◌, ◌++◌, ℕ, take, true, IsTrue, IsErr, OnOk, Err};
ghost use Rattle.std.specs.List.{flat_map};
ghost use Rattle.ds_port.specs.Causes.{HasCause};
ghost use Rattle.ds_schema.specs.Schemas.{row_fits};
ghost use Rattle.ds_text.specs.Forms.{FormFits};
ghost use Rattle.flow_files.specs.Lines.{AllFit};
ghost use Rattle.flow_files.specs.Tallies.{Grows};
ghost use Rattle.flow_files.specs.Texts.{exported_text, export_faults};

use crate::fault::{FileFault, unwritable};
use crate::tally::Tally;
use ds_port::{DeviceFault, Sink};
use ds_schema::{Row, Schema};
use ds_text::{Form, RecordFault, write_line};
use ds_value::{Bytes, NoMemory};
use std::alloc::Global;

/// The bytes that are written at once, about.
const PAGE: usize = 65_536;

/// Puts a row onto the page as a line, or counts its fault.
fn put_row(
    alloc: Global,
    op: u32,
    schema: &Schema,
    form: &Form,
    row: &Row,
    page: &mut Bytes,
    tally: &mut Tally,
) -> Result<(), NoMemory>
    requires form { FormFits schema.now form.now }
    requires fits { row_fits schema.now row.now ≡ true }
    ensures written { OnOk result (page.new ≡ page.old ++ exported_text form.now schema.now row.now) }
    ensures tallied { OnOk result (Grows tally.old tally.new (export_faults op form.now schema.now row.now)) }
{
    match write_line(alloc, schema, form, row, page) {
        Ok(()) => Ok(()),
        Err(RecordFault::Bad) => {
            tally.add(unwritable(alloc, op, schema.as_slice(), row)?);
            Ok(())
        }
        Err(RecordFault::Memory) => Err(NoMemory),
    }
}

/// Writes all bytes.
fn write_whole<K: Sink>(sink: &mut K, bytes: &[u8]) -> Result<(), DeviceFault>
    ensures told { IsTrue K.tells → OnOk result (K.held sink.new ≡ K.held sink.old ++ bytes.now) }
    ensures name { K.name sink.new ≡ K.name sink.old }
    ensures cause { HasCause (K.faults sink.old) (K.faults sink.new) (IsErr result) }
{
    let mut at = 0;
    while at < bytes.len() {
        at += sink.write(&bytes[at..])?;
    }
    Ok(())
}

/// Writes a page that is full.
fn turn<K: Sink>(sink: &mut K, page: &mut Bytes) -> Result<(), DeviceFault>
    ensures told { IsTrue K.tells → OnOk result (K.held sink.new ++ page.new ≡ K.held sink.old ++ page.old) }
    ensures name { K.name sink.new ≡ K.name sink.old }
    ensures cause { HasCause (K.faults sink.old) (K.faults sink.new) (IsErr result) }
{
    if page.as_slice().len() >= PAGE {
        write_whole(sink, page.as_slice())?;
        page.clear();
    }
    Ok(())
}

/// Writes the rows that can be written as lines, for the export with the number `op`, and counts
/// the others as faults. After an error the tally is of no use.
pub fn export_rows<K: Sink>(
    alloc: Global,
    op: u32,
    schema: &Schema,
    form: &Form,
    rows: &[Row],
    sink: &mut K,
    tally: &mut Tally,
) -> Result<(), FileFault>
    requires form { FormFits schema.now form.now }
    requires fit { AllFit schema.now rows.now }
    ensures told { IsTrue K.tells → OnOk result (K.held sink.new ≡ K.held sink.old ++ flat_map (exported_text form.now schema.now) rows.now) }
    ensures tallied { OnOk result (Grows tally.old tally.new (flat_map (export_faults op form.now schema.now) rows.now)) }
    ensures name { K.name sink.new ≡ K.name sink.old }
    ensures cause { HasCause (K.faults sink.old) (K.faults sink.new) (result ≡ Err FileFault.Device) }
{
    let mut page = Bytes::new(alloc);
    for row in rows {
        put_row(alloc, op, schema, form, row, &mut page, tally)?;
        turn(sink, &mut page)?;
    }
    write_whole(sink, page.as_slice())?;
    Ok(())
}
