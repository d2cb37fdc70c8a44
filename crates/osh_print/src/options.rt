//! Printing operators with their options.

ghost use Rattle.std.specs.Prelude.{◌≡◌, ◌++◌, OnOk};
ghost use Rattle.ds_schema.specs.SchemaText.{schema_text};
ghost use Rattle.osh_table.specs.declared.option.OptName.TheVariants as opt;
ghost use Rattle.osh_print.specs.OptionText.{behind_key, cases_text, columns_option, delim_text, ends_text, flag_text, key_of, keys_option, missing_text, name_of, option_text, options_text, pair_text, renames_option, result_text, results_text, set_text, sets_text, widths_text};

use crate::value::{
    append_option, missing_word, print_cases, print_pairs, print_set, print_widths,
};
use ds_schema::{Schema, print_keys, print_names, print_schema};
use ds_value::{Bytes, Items, Name, NoMemory};
use flow_graph::{AggSpec, OpKind, SetSpec};
use op_base::Missing;
use osh_table::{OpName, OptName, option_word};
use std::alloc::Global;

fn append_flag(text: &mut Bytes, opt: OptName, stands: bool) -> Result<(), NoMemory>
    ensures { OnOk result (text.new ≡ text.old ++ flag_text opt stands) }
{
    if stands {
        text.append(b" ")?;
        text.append(option_word(opt))?;
    }
    Ok(())
}

fn append_schema(alloc: Global, text: &mut Bytes, schema: &Schema) -> Result<(), NoMemory>
    ensures { OnOk result (text.new ≡ text.old ++ option_text opt.Schema (schema_text schema.now)) }
{
    let printed = print_schema(alloc, schema)?;
    append_option(text, OptName::Schema, printed.as_slice())
}

fn append_delim(text: &mut Bytes, delim: u8) -> Result<(), NoMemory>
    ensures { OnOk result (text.new ≡ text.old ++ delim_text delim) }
{
    if delim == b',' {
        return Ok(());
    }
    append_option(text, OptName::Delim, &[delim])
}

fn append_widths(
    alloc: Global,
    text: &mut Bytes,
    fixed: &Option<Items<u32>>,
) -> Result<(), NoMemory>
    ensures { OnOk result (text.new ≡ text.old ++ widths_text fixed.now) }
{
    match fixed {
        None => Ok(()),
        Some(widths) => {
            let printed = print_widths(alloc, widths.as_slice())?;
            append_option(text, OptName::Fixed, printed.as_slice())
        }
    }
}

fn append_keys(
    alloc: Global,
    text: &mut Bytes,
    opt: OptName,
    keys: &[(Name, bool)],
) -> Result<(), NoMemory>
    ensures { OnOk result (text.new ≡ text.old ++ keys_option opt keys.now) }
{
    match keys {
        [] => Ok(()),
        [..] => {
            let printed = print_keys(alloc, keys)?;
            append_option(text, opt, printed.as_slice())
        }
    }
}

fn append_columns(
    alloc: Global,
    text: &mut Bytes,
    opt: OptName,
    names: &[Name],
) -> Result<(), NoMemory>
    ensures { OnOk result (text.new ≡ text.old ++ columns_option opt names.now) }
{
    match names {
        [] => Ok(()),
        [..] => {
            let printed = print_names(alloc, names)?;
            append_option(text, opt, printed.as_slice())
        }
    }
}

fn append_renames(alloc: Global, text: &mut Bytes, pairs: &[(Name, Name)]) -> Result<(), NoMemory>
    ensures { OnOk result (text.new ≡ text.old ++ renames_option pairs.now) }
{
    match pairs {
        [] => Ok(()),
        [..] => {
            let printed = print_pairs(alloc, pairs)?;
            append_option(text, OptName::Rename, printed.as_slice())
        }
    }
}

fn append_missing(text: &mut Bytes, missing: Missing) -> Result<(), NoMemory>
    ensures { OnOk result (text.new ≡ text.old ++ missing_text missing) }
{
    match missing {
        Missing::Fail => Ok(()),
        Missing::Continue | Missing::Drop | Missing::Reject => {
            append_option(text, OptName::Missing, missing_word(missing))
        }
    }
}

fn append_made(
    alloc: Global,
    text: &mut Bytes,
    opt: OptName,
    new: &Name,
    old: &Name,
) -> Result<(), NoMemory>
    ensures { OnOk result (text.new ≡ text.old ++ option_text opt (pair_text (new.now, old.now))) }
{
    let mut value = Bytes::new(alloc);
    value.append(new.as_slice())?;
    value.append(b"=")?;
    value.append(old.as_slice())?;
    append_option(text, opt, value.as_slice())
}

fn append_result(alloc: Global, text: &mut Bytes, spec: &AggSpec) -> Result<(), NoMemory>
    ensures { OnOk result (text.new ≡ text.old ++ result_text spec.now) }
{
    match spec {
        AggSpec::Sum(new, old) => append_made(alloc, text, OptName::Sum, new, old),
        AggSpec::Count(new) => append_option(text, OptName::Count, new.as_slice()),
        AggSpec::Min(new, old) => append_made(alloc, text, OptName::Min, new, old),
        AggSpec::Max(new, old) => append_made(alloc, text, OptName::Max, new, old),
        AggSpec::First(new, old) => append_made(alloc, text, OptName::First, new, old),
        AggSpec::Last(new, old) => append_made(alloc, text, OptName::Last, new, old),
    }
}

fn append_results(alloc: Global, text: &mut Bytes, results: &[AggSpec]) -> Result<(), NoMemory>
    ensures { OnOk result (text.new ≡ text.old ++ results_text results.now) }
{
    for spec in results {
        append_result(alloc, text, spec)?;
    }
    Ok(())
}

fn append_set(alloc: Global, text: &mut Bytes, spec: &SetSpec) -> Result<(), NoMemory>
    ensures { OnOk result (text.new ≡ text.old ++ option_text opt.Set (set_text spec.now)) }
{
    let printed = print_set(alloc, spec)?;
    append_option(text, OptName::Set, printed.as_slice())
}

fn append_sets(alloc: Global, text: &mut Bytes, sets: &[SetSpec]) -> Result<(), NoMemory>
    ensures { OnOk result (text.new ≡ text.old ++ sets_text sets.now) }
{
    for spec in sets {
        append_set(alloc, text, spec)?;
    }
    Ok(())
}

fn append_cases(alloc: Global, text: &mut Bytes, cases: &[i64]) -> Result<(), NoMemory>
    ensures { OnOk result (text.new ≡ text.old ++ cases_text cases.now) }
{
    let printed = print_cases(alloc, cases)?;
    append_option(text, OptName::Cases, printed.as_slice())
}

/// The operator's name.
pub fn name_of(kind: &OpKind) -> OpName
    ensures { result ≡ name_of kind.now }
{
    match kind {
        OpKind::Import { .. } => OpName::Import,
        OpKind::Export { .. } => OpName::Export,
        OpKind::Dsread { .. } => OpName::Dsread,
        OpKind::Dswrite { .. } => OpName::Dswrite,
        OpKind::Copy => OpName::Copy,
        OpKind::Filter { .. } => OpName::Filter,
        OpKind::Transform { .. } => OpName::Transform,
        OpKind::Modify { .. } => OpName::Modify,
        OpKind::Switch { .. } => OpName::Switch,
        OpKind::Tsort { .. } => OpName::Tsort,
        OpKind::Remdup { .. } => OpName::Remdup,
        OpKind::Group { .. } => OpName::Group,
        OpKind::InnerJoin { .. } => OpName::InnerJoin,
        OpKind::LeftOuterJoin { .. } => OpName::LeftOuterJoin,
        OpKind::RightOuterJoin { .. } => OpName::RightOuterJoin,
        OpKind::FullOuterJoin { .. } => OpName::FullOuterJoin,
        OpKind::Merge { .. } => OpName::Merge,
        OpKind::Lookup { .. } => OpName::Lookup,
        OpKind::Changecapture { .. } => OpName::Changecapture,
        OpKind::Funnel { .. } => OpName::Funnel,
    }
}

/// The options of a file's records.
fn append_form(
    alloc: Global,
    text: &mut Bytes,
    delim: u8,
    fixed: &Option<Items<u32>>,
) -> Result<(), NoMemory>
    ensures { OnOk result (text.new ≡ text.old ++ (delim_text delim ++ widths_text fixed.now)) }
{
    append_delim(text, delim)?;
    append_widths(alloc, text, fixed)
}

fn append_rejecting(
    alloc: Global,
    text: &mut Bytes,
    delim: u8,
    fixed: &Option<Items<u32>>,
    reject: bool,
) -> Result<(), NoMemory>
    ensures { OnOk result (text.new ≡ text.old ++ ((delim_text delim ++ widths_text fixed.now) ++ flag_text opt.Reject reject)) }
{
    append_form(alloc, text, delim, fixed)?;
    append_flag(text, OptName::Reject, reject)
}

fn append_source(
    alloc: Global,
    text: &mut Bytes,
    file: &Name,
    schema: &Schema,
) -> Result<(), NoMemory>
    ensures { OnOk result (text.new ≡ text.old ++ (option_text opt.File file.now ++ option_text opt.Schema (schema_text schema.now))) }
{
    append_option(text, OptName::File, file.as_slice())?;
    append_schema(alloc, text, schema)
}

fn append_import(
    alloc: Global,
    text: &mut Bytes,
    file: &Name,
    schema: &Schema,
    delim: u8,
    fixed: &Option<Items<u32>>,
    reject: bool,
) -> Result<(), NoMemory>
    ensures { OnOk result (text.new ≡ text.old ++ ((option_text opt.File file.now ++ option_text opt.Schema (schema_text schema.now)) ++ ((delim_text delim ++ widths_text fixed.now) ++ flag_text opt.Reject reject))) }
{
    append_source(alloc, text, file, schema)?;
    append_rejecting(alloc, text, delim, fixed, reject)
}

/// The options of the operators at the ends of a flow.
fn append_ends(alloc: Global, text: &mut Bytes, kind: &OpKind) -> Result<(), NoMemory>
    ensures { OnOk result (text.new ≡ text.old ++ ends_text kind.now) }
{
    match kind {
        OpKind::Import {
            file,
            schema,
            delim,
            fixed,
            reject,
        } => append_import(alloc, text, file, schema, *delim, fixed, *reject),
        OpKind::Export { file, delim, fixed } => {
            append_option(text, OptName::File, file.as_slice())?;
            append_form(alloc, text, *delim, fixed)
        }
        OpKind::Dsread { ds } => append_option(text, OptName::Ds, ds.as_slice()),
        OpKind::Dswrite { ds } => append_option(text, OptName::Ds, ds.as_slice()),
        _ => Ok(()),
    }
}

/// The options behind the key of a keyed operator.
fn append_behind_key(alloc: Global, text: &mut Bytes, kind: &OpKind) -> Result<(), NoMemory>
    ensures { OnOk result (text.new ≡ text.old ++ behind_key kind.now) }
{
    match kind {
        OpKind::Remdup { key: _, last } => append_flag(text, OptName::Last, *last),
        OpKind::Group {
            key: _,
            hash,
            results,
        } => {
            append_flag(text, OptName::Hash, *hash)?;
            append_results(alloc, text, results.as_slice())
        }
        OpKind::Merge {
            key: _,
            keepbad,
            reject,
        } => {
            append_flag(text, OptName::Keepbad, *keepbad)?;
            append_flag(text, OptName::Reject, *reject)
        }
        OpKind::Lookup { key: _, missing } => append_missing(text, *missing),
        OpKind::Changecapture {
            key: _,
            values,
            keepcopy,
        } => {
            append_columns(alloc, text, OptName::Values, values.as_slice())?;
            append_flag(text, OptName::Keepcopy, *keepcopy)
        }
        _ => Ok(()),
    }
}

/// The key of an operator, where it has one.
fn key_of(kind: &OpKind) -> &[(Name, bool)]
    ensures { result.now ≡ key_of kind.now }
{
    match kind {
        OpKind::Tsort { key } => key.as_slice(),
        OpKind::Remdup { key, .. } => key.as_slice(),
        OpKind::Group { key, .. } => key.as_slice(),
        OpKind::InnerJoin { key } => key.as_slice(),
        OpKind::LeftOuterJoin { key } => key.as_slice(),
        OpKind::RightOuterJoin { key } => key.as_slice(),
        OpKind::FullOuterJoin { key } => key.as_slice(),
        OpKind::Merge { key, .. } => key.as_slice(),
        OpKind::Lookup { key, .. } => key.as_slice(),
        OpKind::Changecapture { key, .. } => key.as_slice(),
        _ => &[],
    }
}

/// The options of an operator.
pub fn append_options(alloc: Global, text: &mut Bytes, kind: &OpKind) -> Result<(), NoMemory>
    ensures { OnOk result (text.new ≡ text.old ++ options_text kind.now) }
{
    match kind {
        OpKind::Filter { test, reject } => {
            append_option(text, OptName::Where, test.as_slice())?;
            append_flag(text, OptName::Reject, *reject)
        }
        OpKind::Transform { set, reject } => {
            append_sets(alloc, text, set.as_slice())?;
            append_flag(text, OptName::Reject, *reject)
        }
        OpKind::Switch { on, cases, reject } => {
            append_option(text, OptName::On, on.as_slice())?;
            append_cases(alloc, text, cases.as_slice())?;
            append_flag(text, OptName::Reject, *reject)
        }
        OpKind::Modify { keep, drop, rename } => {
            append_columns(alloc, text, OptName::Keep, keep.as_slice())?;
            append_columns(alloc, text, OptName::Drop, drop.as_slice())?;
            append_renames(alloc, text, rename.as_slice())
        }
        OpKind::Funnel { sequence, sort } => {
            append_flag(text, OptName::Sequence, *sequence)?;
            append_keys(alloc, text, OptName::Sort, sort.as_slice())
        }
        _ => {
            append_ends(alloc, text, kind)?;
            append_keys(alloc, text, OptName::Key, key_of(kind))?;
            append_behind_key(alloc, text, kind)
        }
    }
}
