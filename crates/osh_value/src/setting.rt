//! Options with their values, and the operator that they say.

ghost use Rattle.std.specs.Prelude.{◌≡◌, ◌++◌, ◌∷◌, [], IfOk, OnOk, Some, None};
ghost use Rattle.std.specs.Option.{option_copied};
ghost use Rattle.osh_table.specs.declared.option.OptName.TheVariants as opt;
ghost use Rattle.osh_value.specs.Kinds.{cases_in, columns_in, delim_in, export_of, expression_in, changecapture_of, filter_of, found_value, funnel_of, group_of, import_of, keyed, keys_in, kind_of, missing_in, modify_of, name_in, number_of, renames_in, results_of, schema_in, sets_of, stands, stored, switch_of, transform_by, transform_of, widths_in};

use crate::value::OptValue;
use ds_schema::Schema;
use ds_value::{Bytes, Copied, Items, Name, NoMemory};
use flow_graph::{AggSpec, OpKind, SetSpec};
use op_base::Missing;
use osh_table::{OpName, OptName};
use std::alloc::Global;

/// An option with its value, and the group of its row.
#[derive(Debug, Drop)]
pub struct Setting {
    pub opt: OptName,
    pub group: u8,
    pub value: OptValue,
}

fn number_of(opt: OptName) -> u8
    ensures { result ≡ number_of opt }
{
    opt as u8
}

/// The value of the first of these options.
fn found_value(opt: OptName, settings: &[Setting]) -> Option<&OptValue>
    ensures { option_copied result ≡ found_value opt settings.now }
{
    for setting in settings {
        if number_of(setting.opt) == number_of(opt) {
            return Some(&setting.value);
        }
    }
    None
}

fn stands(opt: OptName, settings: &[Setting]) -> bool
    ensures { result ≡ stands (found_value opt settings.now) }
{
    match found_value(opt, settings) {
        Some(_) => true,
        None => false,
    }
}

fn name_in(opt: OptName, settings: &[Setting]) -> Result<Option<Name>, NoMemory>
    ensures { IfOk result (λ name. name ≡ name_in (found_value opt settings.now)) }
{
    match found_value(opt, settings) {
        Some(OptValue::Name(name)) => Ok(Some(name.copied()?)),
        _ => Ok(None),
    }
}

fn schema_in(settings: &[Setting]) -> Result<Option<Schema>, NoMemory>
    ensures { IfOk result (λ schema. schema ≡ schema_in (found_value opt.Schema settings.now)) }
{
    match found_value(OptName::Schema, settings) {
        Some(OptValue::Schema(schema)) => Ok(Some(schema.copied()?)),
        _ => Ok(None),
    }
}

fn delim_in(settings: &[Setting]) -> u8
    ensures { result ≡ delim_in (found_value opt.Delim settings.now) }
{
    match found_value(OptName::Delim, settings) {
        Some(OptValue::Delim(byte)) => *byte,
        _ => b',',
    }
}

fn widths_in(settings: &[Setting]) -> Result<Option<Items<u32>>, NoMemory>
    ensures { IfOk result (λ widths. widths ≡ widths_in (found_value opt.Fixed settings.now)) }
{
    match found_value(OptName::Fixed, settings) {
        Some(OptValue::Widths(widths)) => Ok(Some(widths.copied()?)),
        _ => Ok(None),
    }
}

fn keys_in(
    alloc: Global,
    opt: OptName,
    settings: &[Setting],
) -> Result<Items<(Name, bool)>, NoMemory>
    ensures { IfOk result (λ keys. keys ≡ keys_in (found_value opt settings.now)) }
{
    match found_value(opt, settings) {
        Some(OptValue::Keys(keys)) => keys.copied(),
        _ => Ok(Items::new(alloc)),
    }
}

fn columns_in(alloc: Global, opt: OptName, settings: &[Setting]) -> Result<Items<Name>, NoMemory>
    ensures { IfOk result (λ names. names ≡ columns_in (found_value opt settings.now)) }
{
    match found_value(opt, settings) {
        Some(OptValue::Columns(names)) => names.copied(),
        _ => Ok(Items::new(alloc)),
    }
}

fn renames_in(alloc: Global, settings: &[Setting]) -> Result<Items<(Name, Name)>, NoMemory>
    ensures { IfOk result (λ pairs. pairs ≡ renames_in (found_value opt.Rename settings.now)) }
{
    match found_value(OptName::Rename, settings) {
        Some(OptValue::Renames(pairs)) => pairs.copied(),
        _ => Ok(Items::new(alloc)),
    }
}

fn missing_in(settings: &[Setting]) -> Missing
    ensures { result ≡ missing_in (found_value opt.Missing settings.now) }
{
    match found_value(OptName::Missing, settings) {
        Some(OptValue::Missing(missing)) => *missing,
        _ => Missing::Fail,
    }
}

fn expression_in(opt: OptName, settings: &[Setting]) -> Result<Option<Bytes>, NoMemory>
    ensures { IfOk result (λ expr. expr ≡ expression_in (found_value opt settings.now)) }
{
    match found_value(opt, settings) {
        Some(OptValue::Expression(expr)) => Ok(Some(expr.copied()?)),
        _ => Ok(None),
    }
}

fn cases_in(settings: &[Setting]) -> Result<Option<Items<i64>>, NoMemory>
    ensures { IfOk result (λ cases. cases ≡ cases_in (found_value opt.Cases settings.now)) }
{
    match found_value(OptName::Cases, settings) {
        Some(OptValue::Cases(cases)) => Ok(Some(cases.copied()?)),
        _ => Ok(None),
    }
}

/// Appends the column that an option sets, where it sets one.
fn append_set(found: &mut Items<SetSpec>, setting: &Setting) -> Result<(), NoMemory>
    ensures { OnOk result (found.new ≡ found.old ++ sets_of (setting.now ∷ [])) }
{
    match &setting.value {
        OptValue::Set(set) => {
            found.push(set.copied()?)?;
            Ok(())
        }
        _ => Ok(()),
    }
}

/// The columns that a transform sets, in the written order.
fn sets(alloc: Global, settings: &[Setting]) -> Result<Items<SetSpec>, NoMemory>
    ensures { IfOk result (λ sets. sets ≡ sets_of settings.now) }
{
    let mut found = Items::new(alloc);
    for setting in settings {
        append_set(&mut found, setting)?;
    }
    Ok(found)
}

/// Appends the result that an option says, where it says one.
fn append_result(found: &mut Items<AggSpec>, setting: &Setting) -> Result<(), NoMemory>
    ensures { OnOk result (found.new ≡ found.old ++ results_of (setting.now ∷ [])) }
{
    match &setting.value {
        OptValue::Result(spec) => {
            found.push(spec.copied()?)?;
            Ok(())
        }
        _ => Ok(()),
    }
}

/// The results of a group, in the written order.
fn results(alloc: Global, settings: &[Setting]) -> Result<Items<AggSpec>, NoMemory>
    ensures { IfOk result (λ results. results ≡ results_of settings.now) }
{
    let mut found = Items::new(alloc);
    for setting in settings {
        append_result(&mut found, setting)?;
    }
    Ok(found)
}

fn import_of(settings: &[Setting]) -> Result<Option<OpKind>, NoMemory>
    ensures { IfOk result (λ kind. kind ≡ import_of settings.now) }
{
    let Some(file) = name_in(OptName::File, settings)? else {
        return Ok(None);
    };
    let Some(schema) = schema_in(settings)? else {
        return Ok(None);
    };
    let fixed = widths_in(settings)?;
    Ok(Some(OpKind::Import {
        file,
        schema,
        delim: delim_in(settings),
        fixed,
        reject: stands(OptName::Reject, settings),
    }))
}

fn export_of(settings: &[Setting]) -> Result<Option<OpKind>, NoMemory>
    ensures { IfOk result (λ kind. kind ≡ export_of settings.now) }
{
    let Some(file) = name_in(OptName::File, settings)? else {
        return Ok(None);
    };
    let fixed = widths_in(settings)?;
    Ok(Some(OpKind::Export {
        file,
        delim: delim_in(settings),
        fixed,
    }))
}

/// An operator on a data set.
fn stored(op: OpName, settings: &[Setting]) -> Result<Option<OpKind>, NoMemory>
    ensures { IfOk result (λ kind. kind ≡ stored op settings.now) }
{
    let Some(ds) = name_in(OptName::Ds, settings)? else {
        return Ok(None);
    };
    match op {
        OpName::Dsread => Ok(Some(OpKind::Dsread { ds })),
        _ => Ok(Some(OpKind::Dswrite { ds })),
    }
}

fn filter_of(settings: &[Setting]) -> Result<Option<OpKind>, NoMemory>
    ensures { IfOk result (λ kind. kind ≡ filter_of settings.now) }
{
    let Some(test) = expression_in(OptName::Where, settings)? else {
        return Ok(None);
    };
    Ok(Some(OpKind::Filter {
        test,
        reject: stands(OptName::Reject, settings),
    }))
}

fn transform_by(set: Items<SetSpec>, reject: bool) -> Option<OpKind>
    ensures { result ≡ transform_by set reject }
{
    match set.as_slice() {
        [] => None,
        _ => Some(OpKind::Transform { set, reject }),
    }
}

fn transform_of(alloc: Global, settings: &[Setting]) -> Result<Option<OpKind>, NoMemory>
    ensures { IfOk result (λ kind. kind ≡ transform_of settings.now) }
{
    let set = sets(alloc, settings)?;
    Ok(transform_by(set, stands(OptName::Reject, settings)))
}

fn switch_of(settings: &[Setting]) -> Result<Option<OpKind>, NoMemory>
    ensures { IfOk result (λ kind. kind ≡ switch_of settings.now) }
{
    let Some(on) = expression_in(OptName::On, settings)? else {
        return Ok(None);
    };
    let Some(cases) = cases_in(settings)? else {
        return Ok(None);
    };
    Ok(Some(OpKind::Switch {
        on,
        cases,
        reject: stands(OptName::Reject, settings),
    }))
}

fn modify_of(alloc: Global, settings: &[Setting]) -> Result<OpKind, NoMemory>
    ensures { IfOk result (λ kind. kind ≡ modify_of settings.now) }
{
    let keep = columns_in(alloc, OptName::Keep, settings)?;
    let drop = columns_in(alloc, OptName::Drop, settings)?;
    let rename = renames_in(alloc, settings)?;
    Ok(OpKind::Modify { keep, drop, rename })
}

fn group_of(alloc: Global, settings: &[Setting]) -> Result<OpKind, NoMemory>
    ensures { IfOk result (λ kind. kind ≡ group_of settings.now) }
{
    let key = keys_in(alloc, OptName::Key, settings)?;
    let results = results(alloc, settings)?;
    Ok(OpKind::Group {
        key,
        hash: stands(OptName::Hash, settings),
        results,
    })
}

fn changecapture_of(alloc: Global, settings: &[Setting]) -> Result<OpKind, NoMemory>
    ensures { IfOk result (λ kind. kind ≡ changecapture_of settings.now) }
{
    let key = keys_in(alloc, OptName::Key, settings)?;
    let values = columns_in(alloc, OptName::Values, settings)?;
    Ok(OpKind::Changecapture {
        key,
        values,
        keepcopy: stands(OptName::Keepcopy, settings),
    })
}

/// An operator of one input or of joined inputs, by its key.
fn keyed(alloc: Global, op: OpName, settings: &[Setting]) -> Result<OpKind, NoMemory>
    ensures { IfOk result (λ kind. kind ≡ keyed op settings.now) }
{
    let key = keys_in(alloc, OptName::Key, settings)?;
    match op {
        OpName::Tsort => Ok(OpKind::Tsort { key }),
        OpName::Remdup => Ok(OpKind::Remdup {
            key,
            last: stands(OptName::Last, settings),
        }),
        OpName::InnerJoin => Ok(OpKind::InnerJoin { key }),
        OpName::LeftOuterJoin => Ok(OpKind::LeftOuterJoin { key }),
        OpName::RightOuterJoin => Ok(OpKind::RightOuterJoin { key }),
        OpName::FullOuterJoin => Ok(OpKind::FullOuterJoin { key }),
        OpName::Merge => Ok(OpKind::Merge {
            key,
            keepbad: stands(OptName::Keepbad, settings),
            reject: stands(OptName::Reject, settings),
        }),
        _ => Ok(OpKind::Lookup {
            key,
            missing: missing_in(settings),
        }),
    }
}

fn funnel_of(alloc: Global, settings: &[Setting]) -> Result<OpKind, NoMemory>
    ensures { IfOk result (λ kind. kind ≡ funnel_of settings.now) }
{
    let sort = keys_in(alloc, OptName::Sort, settings)?;
    Ok(OpKind::Funnel {
        sequence: stands(OptName::Sequence, settings),
        sort,
    })
}

/// The operator that options say; none where one lacks that it must have.
pub fn kind_of(alloc: Global, op: OpName, settings: &[Setting]) -> Result<Option<OpKind>, NoMemory>
    ensures { IfOk result (λ kind. kind ≡ kind_of op settings.now) }
{
    match op {
        OpName::Import => import_of(settings),
        OpName::Export => export_of(settings),
        OpName::Dsread | OpName::Dswrite => stored(op, settings),
        OpName::Copy => Ok(Some(OpKind::Copy)),
        OpName::Filter => filter_of(settings),
        OpName::Transform => transform_of(alloc, settings),
        OpName::Modify => Ok(Some(modify_of(alloc, settings)?)),
        OpName::Switch => switch_of(settings),
        OpName::Group => Ok(Some(group_of(alloc, settings)?)),
        OpName::Changecapture => Ok(Some(changecapture_of(alloc, settings)?)),
        OpName::Funnel => Ok(Some(funnel_of(alloc, settings)?)),
        OpName::Tsort
        | OpName::Remdup
        | OpName::InnerJoin
        | OpName::LeftOuterJoin
        | OpName::RightOuterJoin
        | OpName::FullOuterJoin
        | OpName::Merge
        | OpName::Lookup => Ok(Some(keyed(alloc, op, settings)?)),
    }
}
