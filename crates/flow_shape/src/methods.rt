ghost use Rattle.std.specs.Prelude.{◌≡◌, ◌<◌, ◌^◌, not, ◌||◌, true, length, IfOk};
ghost use Rattle.flow_shape.specs.Methods.{may_stand, all_named, is_whole, is_whole_column, kinds_suit, method_cause, written_route, MethodDiffers};
ghost use Rattle.shape_base.specs.Naming.{is_named};

use ds_schema::Field;
use ds_value::{Kind, Name, NoMemory};
use flow_graph::{Method, Route};
use op_shape::ShapeWhy;
use op_shape::naming::{column, columns, has_column, has_columns, has_keys, is_named, key_list};
use std::alloc::Global;

fn may_stand(into_seq: bool, method: &Method) -> bool
    ensures { result ≡ may_stand into_seq method.now }
{
    match method {
        Method::Auto | Method::Same | Method::RoundRobin => true,
        Method::Entire | Method::Hash(_) | Method::Modulus(_) => !into_seq,
        Method::Any | Method::Ordered | Method::Merge(_) => into_seq,
    }
}

fn all_named(fields: &[Field], method: &Method) -> bool
    ensures { result ≡ all_named fields.now method.now }
{
    match method {
        Method::Hash(names) => has_columns(fields, names.as_slice()),
        Method::Modulus(name) => has_column(fields, name),
        Method::Merge(keys) => has_keys(fields, keys.as_slice()),
        Method::Auto
        | Method::Same
        | Method::RoundRobin
        | Method::Entire
        | Method::Any
        | Method::Ordered => true,
    }
}

fn is_whole(kind: Kind) -> bool
    ensures { result ≡ is_whole kind }
{
    match kind {
        Kind::Int(_) | Kind::UInt(_) => true,
        Kind::Dec { .. } | Kind::Text { .. } | Kind::Date => false,
    }
}

fn is_whole_or_other(name: &Name, field: &Field) -> bool
    ensures { result ≡ (not (is_named name.now field.now) || is_whole field.now.kind) }
{
    !is_named(name, field) || is_whole(field.kind)
}

/// Whether each field of that name is of a whole kind.
fn is_whole_column(fields: &[Field], name: &Name) -> bool
    ensures { result ≡ is_whole_column fields.now name.now }
{
    fields.iter().all(|field| is_whole_or_other(name, field))
}

fn kinds_suit(fields: &[Field], method: &Method) -> bool
    ensures { result ≡ kinds_suit fields.now method.now }
{
    match method {
        Method::Modulus(name) => is_whole_column(fields, name),
        Method::Auto
        | Method::Same
        | Method::RoundRobin
        | Method::Entire
        | Method::Hash(_)
        | Method::Any
        | Method::Ordered
        | Method::Merge(_) => true,
    }
}

/// What is wrong with the method of a link with these fields.
pub fn method_cause(into_seq: bool, fields: &[Field], method: &Method) -> Option<ShapeWhy>
    ensures { result ≡ method_cause into_seq fields.now method.now }
{
    if !may_stand(into_seq, method) {
        return Some(ShapeWhy::Method);
    }
    if !all_named(fields, method) {
        return Some(ShapeWhy::Field);
    }
    if !kinds_suit(fields, method) {
        return Some(ShapeWhy::Kind);
    }
    None
}

/// The route that a method writes, with columns for its names.
pub fn written_route(
    alloc: Global,
    fields: &[Field],
    method: &Method,
) -> Result<Option<Route>, NoMemory>
    requires few { length fields.now < 2 ^ 32 }
    requires named { all_named fields.now method.now ≡ true }
    requires differ { MethodDiffers method.now }
    ensures { IfOk result (λ route. route ≡ written_route fields.now method.now) }
{
    match method {
        Method::Auto => Ok(None),
        Method::Same => Ok(Some(Route::Same)),
        Method::RoundRobin => Ok(Some(Route::RoundRobin)),
        Method::Entire => Ok(Some(Route::Entire)),
        Method::Hash(names) => Ok(Some(Route::Hash(columns(alloc, fields, names.as_slice())?))),
        Method::Modulus(name) => Ok(Some(Route::Modulus(column(fields, name)))),
        Method::Any => Ok(Some(Route::Any)),
        Method::Ordered => Ok(Some(Route::Ordered)),
        Method::Merge(keys) => Ok(Some(Route::Merge(key_list(alloc, fields, keys.as_slice())?))),
    }
}
