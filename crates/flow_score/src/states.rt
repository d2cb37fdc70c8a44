//! Texts of states, needs and routes.

ghost use Rattle.std.specs.Prelude.{◌≡◌, ◌++◌, OnOk};
ghost use Rattle.flow_score.specs.Texts.{place_text, spot_text, need_text, route_text};

use crate::columns::{put, put_column, put_named_columns, put_named_keys};
use ds_place::Place;
use ds_schema::Field;
use ds_value::{Bytes, NoMemory};
use flow_graph::{Route, Spot};
use flow_rules::Need;

fn put_place(text: &mut Bytes, fields: &[Field], place: &Place) -> Result<(), NoMemory>
    ensures { OnOk result (text.new ≡ text.old ++ place_text fields.now place.now) }
{
    match place {
        Place::Hash(columns) => put_named_columns(text, "hash", fields, columns.as_slice()),
        Place::Modulus(column) => {
            put(text, "modulus(")?;
            put_column(text, fields, *column)?;
            put(text, ")")
        }
    }
}

pub fn put_spot(text: &mut Bytes, fields: &[Field], spot: &Spot) -> Result<(), NoMemory>
    ensures { OnOk result (text.new ≡ text.old ++ spot_text fields.now spot.now) }
{
    match spot {
        Spot::Solo => put(text, "solo"),
        Spot::Placed(place) => put_place(text, fields, place),
        Spot::Entire => put(text, "entire"),
        Spot::None => put(text, "none"),
    }
}

pub fn put_route(text: &mut Bytes, fields: &[Field], route: &Route) -> Result<(), NoMemory>
    ensures { OnOk result (text.new ≡ text.old ++ route_text fields.now route.now) }
{
    match route {
        Route::Same => put(text, "same"),
        Route::RoundRobin => put(text, "rr"),
        Route::Entire => put(text, "entire"),
        Route::Hash(columns) => put_named_columns(text, "hash", fields, columns.as_slice()),
        Route::Modulus(column) => {
            put(text, "modulus(")?;
            put_column(text, fields, *column)?;
            put(text, ")")
        }
        Route::Any => put(text, "any"),
        Route::Ordered => put(text, "ordered"),
        Route::Merge(keys) => put_named_keys(text, "merge", fields, keys.as_slice()),
    }
}

pub fn put_need(text: &mut Bytes, fields: &[Field], need: &Need) -> Result<(), NoMemory>
    ensures { OnOk result (text.new ≡ text.old ++ need_text fields.now need.now) }
{
    match need {
        Need::NotEntire => put(text, "notentire"),
        Need::Placed(keys) => put_named_keys(text, "placed", fields, keys.as_slice()),
        Need::Colocated(keys) => put_named_keys(text, "colocated", fields, keys.as_slice()),
        Need::SamePlace(spot) => {
            put(text, "place ")?;
            put_spot(text, fields, spot)
        }
        Need::Agree(keys) => put_named_keys(text, "agree", fields, keys.as_slice()),
        Need::Sorted(keys) => put_named_keys(text, "sort", fields, keys.as_slice()),
        Need::MergeSort(keys) => put_named_keys(text, "mergesort", fields, keys.as_slice()),
        Need::Reference(keys) => put_named_keys(text, "reference", fields, keys.as_slice()),
    }
}
