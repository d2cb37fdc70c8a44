ghost use Rattle.std.specs.Prelude.{◌≡◌, ◌≤◌, ◌<◌, ℤ, pos, unsigned_abs, All};
ghost use Rattle.std.specs.Int.{int_rem_euclid};
ghost use Rattle.ds_value.specs.Canonical.{IsShort};
ghost use Rattle.ds_value.specs.Values.{number};
ghost use Rattle.ds_schema.specs.Rows.{InWidth};
ghost use Rattle.ds_place.specs.Places.{place_number, columns_read, IsWhole, HoldsWhole};

use crate::hash::hash_of;
use ds_schema::Row;
use ds_value::{Copied, Items, NoMemory, Value};

/// Where rows lie: by the hash of some columns, or by one whole column's remainder.
#[derive(Debug, Drop)]
pub enum Place {
    Hash(Items<u32>),
    Modulus(u32),
}

impl Copied for Place {
    fn copied(&self) -> Result<Place, NoMemory> {
        match self {
            Place::Hash(columns) => Ok(Place::Hash(columns.copied()?)),
            Place::Modulus(column) => Ok(Place::Modulus(*column)),
        }
    }
}

/// The remainder of a whole number, never negative; that of null is 0.
fn remainder(value: &Value, n: u32) -> u32
    requires whole { IsWhole value.now }
    requires some { 1 ≤ n }
    ensures { result ≡ unsigned_abs (int_rem_euclid (number value.now) (pos n)) }
{
    match value {
        Value::Null => 0,
        Value::Int(int) => int.rem_euclid(i64::from(n)) as u32,
        Value::UInt(uint) => (*uint % u64::from(n)) as u32,
        _ => unreachable!(),
    }
}

/// The partition, of `n`, in which the place puts the row.
pub fn partition_of(place: &Place, row: &Row, n: u32) -> u32
    requires columns { All (InWidth row.now) (columns_read place.now) }
    requires whole { HoldsWhole place.now row.now }
    requires short { All IsShort row.now }
    requires some { 1 ≤ n }
    ensures place { result ≡ place_number place.now row.now n }
    ensures below { result < n }
{
    match place {
        Place::Hash(columns) => (hash_of(columns.as_slice(), row) % u64::from(n)) as u32,
        Place::Modulus(column) => remainder(&row.as_slice()[*column as usize], n),
    }
}
