ghost use Rattle.std.specs.Prelude.{◌≡◌, ◌↔◌, All, IfOk, IsTrue};
ghost use Rattle.ds_value.specs.Values.{value_cmp};
ghost use Rattle.ds_schema.specs.Rows.{row_cmp, KeyInWidth, KeysDiffer, turned_cmp, at, val, cols};

use crate::Row;
use ds_value::{Copied, NoMemory, Value, cmp};
use std::alloc::Global;
use std::cmp::Ordering;
use std::marker::Model;

/// A column by its number, and whether its order is descending.
#[derive(Clone, Copy, Debug, PartialEq, Eq)]
pub struct Key {
    pub col: u32,
    pub desc: bool,
}

/// Keys of different columns, the first of which counts most.
#[derive(Debug, Drop)]
pub struct KeyList {
    keys: Vec<Key>,
}

impl Model for KeyList {
    ghost use Rattle.std.specs.Prelude.{List};
    ghost use Rattle.ds_schema.specs.declared.key.Key.{Key};
    ghost use Rattle.ds_schema.specs.Rows.{KeysDiffer};

    ghost Value = { List Key };

    ghost view = { λ k. k.keys.items };

    ghost invariant = { λ k. KeysDiffer k.keys.items };
}

impl KeyList {
    pub fn from_vec(keys: Vec<Key>) -> KeyList
        requires { KeysDiffer keys.items }
        ensures { result ≡ keys.items }
    {
        KeyList { keys }
    }

    pub fn as_slice(&self) -> &[Key]
        ensures keys { result.now ≡ self.now }
        ensures differ { KeysDiffer self.now }
    {
        self.keys.as_slice()
    }

    pub fn copied(&self) -> Result<KeyList, NoMemory>
        ensures { IfOk result (λ copy. copy ≡ self.now) }
    {
        Ok(KeyList {
            keys: self.keys.clone()?,
        })
    }
}

impl Copied for KeyList {
    fn copied(&self) -> Result<KeyList, NoMemory> {
        KeyList::copied(self)
    }
}

/// The order of two rows' values in a column. A column past the end counts as null.
fn cmp_at(col: usize, a: &Row, b: &Row) -> Ordering
    ensures { result ≡ value_cmp (at a.now col) (at b.now col) }
{
    match (a.as_slice().get(col), b.as_slice().get(col)) {
        (Some(left), Some(right)) => cmp(left, right),
        (Some(left), None) => cmp(left, &Value::Null),
        (None, Some(right)) => cmp(&Value::Null, right),
        (None, None) => Ordering::Equal,
    }
}

fn turned_cmp(key: &Key, a: &Row, b: &Row) -> Ordering
    ensures { result ≡ turned_cmp key.now.desc (at a.now key.now.col) (at b.now key.now.col) }
{
    if key.desc {
        cmp_at(key.col as usize, b, a)
    } else {
        cmp_at(key.col as usize, a, b)
    }
}

/// The order of two rows by the keys. A column past the end counts as null, so that
/// any two rows have an order.
pub fn compare_rows(keys: &KeyList, a: &Row, b: &Row) -> Ordering
    ensures { result ≡ row_cmp keys.now a.now b.now }
{
    for key in keys.as_slice() {
        let order = turned_cmp(key, a, b);
        if order != Ordering::Equal {
            return order;
        }
    }
    Ordering::Equal
}

/// The order of two rows that have the keys' columns.
pub fn key_cmp(keys: &KeyList, a: &Row, b: &Row) -> Ordering
    requires left { All (KeyInWidth a.now) keys.now }
    requires right { All (KeyInWidth b.now) keys.now }
    ensures { result ≡ row_cmp keys.now a.now b.now }
{
    compare_rows(keys, a, b)
}

/// Whether two rows have the same values in the keys' columns.
pub fn key_equal(keys: &KeyList, a: &Row, b: &Row) -> bool
    requires left { All (KeyInWidth a.now) keys.now }
    requires right { All (KeyInWidth b.now) keys.now }
    ensures { IsTrue result ↔ (val (cols keys.now) a.now ≡ val (cols keys.now) b.now) }
{
    compare_rows(keys, a, b).is_eq()
}
