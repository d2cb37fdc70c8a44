ghost use Rattle.std.specs.Prelude.{◌≡◌, All, IfOk};
ghost use Rattle.std.specs.List.{AllByRecursion};
ghost use Rattle.ds_value.specs.Canonical.{IsShort, IsHeld};
ghost use Rattle.ds_schema.specs.Rows.{InWidth, val};
ghost use Rattle.op_lookup.specs.Table.{key_of};

use ds_schema::Row;
use ds_value::{Bytes, NoMemory, Value, canonical};
use std::alloc::Global;
use std::hash::{Hash, Hasher};
use std::marker::Model;

/// The canonical bytes of a key's values, by which rows are found in a hash table.
#[derive(Debug, Drop)]
pub struct KeyBytes {
    bytes: Vec<u8>,
}

impl Model for KeyBytes {
    ghost use Rattle.std.specs.Prelude.{List, ℕ};

    ghost Value = { List ℕ };

    ghost view = { λ b. b.bytes.items };
}

impl PartialEq for KeyBytes {
    ghost use Rattle.std.specs.Str.{bytes_eq};
    ghost use Rattle.std.specs.Cmp.{partial_equiv_from_equiv};
    ghost use Rattle.std.proofs.lemmas.Cmp.{nat_list_eq_equiv};

    ghost eq = { bytes_eq };

    ghost laws = { partial_equiv_from_equiv nat_list_eq_equiv };

    fn eq(&self, other: &KeyBytes) -> bool {
        self.bytes == other.bytes
    }
}

impl Eq for KeyBytes {
    ghost use Rattle.std.proofs.lemmas.Cmp.{nat_list_eq_equiv};

    ghost laws = { nat_list_eq_equiv };
}

impl Hash for KeyBytes {
    ghost use Rattle.std.specs.Hash as fed;
    ghost use Rattle.std.specs.Cmp.Rules.{comparing, hashing};
    ghost use Rattle.std.proofs.Common.{rules};

    ghost hash_input = { fed.slice fed.u8 };

    ghost respects_eq = { Prim.search (hashing, rules) };

    fn hash<H: Hasher>(&self, state: &mut H) {
        self.bytes.hash(state);
    }
}

/// The number that a value holds lies in the range of its variant. It is read for the
/// contract's sake, which knows the ranges of numbers that are read.
fn check_held(value: &Value)
    ensures { IsHeld value.now }
{
    match value {
        Value::Null | Value::Text(_) => {}
        Value::Int(n) => {
            let _n = *n;
        }
        Value::UInt(n) => {
            let _n = *n;
        }
        Value::Dec(n) => {
            let _n = *n;
        }
        Value::Date(n) => {
            let _n = *n;
        }
    }
}

/// The bytes of a row's values in some columns.
pub fn key_bytes(alloc: Global, row: &Row, cols: &[u32]) -> Result<KeyBytes, NoMemory>
    requires columns { All (InWidth row.now) cols.now }
    requires short { All IsShort row.now }
    ensures bytes { IfOk result (λ key. key ≡ key_of cols.now row.now) }
    ensures held { IfOk result (λ key. AllByRecursion IsHeld (val cols.now row.now)) }
{
    let mut bytes = Bytes::new(alloc);
    for col in cols {
        let value = &row.as_slice()[*col as usize];
        check_held(value);
        canonical(alloc, value, &mut bytes)?;
    }
    Ok(KeyBytes {
        bytes: bytes.into_vec(),
    })
}
