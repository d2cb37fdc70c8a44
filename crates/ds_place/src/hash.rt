ghost use Rattle.std.specs.Prelude.{◌≡◌, ◌%◌, ◌*◌, ◌^◌, All, bit_xor};
ghost use Rattle.std.specs.List.{flat_map};
ghost use Rattle.ds_value.specs.Canonical.{canonical_bytes, IsShort};
ghost use Rattle.ds_schema.specs.Rows.{val, InWidth};
ghost use Rattle.ds_place.specs.Places.{fnv, hash_on};

use ds_schema::Row;
use ds_value::Value;

/// The hash of no bytes.
const OFFSET: u64 = 0xcbf2_9ce4_8422_2325;

const PRIME: u64 = 0x100_0000_01b3;

fn with_byte(hash: u64, byte: u8) -> u64
    ensures { result ≡ (bit_xor hash byte * 0x100000001b3) % 2 ^ 64 }
{
    (hash ^ u64::from(byte)).wrapping_mul(PRIME)
}

fn with_bytes(hash: u64, bytes: &[u8]) -> u64
    ensures { result ≡ hash_on hash bytes.now }
{
    let mut hash = hash;
    for byte in bytes {
        hash = with_byte(hash, *byte);
    }
    hash
}

/// FNV-1a of 64 bits.
pub fn fnv(bytes: &[u8]) -> u64
    ensures { result ≡ fnv bytes.now }
{
    with_bytes(OFFSET, bytes)
}

/// Goes on with the canonical bytes of a value.
fn with_value(hash: u64, value: &Value) -> u64
    requires { IsShort value.now }
    ensures { result ≡ hash_on hash (canonical_bytes value.now) }
{
    match value {
        Value::Null => with_byte(hash, 0),
        Value::Int(int) => with_bytes(with_byte(hash, 1), &int.to_be_bytes()),
        Value::UInt(uint) => with_bytes(with_byte(hash, 2), &uint.to_be_bytes()),
        Value::Dec(units) => with_bytes(with_byte(hash, 3), &units.to_be_bytes()),
        Value::Text(text) => {
            let length = text.as_slice().len() as u32;
            let hash = with_bytes(with_byte(hash, 4), &length.to_be_bytes());
            with_bytes(hash, text.as_slice())
        }
        Value::Date(day) => with_bytes(with_byte(hash, 5), &day.to_be_bytes()),
    }
}

/// The hash of the canonical bytes of the values in some columns, in the order of the columns.
pub fn hash_of(columns: &[u32], row: &Row) -> u64
    requires columns { All (InWidth row.now) columns.now }
    requires short { All IsShort row.now }
    ensures { result ≡ fnv (flat_map canonical_bytes (val columns.now row.now)) }
{
    let values = row.as_slice();
    let mut hash = OFFSET;
    for column in columns {
        hash = with_value(hash, &values[*column as usize]);
    }
    hash
}
