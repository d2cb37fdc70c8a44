ghost use Rattle.std.specs.Prelude.{IfOk};
ghost use Rattle.ds_pack.specs.Packed.{FirstRow};

use crate::value_bytes::first_value;
use ds_schema::{Row, Schema, row_fits};
use ds_value::NoMemory;
use std::alloc::Global;

#[tactic(auto, using(crate::proofs::Rows::taken_within, crate::proofs::Rows::value_within, crate::proofs::Rows::taken_none, crate::proofs::Rows::taken_more, crate::proofs::Rows::row_ends, crate::proofs::Rows::row_misses, crate::proofs::Rows::row_stands))]
/// The row that stands in front of some bytes and fits the schema, and how many bytes it takes.
pub fn unpack_row(
    alloc: Global,
    schema: &Schema,
    bytes: &[u8],
) -> Result<Option<(Row, usize)>, NoMemory>
    ensures { IfOk result (FirstRow schema.now bytes.now) }
{
    let mut values = Vec::new(alloc);
    let mut taken = 0;
    for _ in schema.as_slice() {
        let Some((value, count)) = first_value(alloc, &bytes[taken..])? else {
            return Ok(None);
        };
        taken += count;
        values.push(value)?;
    }
    let row = Row::from_vec(values);
    if row_fits(schema, &row) {
        Ok(Some((row, taken)))
    } else {
        Ok(None)
    }
}
