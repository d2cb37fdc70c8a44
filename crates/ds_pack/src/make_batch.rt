ghost use Rattle.std.specs.Prelude.{◌≡◌, IfOk};
ghost use Rattle.ds_pack.specs.Batches.{ArePackable};

use crate::{Batch, pack_row};
use ds_schema::Row;
use ds_value::{Bytes, NoMemory};
use std::alloc::Global;

/// One batch of rows: one at least, each of as many values, one at least. Each text has fewer than 2^32 bytes.
pub fn batch(alloc: Global, rows: &[Row]) -> Result<Batch, NoMemory>
    requires { ArePackable rows.now }
    ensures { IfOk result (λ batch. batch ≡ rows.now) }
{
    let mut bytes = Bytes::new(alloc);
    for row in rows {
        pack_row(alloc, row, &mut bytes)?;
    }
    let width = rows[0].as_slice().len();
    Ok(Batch { bytes, width })
}
