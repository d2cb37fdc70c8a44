ghost use Rattle.std.specs.Prelude.{◌≡◌, ◌<◌, All, IfOk, length, []};
ghost use Rattle.op_lookup.specs.Looked.{looked_stream, suits_lookup};

use crate::Lookup;
use crate::columns::Columns;
use ds_value::NoMemory;
use op_base::{Missing, Operator};
use std::alloc::Global;

/// Looks main rows up in a reference of `width` columns: a main row's values in the columns
/// `main` are those of its reference row in the columns `reference`.
pub fn lookup(
    alloc: Global,
    main: Vec<u32>,
    reference: Vec<u32>,
    width: u32,
    missing: Missing,
) -> Result<Lookup, NoMemory>
    requires paired { length main.items ≡ length reference.items }
    requires within { All (λ c. c < width) reference.items }
    ensures stream { IfOk result (λ op. ⟦<Lookup as Operator>⟧.stream op ≡ looked_stream main.items reference.items width missing) }
    ensures suits { IfOk result (λ op. ⟦<Lookup as Operator>⟧.suits op ≡ suits_lookup main.items width) }
    ensures stands { IfOk result (λ op. ⟦<Lookup as Operator>⟧.Stands op []) }
{
    let columns = Columns::new(alloc, main, reference, width)?;
    Ok(Lookup::new(alloc, columns, missing))
}
