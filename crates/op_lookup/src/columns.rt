ghost use Rattle.std.specs.Prelude.{◌≡◌, ◌<◌, All, IfOk};
ghost use Rattle.op_lookup.specs.Looked.{others_of};

use ds_value::NoMemory;
use std::alloc::Global;

/// The columns of a lookup: those of the key on both sides, the number of the reference's
/// columns, and which of these its key doesn't name.
#[derive(Debug, Drop)]
pub struct Columns {
    pub main: Vec<u32>,
    pub reference: Vec<u32>,
    pub width: u32,
    pub others: Vec<u32>,
    ghost within: { All (λ c. c < width) reference.items },
    ghost others_are: { others.items ≡ others_of reference.items width },
}

/// The columns below a width that a key doesn't name, in order.
fn others_of(alloc: Global, key: &[u32], width: u32) -> Result<Vec<u32>, NoMemory>
    ensures { IfOk result (λ others. others.items ≡ others_of key.now width) }
{
    let mut others = Vec::new(alloc);
    for col in 0..width {
        if !key.contains(&col) {
            others.push(col)?;
        }
    }
    Ok(others)
}

impl Columns {
    pub fn new(
        alloc: Global,
        main: Vec<u32>,
        reference: Vec<u32>,
        width: u32,
    ) -> Result<Columns, NoMemory>
        requires { All (λ c. c < width) reference.items }
        ensures main { IfOk result (λ columns. columns.main.items ≡ main.items) }
        ensures reference { IfOk result (λ columns. columns.reference.items ≡ reference.items) }
        ensures width { IfOk result (λ columns. columns.width ≡ width) }
    {
        let others = others_of(alloc, reference.as_slice(), width)?;
        Ok(Columns {
            main,
            reference,
            width,
            others,
        })
    }
}
