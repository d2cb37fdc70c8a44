use crate::lanes::Partitions;
use ds_value::Items;
use op_base::Fault;

/// What a run leaves: for each link the number of rows that were put on it, as far as rows are
/// counted, for each operator that is an export the rows of its partitions, and of the operators
/// between imports and exports the number of faults, as far as faults are counted, and the least.
#[derive(Debug, Drop)]
pub struct Ran {
    pub counts: Items<u64>,
    pub sinks: Items<Partitions>,
    pub faults: u64,
    pub least: Option<Fault>,
}
