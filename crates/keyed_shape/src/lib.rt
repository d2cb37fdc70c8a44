//! The shape of operators by keys: what is wrong at the options and outputs of groups, joins, lookups,
//! merges, changes and funnels, and the fields of their outputs.
#![tactic(auto)]

mod alike;
mod capturing;
mod grouping;
mod joining;
mod keying;
mod looking;
mod merging;

pub use alike::inputs_keys;
pub use capturing::{capture_cause, capture_schema, funnel_cause, value_columns};
pub use grouping::{group_cause, group_schema, source_columns};
pub use joining::{FULL_OUTER, INNER, LEFT_OUTER, Lost, RIGHT_OUTER, join_cause, join_schema};
pub use looking::{lookup_cause, lookup_schema};
pub use merging::{merge_cause, merge_schema};
