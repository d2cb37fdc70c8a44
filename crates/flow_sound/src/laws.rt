//! The laws of flows of the operators that are built. Each function's contract is its law, and
//! calling it does nothing.

ghost use Rattle.flow_sound.specs.Fitting.{ExportsFit, KeyedRowsStay, MeaningFits, RowsStay};
ghost use Rattle.flow_sound.specs.Matched.{ChangesFit, FunnelsFit, MergesFit};
ghost use Rattle.flow_sound.specs.Promise.{HasMeaning, HasOneMeaning, FormsFit, OperatorsFit, AcceptedRunsKeep};
ghost use Rattle.flow_sound.specs.Tallies.{ExportIsTallied, RunIsTallied};

/// A shaped flow has one meaning: the whole list on each link.
pub fn flows_mean()
    ensures some { HasMeaning }
    ensures one { HasOneMeaning }
{}

/// The operators of a shaped flow are such as the checker sees them, with the inputs and the
/// columns that the law of flows asks.
pub fn operators_fit()
    ensures forms { FormsFit }
    ensures shapes { OperatorsFit }
{}

/// A legal run of an accepted flow keeps what the flow means: on each link the state holds and as
/// many rows were put as the meaning has, the faults are the meaning's, and each export has of the
/// meaning what the grade of its link says.
pub fn accepted_runs_keep()
    ensures { AcceptedRunsKeep }
{}

/// The faults of a run are those of its imports, what the partitions of the operators between
/// imports and exports failed with, and those of its exports over all rows that came at them,
/// counted by the numbers of the operators. They are the faults of the meaning, and so are those
/// of each export.
pub fn faults_are_tallied()
    ensures run { RunIsTallied }
    ensures export { ExportIsTallied }
{}

/// Rows fit the schema of their link: those of the meaning, and those that come at exports.
pub fn rows_fit_schemas()
    ensures meaning { MeaningFits }
    ensures exports { ExportsFit }
{}

/// Filter, transform, modify and switch make rows that fit of rows that fit. So do groups, joins
/// and lookups, partition by partition, and their columns are such as a run asks.
pub fn rows_stay()
    ensures by_row { RowsStay }
    ensures by_key { KeyedRowsStay }
{}

/// Merges, changes and funnels whose inputs are as they must be have the widths that the law of
/// flows asks, and make rows that fit of rows that fit, on whole lists and partition by partition.
pub fn matched_rows_fit()
    ensures merges { MergesFit }
    ensures changes { ChangesFit }
    ensures funnels { FunnelsFit }
{}
