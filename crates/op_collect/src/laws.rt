//! What the streams of this crate give of whole lists. Each function's contract is its law, and
//! calling it does nothing.
ghost use Rattle.op_collect.specs.Merged.{OneMerge};
ghost use Rattle.op_collect.specs.Laws.{OrderedJoins, RoundTakesTurns, SortMergeMerges, SortMergeArranges, GatherInterleaves};

/// One input after another gives the inputs joined, for the collector and the funnel.
pub fn ordered_joins()
    ensures { OrderedJoins }
{}

/// One row of each input in turn.
pub fn round_takes_turns()
    ensures { RoundTakesTurns }
{}

/// A merge of any lists; of lists in the order of the keys, all their rows arranged.
pub fn sort_merge_merges()
    ensures merged { SortMergeMerges }
    ensures arranged { SortMergeArranges }
{}

/// Any lists of rows have one merge by keys.
pub fn one_merge()
    ensures { OneMerge }
{}

/// Rows as they come are an interleaving of the inputs.
pub fn gather_interleaves()
    ensures { GatherInterleaves }
{}
