//! The laws of sorting, merging, collecting and runs. Each function's contract is its law, and
//! calling it does nothing.

ghost use Rattle.op_base.specs.Laws.{RowOrderIsTotal, StableSortArranges, ArrangedIsSorted, ArrangedIsSame, MergeArranges, MergeInterleaves, JoinedInterleaves, TurnsInterleave, RunsAreValues, FeedEmits, EndEmits, FirstsAtOnce};

/// The order of rows by keys is total.
pub fn row_order_is_total()
    ensures { RowOrderIsTotal }
{}

/// A stable sort gives the arranged list, which is in order and has the same rows.
pub fn stable_sort_arranges()
    ensures arranged { StableSortArranges }
    ensures sorted { ArrangedIsSorted }
    ensures same { ArrangedIsSame }
{}

/// The merge of sorted lists is the arranged list of all, a tie to the smaller list.
pub fn merge_arranges()
    ensures { MergeArranges }
{}

/// What a collector gives is an interleaving.
pub fn collectors_interleave()
    ensures merge { MergeInterleaves }
    ensures ordered { JoinedInterleaves }
    ensures in_turn { TurnsInterleave }
{}

/// On sorted lists, run by run is value by value.
pub fn runs_are_values()
    ensures { RunsAreValues }
{}

/// What feeds add to what was emitted.
pub fn feeds_emit()
    ensures row { FeedEmits }
    ensures end { EndEmits }
{}

/// The first row of each run can be given at once.
pub fn firsts_at_once()
    ensures { FirstsAtOnce }
{}
