//! What the streams of this crate give of whole lists.
ghost use Rattle.op_order.specs.Laws.{TsortArranges, RemdupKeepsOne, RemdupRuns, RemdupSeesNoSort};

/// What tsort gives is what sorting means.
pub fn tsort_arranges()
    ensures { TsortArranges }
{}

/// On rows in the order of its keys, what remdup gives is what it means; of any rows it is that run
/// by run.
pub fn remdup_keeps_one()
    ensures ordered { RemdupKeepsOne }
    ensures runs { RemdupRuns }
{}

/// What remdup means is unchanged when its rows are sorted by its keys.
pub fn remdup_sees_no_sort()
    ensures { RemdupSeesNoSort }
{}
