//! What the streams give of whole lists. Each function's contract is its law, and calling it does
//! nothing.
ghost use Rattle.op_match.specs.Laws.{CapturesMatch, CapturesMatchRuns, MergesMatch, MergesMatchRuns};

/// On lists in the order of the keys, changecapture gives what it means, value by value; on any
/// lists, run by run.
pub fn captures_match()
    ensures values { CapturesMatch }
    ensures runs { CapturesMatchRuns }
{}

/// On lists in the order of the keys, merge gives on each output what it means, value by value;
/// on any lists, run by run.
pub fn merges_match()
    ensures values { MergesMatch }
    ensures runs { MergesMatchRuns }
{}
