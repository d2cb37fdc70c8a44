//! What joins give of whole lists. Each function's contract is its law, and calling it does nothing.
ghost use Rattle.op_join.specs.Laws.{JoinsMatch, JoinsMatchRuns};

/// On lists in the order of the keys, a join gives what it means, value by value; on any
/// lists, run by run.
pub fn joins_match()
    ensures values { JoinsMatch }
    ensures runs { JoinsMatchRuns }
{}
