//! What such streams are, and what they give of whole lists. Each function's contract is its law,
//! and calling it does nothing.
ghost use Rattle.op_runs.specs.Laws.{KeyedIsStream, KeyedIsSingle, RunsAreGiven, ValuesAreGiven};

/// It wants one port at a time, until all have ended.
pub fn keyed_is_stream()
    ensures stream { KeyedIsStream }
    ensures single { KeyedIsSingle }
{}

/// Fed lists to their ends, it gives what its rule gives run by run.
pub fn runs_are_given()
    ensures { RunsAreGiven }
{}

/// On lists in the order of the keys, that is what its rule gives value by value.
pub fn values_are_given()
    ensures { ValuesAreGiven }
{}
