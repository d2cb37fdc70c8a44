ghost use Rattle.plan_promise.specs.KindStreams.{KindsWork, MatchedWork, StoredWork};
ghost use Rattle.plan_promise.specs.Promised.{ExecutionsKeep, FinishedKeeps, UntoldKeeps, RunsKeep, BatchesKeep, NodesFit};

/// The operators that are built, as the streams of their code, work in a shaped flow. So do
/// merges, changes and funnels whose inputs are as they must be, and dsreads whose links have the
/// stored columns.
///
/// In a shaped flow each output is to be on a link (`LinksOutputs`, as in each flow that is read),
/// and what an export's stream finds are to be its faults (`SinksAre`).
pub fn kinds_work()
    ensures shaped { KindsWork }
    ensures matched { MatchedWork }
    ensures stored { StoredWork }
{}

/// A legal execution of an accepted flow's plan keeps what the flow means, whatever choices it is
/// accepted with, inserted sorts among them. So does each finished state of the step core, with
/// batches too, and where files tell nothing of what they still have; and so does a run that is over,
/// by whatever it was run.
///
/// What is asked besides shape and choices has a name in `Played`: as in `kinds_work`, and that
/// degrees are such as operators and routes ask, and that each source has its file. `nodes` is for
/// those who show that degrees are so.
pub fn executions_keep()
    ensures nodes { NodesFit }
    ensures keep { ExecutionsKeep }
    ensures finished { FinishedKeeps }
    ensures untold { UntoldKeeps }
    ensures runs { RunsKeep }
    ensures batches { BatchesKeep }
{}
