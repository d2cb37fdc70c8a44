ghost use Rattle.plan_sound.specs.FlowRuns.{LegalRuns};
ghost use Rattle.plan_sound.specs.OperatorStreams.{MeaningWorks, SourcesWork, StreamsMean};

/// A legal execution of the plan is a legal run of the flow.
pub fn executions_are_runs()
    ensures { LegalRuns }
{}

/// The stream of each operator gives on a partition what the operator means there.
pub fn streams_mean()
    ensures { StreamsMean }
{}

/// Where a stream gives what its operator means, it works in a flow. So do the sources.
pub fn operators_work()
    ensures operators { MeaningWorks }
    ensures sources { SourcesWork }
{}
