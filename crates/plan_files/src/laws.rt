ghost use Rattle.plan_files.specs.PlanFiles.{AcceptedIsChosen, FlowsCanBePlayed, SourcesHaveFiles};
ghost use Rattle.plan_files.specs.FlowPlays.{AcceptedFlowsPlayRight, FlowsPlayRight};

/// A flow that is accepted with some choices and can be seated on some nodes can be played on them,
/// where each source is fed the lines of its file: all that is asked of degrees, routes, sources and
/// exports is so. The choices of an accepted verdict are such choices.
pub fn flows_can_be_played()
    ensures files { SourcesHaveFiles }
    ensures played { FlowsCanBePlayed }
    ensures accepted { AcceptedIsChosen }
{}

/// The step core of an accepted flow over its files isn't stuck until it is finished, and then
/// each link and each export has what the flow means, whatever the events, nodes and capacity.
pub fn flows_play_right()
    ensures chosen { FlowsPlayRight }
    ensures accepted { AcceptedFlowsPlayRight }
{}
