ghost use Rattle.flow_plan.specs.Planned.{PlansAreWired};
ghost use Rattle.flow_plan.specs.Data.{NumberedFits};

/// The plan of a shaped flow is wired, whatever was chosen for its links.
pub fn plans_are_wired()
    ensures { PlansAreWired }
{}

/// A stream over rows is one over data, whose faults have a number.
pub fn numbered_fits()
    ensures { NumberedFits }
{}
