ghost use Rattle.flow_choices.specs.Choices.{WrittenAccepted};
ghost use Rattle.flow_choices.specs.Kept.{AcceptedRunsKeepBy, WrittenRuns, WrittenKeeps};

/// A legal run of a flow, by choices with which it is accepted, keeps what the flow means: inserted
/// sorts and found routes leave the meaning as it is.
pub fn choices_keep()
    ensures { AcceptedRunsKeepBy }
{}

/// The choices that a flow's text writes are such as is asked, where its verdict is Accepted; and
/// what a run keeps by them is what an accepted run keeps.
pub fn written_choices_are_accepted()
    ensures accepted { WrittenAccepted }
    ensures runs { WrittenRuns }
    ensures keeps { WrittenKeeps }
{}
