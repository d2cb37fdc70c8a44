ghost use Rattle.streams.specs.Core.{NeverStuck, EachFalls, Ends, RankFalls};
ghost use Rattle.streams.specs.Batches.{BatchNeverStuck, BatchEachFalls, BatchFinishedIsLegal};
ghost use Rattle.streams.specs.Chains.{ChainsFit};
ghost use Rattle.streams.specs.Laws.{CollectorsFit, Decided, JoinGives, OperatorsGive};
ghost use Rattle.streams.specs.Lifted.{LiftedFits};
ghost use Rattle.streams.specs.Arrivals.{SharedArrives};
ghost use Rattle.streams.specs.Wiring.{WiredIsPlan};
ghost use Rattle.streams.specs.Plans.{FinishedIsLegal, RunIsLegal, LooseIsRun};

/// In every state that events lead to and that isn't finished some event is enabled.
pub fn never_stuck<T>()
    ensures { NeverStuck T }
{}

/// The lists of a finished state are a legal execution.
pub fn finished_is_legal<T, F>()
    ensures { FinishedIsLegal T F }
{}

/// Every enabled event lowers the measure, which as a number in a base falls too.
pub fn each_falls<T>()
    ensures list { EachFalls T }
    ensures number { RankFalls }
{}

/// A driver that chooses an enabled event as long as there is one comes to a finished state.
pub fn drivers_end<T>()
    ensures { Ends T }
{}

/// The same of the core with batches and waiting items.
pub fn batches_keep<T, F>()
    ensures stuck { BatchNeverStuck T }
    ensures legal { BatchFinishedIsLegal T F }
    ensures falls { BatchEachFalls T }
{}

/// Operators in turn are an operator, and give what each gives.
pub fn chains_fit<T, F>()
    ensures { ChainsFit T F }
{}

/// The lists of a run that is over are a legal execution, whatever ran it.
pub fn run_is_legal<T, F>()
    ensures { RunIsLegal T F }
{}

/// The net of an acyclic plan whose links fit is one.
pub fn wired_is_plan<T, F>()
    ensures { WiredIsPlan T F }
{}

/// What the collectors are, and give.
pub fn collectors_fit<T, F>()
    ensures fit { CollectorsFit T F }
    ensures decided { Decided T F }
{}

/// What players know by themselves, and what was taken of each lane, make such a run.
pub fn loose_is_run<T, F>()
    ensures { LooseIsRun T F }
{}

/// What a join gives is one function of its whole lists.
pub fn join_gives<T, F>()
    ensures { JoinGives T F }
{}

/// On a link whose lanes share queues, a legal execution gives each partition an interleaving of its lanes.
pub fn shared_arrives<T, F>()
    ensures { SharedArrives T F }
{}

/// What operators with one port, and lookup, give is a function of their whole lists.
pub fn operators_give<T, F>()
    ensures { OperatorsGive T F }
{}

/// An operator over one kind of items is one over items of several kinds.
pub fn lifted_fits<T, U, F>()
    ensures { LiftedFits T U F }
{}
