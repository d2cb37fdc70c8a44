ghost use Rattle.plan_chains.specs.Chains.{ChainedIsLegal, ChainedIsWired};
ghost use Rattle.plan_chains.specs.Combined.{CombinedIsLegal, CombinedIsWired};
ghost use Rattle.plan_chains.specs.Finished.{FinishedIsUnchained, RunIsUnchained};

/// A wired plan in which a link is combined is wired.
pub fn combined_links_are_wired<T, F>()
    ensures { CombinedIsWired T F }
{}

/// What such a plan does is a legal execution of the plan itself.
pub fn combined_runs_are_legal<T, F>()
    ensures { CombinedIsLegal T F }
{}

/// The same with several combined links, whatever their order.
pub fn chains_keep<T, F>()
    ensures wired { ChainedIsWired T F }
    ensures legal { ChainedIsLegal T F }
{}

/// Whatever ran a plan with chains to its end, the step core with batches or players that know only
/// their own part, did what the plan may do.
pub fn chains_finish<T, F>()
    ensures finished { FinishedIsUnchained T F }
    ensures run { RunIsUnchained T F }
{}
