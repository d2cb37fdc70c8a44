ghost use Rattle.core_laws.specs.Untold.{UntoldNeverStuck, ReadingKeeps, UntoldStepKeeps, UntoldFinishedIsLegal, UntoldBegins};
ghost use Rattle.core_laws.specs.Files.{PlanFilesAre};
ghost use Rattle.core_laws.specs.Driven.{PlanNeverStuck, PlanEachFalls, PlanFallsBy, PlanDriversEnd, PlanFinishedIsLegal, PlanBatchNeverStuck, PlanBatchEachFalls, PlanBatchFinishedIsLegal};

/// The step core of a wired plan is never stuck, each event lowers its measure, a driver comes to
/// an end, and what is finished is a legal execution.
pub fn plans_end<T, F>()
    ensures stuck { PlanNeverStuck T F }
    ensures falls { PlanEachFalls T F }
    ensures falls_by { PlanFallsBy T F }
    ensures drivers { PlanDriversEnd T F }
    ensures legal { PlanFinishedIsLegal T F }
{}

/// The same with batches, whatever their sizes.
pub fn batched_plans_end<T, F>()
    ensures stuck { PlanBatchNeverStuck T F }
    ensures falls { PlanBatchEachFalls T F }
    ensures legal { PlanBatchFinishedIsLegal T F }
{}

/// The lists of files, with their ends, are such as the step core of a wired plan asks.
pub fn files_fit<T, F>()
    ensures { PlanFilesAre T F }
{}

/// Where files tell nothing of what they still have: a state that stands isn't stuck until it is
/// finished, what is read of a file and each event keep it standing, and once it is finished its
/// lists are a legal execution.
pub fn untold_files_serve<T, F>()
    ensures begins { UntoldBegins T F }
    ensures stuck { UntoldNeverStuck T F }
    ensures reading { ReadingKeeps T F }
    ensures steps { UntoldStepKeeps T F }
    ensures legal { UntoldFinishedIsLegal T F }
{}
