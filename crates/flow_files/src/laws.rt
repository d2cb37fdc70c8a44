//! What holds of files. Each function's contract is its law, and calling it does nothing.
ghost use Rattle.flow_files.specs.Laws.{OneList};

/// The lines of a file are one list at most.
#[tactic(auto, using(crate::proofs::OneList::one_list))]
pub fn one_list()
    ensures { OneList }
{}
