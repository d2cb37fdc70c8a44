//! A flow that can be spelled is read back from its printed text, and each flow that is read can
//! be spelled: each function does nothing, and its contract is the law.
#![tactic(auto)]

mod worked;

ghost use Rattle.osh_back.specs.BackLaws.{PrintedReadsBack, ReadCanBeSpelled};

pub use worked::printed_texts;

/// The printed text of a flow that can be spelled is read as the flow.
pub fn printed_reads_back()
    ensures { PrintedReadsBack }
{}

/// Each flow that is read of a text can be spelled.
pub fn read_can_be_spelled()
    ensures { ReadCanBeSpelled }
{}
