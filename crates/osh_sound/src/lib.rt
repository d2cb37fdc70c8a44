//! What ties reading flows to the grammar, and to what is asked before a flow is shaped: each
//! function does nothing, and its contract is the law.
#![tactic(auto)]

mod worked;

ghost use Rattle.osh_sound.specs.GrammarLaws.{OneIsSpelled, ReadIsSpelled, RefusedIsNone, SpelledIsRead};
ghost use Rattle.osh_sound.specs.ValueLaws.{ValuesReadBack};
ghost use Rattle.osh_sound.specs.OperatorLaws.{WrittenIsPrinted, WrittenSays};
ghost use Rattle.osh_sound.specs.OptionLaws.{OptionsArePrinted};
ghost use Rattle.osh_sound.specs.Sound.{ReadIsJoined, ReadKeepsForms, ReadKeepsMarks};

pub use worked::{joined_texts, refused_texts};

/// A text is read as a flow where it spells it, and only there.
pub fn flows_are_spelled()
    ensures read { ReadIsSpelled }
    ensures spelled { SpelledIsRead }
    ensures refused { RefusedIsNone }
    ensures one { OneIsSpelled }
{}

/// The flow that is read of a text can be shaped, its operators run as they can, and its files
/// have forms that records can have.
pub fn flows_can_be_shaped()
    ensures joined { ReadIsJoined }
    ensures marks { ReadKeepsMarks }
    ensures forms { ReadKeepsForms }
{}

/// The printed value of an option spells the value, and so is read as it.
pub fn values_read_back()
    ensures { ValuesReadBack }
{}

/// Options are printed as the tokens that spell them.
pub fn options_are_printed()
    ensures { OptionsArePrinted }
{}

/// The options that are printed of an operator say it.
pub fn operators_are_written()
    ensures says { WrittenSays }
    ensures printed { WrittenIsPrinted }
{}
