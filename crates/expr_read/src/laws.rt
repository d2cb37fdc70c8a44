//! Laws that tie the reading of expressions to their grammar, and make its answer the only one.

ghost use Rattle.expr_read.specs.FirstLaws.{FaultyIsNone, OneFirstFault};
ghost use Rattle.expr_read.specs.GrammarLaws.{OneIsSpelled, ReadIsSpelled, RefusedIsNone, SpelledIsRead};

/// What is read is what the grammar spells.
pub fn expressions_are_spelled()
    ensures read { ReadIsSpelled }
    ensures spelled { SpelledIsRead }
    ensures refused { RefusedIsNone }
{}

/// A text spells at most one expression; one with a first place from which no expression goes on
/// spells none, and has no other.
pub fn one_answer()
    ensures expression { OneIsSpelled }
    ensures none { FaultyIsNone }
    ensures fault { OneFirstFault }
{}
