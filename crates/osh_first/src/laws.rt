//! The laws of the place at which a text is refused.

ghost use Rattle.osh_first.specs.FirstLaws.{RefusedStops, StoppedIsNone};

/// A text that is refused stops being a flow where the fault says, and one that stops so spells
/// none.
pub fn refused_texts_stop()
    ensures stops { RefusedStops }
    ensures none { StoppedIsNone }
{}
