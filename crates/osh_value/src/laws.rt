//! What ties values to their grammar.

ghost use Rattle.osh_value.specs.ValueGrammar.{OneIsSpelled};

/// Bytes spell at most one value of a form.
pub fn one_value_is_spelled()
    ensures { OneIsSpelled }
{}
