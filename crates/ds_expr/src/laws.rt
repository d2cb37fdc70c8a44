//! A law over the definitions: the function does nothing, and its contract is the law.

ghost use Rattle.ds_expr.specs.Literals.{DatesAreSpelled};

/// A text in `date("..")` stands for a day exactly where it spells the day as a value of a date.
pub fn dates_are_spelled()
    ensures { DatesAreSpelled }
{}
