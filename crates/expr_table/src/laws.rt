//! Laws over the definitions: each function does nothing, and its contract is the law.

ghost use Rattle.expr_table.specs.Calls.{ResultsFit, NullsAreExact};

pub fn results_fit()
    ensures { ResultsFit }
{}

pub fn nulls_are_exact()
    ensures { NullsAreExact }
{}
