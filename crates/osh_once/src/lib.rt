//! What holds of all that a call may come to. Each function's contract is its law, and calling it
//! does nothing.
#![tactic(auto)]

ghost use Rattle.osh_ends.specs.Ends.{OneStatus};

/// All that a call comes to has one status.
pub fn one_status()
    ensures { OneStatus }
{}
