//! The streams of a flow's operators between imports and exports, by their kinds, and those of
//! its collectors, by their routes.
#![tactic(auto)]
