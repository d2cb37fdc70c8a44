//! What the operators of a flow are, by what was found of their names: those by keys, of one input
//! and of several, and funnels.
#![tactic(auto)]
