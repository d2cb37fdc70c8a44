//! Laws on the first fault of a text that is no schema: its place and its cause.
#![tactic(auto)]

ghost use Rattle.schema_faults.specs.FaultLaws.{FaultIsAnswered, FaultyIsNone, OneFirstFault, RefusedAtFirst};

/// What is answered for a text that is no schema is its first fault, with its place and its cause.
pub fn first_fault_is_answered()
    ensures first { RefusedAtFirst }
    ensures answered { FaultIsAnswered }
{}

/// A text has one first fault at most, and where it has one it spells no schema.
pub fn one_first_fault()
    ensures none { FaultyIsNone }
    ensures one { OneFirstFault }
{}
