//! Laws that make the answer of reading a configuration the only one.

ghost use Rattle.config_read.specs.ConfigLaws.{FaultyIsNone, OneConfiguration, OneFirstFault};

/// Bytes spell at most one configuration; bytes with a first fault spell none, and have no other.
pub fn one_answer()
    ensures configuration { OneConfiguration }
    ensures none { FaultyIsNone }
    ensures fault { OneFirstFault }
{}
