//! What the stream of this crate gives of whole lists.
ghost use Rattle.op_lookup.specs.Laws.{LookupsFind, LookupsFindInOneWay, OwnValuesStay};

/// What lookup gives of two lists is what it means, on each output and of faults. A main row
/// stands as it is in front of what is found.
pub fn lookups_find()
    ensures each { LookupsFind }
    ensures one_width { LookupsFindInOneWay }
    ensures own { OwnValuesStay }
{}
