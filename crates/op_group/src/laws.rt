//! What the streams of this crate give of whole lists.
ghost use Rattle.op_group.specs.Laws.{SortedGroups, OrderedGroups, HashedGroups};

/// What a group of sorted rows gives is its rule run by run, and on rows in the order of its
/// keys what it means.
pub fn sorted_groups()
    ensures runs { SortedGroups }
    ensures ordered { OrderedGroups }
{}

/// What the stream of a hashed group gives is what it means.
pub fn hashed_groups()
    ensures { HashedGroups }
{}
