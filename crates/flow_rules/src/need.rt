use ds_schema::KeyList;
use flow_graph::Spot;

/// A part of what an operator or a route needs of a link. Columns are those of the link.
#[derive(Debug, Drop)]
pub enum Need {
    NotEntire,
    Placed(KeyList),
    /// Placed, or agreeing in columns among the keys.
    Colocated(KeyList),
    /// The place of input 0.
    SamePlace(Spot),
    Agree(KeyList),
    Sorted(KeyList),
    /// Sorted so before the route merges.
    MergeSort(KeyList),
    /// What a lookup needs of its reference.
    Reference(KeyList),
}
