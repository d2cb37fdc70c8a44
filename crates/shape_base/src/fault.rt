/// What is wrong with the shape of a flow, in the order in which causes at one place count.
#[derive(Clone, Copy, Debug, PartialEq, Eq)]
pub enum ShapeWhy {
    /// A wrong number of inputs or outputs.
    Ports,
    Cycle,
    /// A method that can't stand on a link into this operator.
    Method,
    /// A column that isn't there.
    Field,
    /// A column of a wrong kind.
    Kind,
    /// An expression that has no type, or a wrong one.
    Expression,
    /// Schemas that differ, or fixed widths that aren't one for each column.
    Schemas,
    /// Two columns of one name in an output.
    Double,
    /// An output without columns, with too many, or with rows that may be too long.
    Wide,
    /// A written name that clashes with another name of the flow.
    Files,
}
