use ds_expr::Typed;
use ds_place::Place;
use ds_schema::{KeyList, Schema};
use ds_value::{Copied, Items, Name, NoMemory};

/// What the shape of a flow says of an operator: a key list for each input, where it has a key;
/// the columns of the sets of a transform, the kept columns of a modify, the columns of a
/// group's results without its counts, or the value columns of a changecapture; and its
/// expressions over the columns of its input, in the written order.
#[derive(Debug, Drop)]
pub struct OpParts {
    pub keys: Items<KeyList>,
    pub cols: Items<u32>,
    pub exprs: Items<Typed>,
}

/// What is known of a stored data set: its place, where its rows lie at one, and its partitions.
#[derive(Debug, Drop)]
pub struct Stored {
    pub name: Name,
    pub schema: Schema,
    pub place: Option<Place>,
    pub partitions: u32,
}

impl Copied for Stored {
    fn copied(&self) -> Result<Stored, NoMemory> {
        Ok(Stored {
            name: self.name.copied()?,
            schema: self.schema.copied()?,
            place: Copied::copied(&self.place)?,
            partitions: self.partitions,
        })
    }
}
