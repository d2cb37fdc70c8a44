use crate::ColSet;
use ds_place::Place;
use ds_schema::KeyList;
use ds_value::{Copied, NoMemory};

/// Where the rows of a link lie.
#[derive(Debug, Drop)]
pub enum Spot {
    /// In one partition.
    Solo,
    Placed(Place),
    /// In every partition.
    Entire,
    None,
}

impl Copied for Spot {
    fn copied(&self) -> Result<Spot, NoMemory> {
        match self {
            Spot::Solo => Ok(Spot::Solo),
            Spot::Placed(place) => Ok(Spot::Placed(place.copied()?)),
            Spot::Entire => Ok(Spot::Entire),
            Spot::None => Ok(Spot::None),
        }
    }
}

/// What is known of a link: the columns on which its partitions agree with the whole list,
/// where its rows lie, and how each partition is sorted.
#[derive(Debug, Drop)]
pub struct State {
    pub agree: Option<ColSet>,
    pub place: Spot,
    pub sort: KeyList,
}

impl Copied for State {
    fn copied(&self) -> Result<State, NoMemory> {
        Ok(State {
            agree: Copied::copied(&self.agree)?,
            place: self.place.copied()?,
            sort: self.sort.copied()?,
        })
    }
}
