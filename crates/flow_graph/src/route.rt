use ds_schema::KeyList;
use ds_value::{Copied, Items, NoMemory};

/// How rows go from a producer's partitions to a consumer's.
#[derive(Debug, Drop)]
pub enum Route {
    Same,
    RoundRobin,
    Entire,
    Hash(Items<u32>),
    Modulus(u32),
    Any,
    Ordered,
    Merge(KeyList),
}

impl Copied for Route {
    fn copied(&self) -> Result<Route, NoMemory> {
        match self {
            Route::Same => Ok(Route::Same),
            Route::RoundRobin => Ok(Route::RoundRobin),
            Route::Entire => Ok(Route::Entire),
            Route::Hash(columns) => Ok(Route::Hash(columns.copied()?)),
            Route::Modulus(column) => Ok(Route::Modulus(*column)),
            Route::Any => Ok(Route::Any),
            Route::Ordered => Ok(Route::Ordered),
            Route::Merge(keys) => Ok(Route::Merge(keys.copied()?)),
        }
    }
}

/// What is chosen for a link: its route, and the sort that is inserted before its consumer.
#[derive(Debug, Drop)]
pub struct Choice {
    pub method: Route,
    pub sort: Option<KeyList>,
}

impl Copied for Choice {
    fn copied(&self) -> Result<Choice, NoMemory> {
        Ok(Choice {
            method: self.method.copied()?,
            sort: Copied::copied(&self.sort)?,
        })
    }
}
