use ds_value::{Bytes, Items};
use flow_graph::{Flag, Mark, Method, OpKind};

/// A virtual data set that a stage reads or writes, with the place of its sign.
#[derive(Debug, Drop)]
pub enum Redirect {
    In {
        at: usize,
        name: Bytes,
        method: Method,
        flag: Flag,
    },
    Out {
        at: usize,
        name: Bytes,
    },
}

/// What stands between a stage and the one before it.
#[derive(Debug, Drop)]
pub enum Joint {
    Apart,
    Piped(Method, Flag),
}

/// An operator as it is written.
#[derive(Debug, Drop)]
pub struct Stage {
    pub kind: OpKind,
    pub mark: Mark,
    pub joined: Joint,
    pub redirects: Items<Redirect>,
}

/// A word before the first statement.
#[derive(Clone, Copy, Debug, PartialEq, Eq)]
pub enum Directive {
    NoPart,
    NoSort,
}

#[derive(Clone, Copy, Debug, PartialEq, Eq)]
pub struct Directives {
    pub nopart: bool,
    pub nosort: bool,
}
