use crate::OpKind;
use ds_value::{Copied, Items, Name, NoMemory};

/// How an operator runs: on one partition, on one per node, or on those of a stored data set.
#[derive(Clone, Copy, Debug, PartialEq, Eq)]
pub enum Mark {
    Seq,
    Par,
    Stored,
}

#[derive(Debug, Drop)]
pub struct OpSpec {
    pub kind: OpKind,
    pub mark: Mark,
}

impl Copied for OpSpec {
    fn copied(&self) -> Result<OpSpec, NoMemory> {
        Ok(OpSpec {
            kind: self.kind.copied()?,
            mark: self.mark,
        })
    }
}

/// How a link's rows go to the partitions of its consumer, or are collected from those of its
/// producer.
#[derive(Debug, Drop)]
pub enum Method {
    Auto,
    Same,
    RoundRobin,
    Entire,
    Hash(Items<Name>),
    Modulus(Name),
    Any,
    Ordered,
    Merge(Items<(Name, bool)>),
}

impl Copied for Method {
    fn copied(&self) -> Result<Method, NoMemory> {
        match self {
            Method::Auto => Ok(Method::Auto),
            Method::Same => Ok(Method::Same),
            Method::RoundRobin => Ok(Method::RoundRobin),
            Method::Entire => Ok(Method::Entire),
            Method::Hash(names) => Ok(Method::Hash(names.copied()?)),
            Method::Modulus(name) => Ok(Method::Modulus(name.copied()?)),
            Method::Any => Ok(Method::Any),
            Method::Ordered => Ok(Method::Ordered),
            Method::Merge(keys) => Ok(Method::Merge(keys.copied()?)),
        }
    }
}

/// Whether the operators behind a link keep its partitions: they do, they don't, or as before it.
#[derive(Clone, Copy, Debug, PartialEq, Eq)]
pub enum Flag {
    Set,
    Clear,
    Prop,
}

/// A link from output `out` of operator `from` to input `port` of operator `to`, all counted
/// from 0.
#[derive(Debug, Drop)]
pub struct LinkSpec {
    pub from: u32,
    pub out: u32,
    pub to: u32,
    pub port: u32,
    pub method: Method,
    pub flag: Flag,
}

impl Copied for LinkSpec {
    fn copied(&self) -> Result<LinkSpec, NoMemory> {
        Ok(LinkSpec {
            from: self.from,
            out: self.out,
            to: self.to,
            port: self.port,
            method: self.method.copied()?,
            flag: self.flag,
        })
    }
}

/// Operators in the order of the text, and links by consumer, then by input port.
#[derive(Debug, Drop)]
pub struct Flow {
    pub nopart: bool,
    pub nosort: bool,
    pub ops: Items<OpSpec>,
    pub links: Items<LinkSpec>,
}

impl Copied for Flow {
    fn copied(&self) -> Result<Flow, NoMemory> {
        Ok(Flow {
            nopart: self.nopart,
            nosort: self.nosort,
            ops: self.ops.copied()?,
            links: self.links.copied()?,
        })
    }
}
