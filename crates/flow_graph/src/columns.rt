ghost use Rattle.std.specs.Prelude.{◌≡◌, [], ◌∷◌, ◌++◌, IfOk, OnOk, OnErr};
ghost use Rattle.std.specs.Ordering.{nat_cmp};
ghost use Rattle.ds_schema.specs.Rows.{cols};
ghost use Rattle.flow_graph.specs.Columns.{set_of};
ghost use Rattle.op_base.specs.Columns.{is_in, lies};
ghost use Rattle.op_base.specs.Lists.{with_rank};

use ds_schema::KeyList;
use ds_value::{Copied, NoMemory};
use std::alloc::Global;
use std::cmp::Ordering;
use std::marker::Model;

/// A set of columns by their numbers, which ascend.
#[derive(Debug, Drop)]
pub struct ColSet {
    columns: Vec<u32>,
}

impl Model for ColSet {
    ghost use Rattle.std.specs.Prelude.{◌≡◌, List, ℕ};
    ghost use Rattle.flow_graph.specs.Columns.{set_of};

    ghost Value = { List ℕ };

    ghost view = { λ s. s.columns.items };

    ghost invariant = { λ s. set_of s.columns.items ≡ s.columns.items };
}

impl ColSet {
    pub fn new(alloc: Global) -> ColSet
        ensures { result ≡ [] }
    {
        ColSet {
            columns: Vec::new(alloc),
        }
    }

    /// The set of some columns.
    pub fn of(alloc: Global, columns: &[u32]) -> Result<ColSet, NoMemory>
        ensures { IfOk result (λ set. set ≡ set_of columns.now) }
    {
        let mut found = Vec::new(alloc);
        insert_all(&mut found, columns)?;
        Ok(ColSet { columns: found })
    }

    /// The set of the columns of keys.
    pub fn of_keys(alloc: Global, keys: &KeyList) -> Result<ColSet, NoMemory>
        ensures { IfOk result (λ set. set ≡ set_of (cols keys.now)) }
    {
        let columns = columns_of(alloc, keys)?;
        ColSet::of(alloc, columns.as_slice())
    }

    pub fn as_slice(&self) -> &[u32]
        ensures columns { result.now ≡ self.now }
        ensures ascend { set_of self.now ≡ self.now }
    {
        self.columns.as_slice()
    }

    /// Where the set keeps its columns.
    pub fn allocator(&self) -> Global {
        *self.columns.allocator()
    }

    pub fn contains(&self, column: u32) -> bool
        ensures { result ≡ is_in column self.now }
    {
        is_in(column, self.columns.as_slice())
    }

    /// Whether each of its columns is among these.
    pub fn lies_in(&self, columns: &[u32]) -> bool
        ensures { result ≡ lies self.now columns.now }
    {
        lies(self.columns.as_slice(), columns)
    }

    /// These columns and some more.
    pub fn with(&self, columns: &[u32]) -> Result<ColSet, NoMemory>
        ensures { IfOk result (λ set. set ≡ set_of (self.now ++ columns.now)) }
    {
        let mut found = Vec::new(self.allocator());
        insert_all(&mut found, columns)?;
        insert_all(&mut found, self.columns.as_slice())?;
        Ok(ColSet { columns: found })
    }
}

impl Copied for ColSet {
    fn copied(&self) -> Result<ColSet, NoMemory> {
        Ok(ColSet {
            columns: self.columns.clone()?,
        })
    }
}

/// The columns of keys, in their order.
#[tactic(auto, using(crate::proofs::ColumnSets::cols_more))]
pub fn columns_of(alloc: Global, keys: &KeyList) -> Result<Vec<u32>, NoMemory>
    ensures { IfOk result (λ columns. columns.items ≡ cols keys.now) }
{
    let mut columns = Vec::new(alloc);
    for key in keys.as_slice() {
        columns.push(key.col)?;
    }
    Ok(columns)
}

/// Whether a column is one of these.
#[tactic(auto, using(crate::proofs::ColumnSets::in_step))]
pub fn is_in(column: u32, columns: &[u32]) -> bool
    ensures { result ≡ is_in column columns.now }
{
    for other in columns {
        if column == *other {
            return true;
        }
    }
    false
}

/// Whether each column of the first list is in the second.
#[tactic(auto, using(crate::proofs::ColumnSets::lies_step))]
pub fn lies(columns: &[u32], others: &[u32]) -> bool
    ensures { result ≡ lies columns.now others.now }
{
    for column in columns {
        if !is_in(*column, others) {
            return false;
        }
    }
    true
}

fn insert(columns: &mut Vec<u32>, column: u32) -> Result<(), NoMemory>
    ensures { OnOk result (columns.new.items ≡ with_rank nat_cmp column columns.old.items) }
{
    for i in 0..columns.len() {
        match column.cmp(&columns[i]) {
            Ordering::Less => {
                columns.insert(i, column)?;
                return Ok(());
            }
            Ordering::Equal => return Ok(()),
            Ordering::Greater => {}
        }
    }
    columns.push(column)?;
    Ok(())
}

fn insert_all(found: &mut Vec<u32>, columns: &[u32]) -> Result<(), NoMemory>
    requires { set_of found.old.items ≡ found.old.items }
    ensures { OnOk result (found.new.items ≡ set_of (columns.now ++ found.old.items)) }
{
    for i in (0..columns.len()).rev() {
        insert(found, columns[i])?;
    }
    Ok(())
}
