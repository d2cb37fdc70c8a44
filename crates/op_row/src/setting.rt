ghost use Rattle.std.specs.Prelude.{◌≡◌, ◌≤◌, All, IfOk, OnOk, length, map};
ghost use Rattle.op_base.specs.Columns.{all_columns};
ghost use Rattle.op_base.specs.RowOperators.{cell};
ghost use Rattle.expr_table.specs.Calls.{Answers};
ghost use Rattle.op_row.specs.Expressed.{AreSets, AreTargets, targets, width_after};
ghost use Rattle.op_row.specs.Judging.{set_value, set_values};
ghost use Rattle.op_row.specs.Setting.{put, MaySet};

use ds_expr::{EvalFault, Typed, assign, eval, shape_of};
use ds_schema::{Field, Row};
use ds_value::{Items, NoMemory, Value};
use std::alloc::Global;
use std::marker::Model;

/// A column that is set: its number, the field that it has then, and the expression.
#[derive(Debug, Drop)]
pub struct Set {
    pub col: u32,
    pub field: Field,
    pub expr: Typed,
}

/// Sets over one input, none of which sets a column that another sets.
#[derive(Debug, Drop)]
pub struct SetList {
    sets: Vec<Set>,
}

impl Model for SetList {
    ghost use Rattle.std.specs.Prelude.{List};
    ghost use Rattle.std.specs.Coded.{codes};
    ghost use Rattle.ds_expr.specs.contracts.node.Node as tree;
    ghost use Rattle.op_row.specs.declared.setting.Set.{Set as SetOf};
    ghost use Rattle.op_row.specs.Expressed.{AreSets};

    ghost Value = { List SetOf };

    ghost coded = { Prim.hlevel (codes, tree.the_row.coded) };

    ghost view = { λ s. s.sets.items };

    ghost invariant = { λ s. AreSets s.sets.items };
}

impl SetList {
    pub fn from_vec(sets: Vec<Set>) -> SetList
        requires { AreSets sets.items }
        ensures { result ≡ sets.items }
    {
        SetList { sets }
    }

    pub fn as_slice(&self) -> &[Set]
        ensures sets { result.now ≡ self.now }
        ensures sound { AreSets self.now }
    {
        self.sets.as_slice()
    }
}

#[tactic(auto, using(crate::proofs::Assigned::assignable))]
fn set_value(alloc: Global, set: &Set, row: &Row) -> Result<Value, EvalFault>
    requires { MaySet row.now set.now }
    ensures { Answers result (set_value row.now set.now) }
{
    let value = eval(alloc, &set.expr, row)?;
    let (_, scale) = shape_of(&set.expr);
    assign(value, &set.field, scale)
}

/// The values that are set in a row, in the order of the sets.
pub fn set_values(alloc: Global, sets: &[Set], row: &Row) -> Result<Items<Value>, EvalFault>
    requires { All (MaySet row.now) sets.now }
    ensures { Answers result (set_values row.now sets.now) }
{
    let mut values = Items::new(alloc);
    for set in sets {
        values.push(set_value(alloc, set, row)?)?;
    }
    Ok(values)
}

fn put(cells: &mut Vec<Value>, col: usize, value: Value) -> Result<(), NoMemory>
    ensures { OnOk result (cells.new.items ≡ put col value cells.old.items) }
{
    if col < cells.len() {
        cells[col] = value;
    } else {
        cells.push(value)?;
    }
    Ok(())
}

/// The row with the values that are set.
pub fn set_row(sets: &[Set], values: Items<Value>, row: Row) -> Result<Row, NoMemory>
    requires columns { AreTargets (length row) (targets sets.now) }
    requires same { length values ≡ length sets.now }
    ensures { IfOk result (λ made. made ≡ map (cell (targets sets.now) values row) (all_columns (width_after (length row) (targets sets.now)))) }
{
    let mut cells = row.into_vec();
    for (set, value) in sets.iter().zip(values.into_vec()) {
        put(&mut cells, set.col as usize, value)?;
    }
    Ok(Row::from_vec(cells))
}
