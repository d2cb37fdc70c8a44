//! The value of an expression in a row.

ghost use Rattle.std.specs.Prelude.{◌≡◌, ◌≢◌, [], ◌∷◌, ◌++◌, None, Ok, true, map, IfOk};
ghost use Rattle.std.specs.List.{AllByRecursion};
ghost use Rattle.ds_schema.specs.Schemas.{IsSchema, row_fits};
ghost use Rattle.ds_schema.specs.Rows.{at};
ghost use Rattle.expr_table.specs.Calls.{Answers, AreInRange, IsInRange};
ghost use Rattle.ds_expr.specs.Typed.{AreArgs, Fits, HasTyping, IsRow, JoinsFrom, link_typing};
ghost use Rattle.ds_expr.specs.Typing.{typing_in};
ghost use Rattle.ds_expr.specs.Values.{all_joined, applied, arg_of, branched, called, chosen, decides, is_if, joined, value_in, valued_link, values};

use crate::node::{Applied, Node};
use crate::typed::{Typed, copied_arg};
use ds_schema::{Field, Row};
use ds_value::{NoMemory, Value};
use expr_table::{Arg, EvalFault, FnName, apply};
use sqlite_items::Items;
use std::alloc::Global;

fn arg_of(value: &Value) -> Result<Arg, NoMemory>
    ensures { IfOk result (λ arg. arg ≡ arg_of value.now) }
{
    match value {
        Value::Null => Ok(Arg::Null),
        Value::Int(n) => Ok(Arg::Num(i128::from(*n))),
        Value::UInt(n) => Ok(Arg::Num(i128::from(*n))),
        Value::Dec(n) => Ok(Arg::Num(*n)),
        Value::Text(text) => Ok(Arg::Text(text.copied()?)),
        Value::Date(day) => Ok(Arg::Date(*day)),
    }
}

fn column(row: &Row, col: u32) -> Result<Arg, NoMemory>
    ensures { IfOk result (λ arg. arg ≡ arg_of (at row.now col)) }
{
    match row.as_slice().get(col as usize) {
        Some(value) => arg_of(value),
        None => Ok(Arg::Null),
    }
}

fn is_if(name: FnName) -> bool
    ensures { result ≡ is_if name }
{
    matches!(name, FnName::If)
}

fn decides(name: FnName, left: &Arg) -> bool
    ensures { result ≡ decides name left.now }
{
    match (name, left) {
        (FnName::And, Arg::Truth(false)) | (FnName::Or, Arg::Truth(true)) => true,
        _ => false,
    }
}

fn one_more(found: Items<Arg>, value: Arg) -> Result<Items<Arg>, EvalFault>
    ensures { Answers result (Ok (found ++ value ∷ [])) }
{
    let mut more = found;
    match more.push(value) {
        Ok(()) => Ok(more),
        Err(_) => Err(EvalFault::Memory),
    }
}

/// A row of the table, applied.
fn use_row(alloc: Global, used: &Applied, args: &[Arg]) -> Result<Arg, EvalFault>
    requires row { IsRow used.now }
    requires range { AreInRange args.now }
    ensures { Answers result (applied used.now args.now) }
{
    apply(alloc, used.row, used.scales.as_slice(), args)
}

#[cycle(evaluation)]
fn node(alloc: Global, fields: &[Field], tree: &Node, row: &Row) -> Result<Arg, EvalFault>
    requires typed { HasTyping fields.now tree.now }
    requires schema { IsSchema fields.now }
    requires row { row_fits fields.now row.now ≡ true }
    ensures { Answers result (value_in row.now tree.now) }
{
    match tree {
        Node::Literal(arg, _) => Ok(copied_arg(arg)?),
        Node::Column(col) => Ok(column(row, *col)?),
        Node::Call(used, args) => call(alloc, fields, used, args.as_slice(), row),
        Node::Chain(first, links) => {
            let left = node(alloc, fields, first.get(), row)?;
            join_all(alloc, fields, left, links.as_slice(), row)
        }
    }
}

#[cycle(evaluation)]
fn call(
    alloc: Global,
    fields: &[Field],
    used: &Applied,
    args: &[Node],
    row: &Row,
) -> Result<Arg, EvalFault>
    requires typed { AreArgs fields.now used.now args.now }
    requires schema { IsSchema fields.now }
    requires row { row_fits fields.now row.now ≡ true }
    ensures { Answers result (called used.now (map (value_in row.now) args.now)) }
{
    if is_if(used.name) {
        return choose(alloc, fields, used, args, row);
    }
    let values = all(alloc, fields, args, row)?;
    use_row(alloc, used, values.as_slice())
}

/// The arguments' values from left to right.
#[cycle(evaluation)]
fn all(alloc: Global, fields: &[Field], args: &[Node], row: &Row) -> Result<Items<Arg>, EvalFault>
    requires typed { AllByRecursion (HasTyping fields.now) args.now }
    requires schema { IsSchema fields.now }
    requires row { row_fits fields.now row.now ≡ true }
    ensures { Answers result (values [] (map (value_in row.now) args.now)) }
{
    let mut found = Items::new(alloc);
    for arg in args {
        let value = match node(alloc, fields, arg, row) {
            Ok(value) => value,
            Err(first) => return Err(first),
        };
        found = one_more(found, value)?;
    }
    Ok(found)
}

/// The branch that the first argument chooses.
#[cycle(evaluation)]
fn choose(
    alloc: Global,
    fields: &[Field],
    used: &Applied,
    args: &[Node],
    row: &Row,
) -> Result<Arg, EvalFault>
    requires typed { AllByRecursion (HasTyping fields.now) args.now }
    requires is_row { IsRow used.now }
    requires schema { IsSchema fields.now }
    requires row { row_fits fields.now row.now ≡ true }
    ensures { Answers result (chosen used.now (map (value_in row.now) args.now)) }
{
    match args {
        [test, first, second] => {
            match node(alloc, fields, test, row)? {
                Arg::Truth(true) => branch(alloc, fields, used, true, first, row),
                Arg::Truth(false) => branch(alloc, fields, used, false, second, row),
                _ => Err(EvalFault::NullUsed),
            }
        }
        _ => Err(EvalFault::NullUsed),
    }
}

/// The row of `if` with the branch that was chosen.
#[cycle(evaluation)]
fn branch(
    alloc: Global,
    fields: &[Field],
    used: &Applied,
    test: bool,
    chosen: &Node,
    row: &Row,
) -> Result<Arg, EvalFault>
    requires typed { HasTyping fields.now chosen.now }
    requires is_row { IsRow used.now }
    requires schema { IsSchema fields.now }
    requires row { row_fits fields.now row.now ≡ true }
    ensures { Answers result (branched used.now test (value_in row.now chosen.now)) }
{
    let value = node(alloc, fields, chosen, row)?;
    if test {
        use_row(alloc, used, &[Arg::Truth(true), value, Arg::Null])
    } else {
        use_row(alloc, used, &[Arg::Truth(false), Arg::Null, value])
    }
}

/// Operands joined from the left.
#[cycle(evaluation)]
fn join_all(
    alloc: Global,
    fields: &[Field],
    first: Arg,
    links: &[(Applied, Node)],
    row: &Row,
) -> Result<Arg, EvalFault>
    requires typed { JoinsFrom fields.now links.now first }
    requires schema { IsSchema fields.now }
    requires row { row_fits fields.now row.now ≡ true }
    ensures { Answers result (all_joined first (map (valued_link row.now) links.now)) }
{
    let mut left = first;
    for (used, right) in links {
        left = match join(alloc, fields, used, left, right, row) {
            Ok(value) => value,
            Err(fault) => return Err(fault),
        };
    }
    Ok(left)
}

/// A right side, where the left doesn't decide.
#[cycle(evaluation)]
fn join(
    alloc: Global,
    fields: &[Field],
    used: &Applied,
    left: Arg,
    right: &Node,
    row: &Row,
) -> Result<Arg, EvalFault>
    requires typed { HasTyping fields.now right.now }
    requires left { IsInRange left }
    requires is_row { IsRow used.now }
    requires schema { IsSchema fields.now }
    requires row { row_fits fields.now row.now ≡ true }
    ensures { Answers result (joined used.now left (value_in row.now right.now)) }
{
    if decides(used.name, &left) {
        return Ok(left);
    }
    let right = node(alloc, fields, right, row)?;
    use_row(alloc, used, &[left, right])
}

/// The value in a row that fits the schema, or the first fault from the left.
pub fn eval(alloc: Global, typed: &Typed, row: &Row) -> Result<Arg, EvalFault>
    requires { row_fits typed.now.fields row.now ≡ true }
    ensures answers { Answers result (value_in row.now typed.now.node) }
    ensures fits { IfOk result (λ value. Fits typed.now.typing value) }
{
    node(alloc, typed.schema().as_slice(), typed.node(), row)
}
