//! Typed expressions, and their copies.

ghost use Rattle.std.specs.Prelude.{◌≡◌, ◌≤◌, IfOk};
ghost use Rattle.ds_expr.specs.Typed.{IsTyped};

use crate::node::{Applied, Node, Typing};
use ds_schema::Schema;
use ds_value::NoMemory;
use expr_table::{Arg, Shape};
use sqlite_items::{Boxed, Items};
use std::alloc::Global;
use std::marker::Model;

/// An expression over a schema, each of whose nodes has its one row, column or literal.
#[derive(Debug, Drop)]
pub struct Typed {
    schema: Schema,
    node: Node,
    typing: Typing,
}

impl Model for Typed {
    ghost use Rattle.std.specs.Coded.{codes};
    ghost use Rattle.ds_expr.specs.contracts.node.Node as tree;
    ghost use Rattle.ds_expr.specs.Typed.{IsTyped, TypedTree};

    ghost Value = { TypedTree };

    ghost coded = { Prim.hlevel (codes, tree.the_row.coded) };

    ghost view = { λ t. record { fields = t.schema; node = t.node; typing = t.typing } };

    ghost invariant = { λ t. IsTyped t.schema t.node t.typing };
}

impl Typed {
    pub(crate) fn new(schema: Schema, node: Node, typing: Typing) -> Typed
        requires { IsTyped schema node typing }
        ensures { result ≡ record { fields = schema; node = node; typing = typing } }
    {
        Typed {
            schema,
            node,
            typing,
        }
    }

    pub fn schema(&self) -> &Schema
        ensures { result.now ≡ self.now.fields }
    {
        &self.schema
    }

    pub fn node(&self) -> &Node
        ensures node { result.now ≡ self.now.node }
        ensures typed { IsTyped self.now.fields self.now.node self.now.typing }
    {
        &self.node
    }
}

/// An equal argument.
pub fn copied_arg(arg: &Arg) -> Result<Arg, NoMemory>
    ensures { IfOk result (λ copy. copy ≡ arg.now) }
{
    match arg {
        Arg::Null => Ok(Arg::Null),
        Arg::Num(n) => Ok(Arg::Num(*n)),
        Arg::Text(text) => Ok(Arg::Text(text.copied()?)),
        Arg::Date(day) => Ok(Arg::Date(*day)),
        Arg::Truth(truth) => Ok(Arg::Truth(*truth)),
    }
}

fn copied_use(alloc: Global, used: &Applied) -> Result<Applied, NoMemory>
    ensures { IfOk result (λ copy. copy ≡ used.now) }
{
    Ok(Applied {
        name: used.name,
        row: used.row,
        scales: Items::from_slice(alloc, used.scales.as_slice())?,
    })
}

#[cycle(copying)]
fn copied(alloc: Global, node: &Node) -> Result<Node, NoMemory>
    ensures { IfOk result (λ copy. copy ≡ node.now) }
{
    match node {
        Node::Literal(arg, scale) => Ok(Node::Literal(copied_arg(arg)?, *scale)),
        Node::Column(col) => Ok(Node::Column(*col)),
        Node::Call(used, args) => {
            let used = copied_use(alloc, used)?;
            let args = copied_all(alloc, args.as_slice())?;
            Ok(Node::Call(used, args))
        }
        Node::Chain(first, links) => {
            let first = copied(alloc, first.get())?;
            let links = copied_links(alloc, links.as_slice())?;
            Ok(Node::Chain(Boxed::new(alloc, first)?, links))
        }
    }
}

#[cycle(copying)]
fn copied_all(alloc: Global, nodes: &[Node]) -> Result<Items<Node>, NoMemory>
    ensures { IfOk result (λ copies. copies ≡ nodes.now) }
{
    let mut copies = Items::new(alloc);
    for node in nodes {
        copies.push(copied(alloc, node)?)?;
    }
    Ok(copies)
}

#[cycle(copying)]
fn copied_links(
    alloc: Global,
    links: &[(Applied, Node)],
) -> Result<Items<(Applied, Node)>, NoMemory>
    ensures { IfOk result (λ copies. copies ≡ links.now) }
{
    let mut copies = Items::new(alloc);
    for (used, right) in links {
        let used = copied_use(alloc, used)?;
        let right = copied(alloc, right)?;
        copies.push((used, right))?;
    }
    Ok(copies)
}

/// An equal expression.
pub fn copy_typed(alloc: Global, typed: &Typed) -> Result<Typed, NoMemory>
    ensures { IfOk result (λ copy. copy ≡ typed.now) }
{
    Ok(Typed {
        schema: typed.schema.copied()?,
        node: copied(alloc, &typed.node)?,
        typing: typed.typing,
    })
}

/// The shape and the scale of the result.
pub fn shape_of(typed: &Typed) -> (Shape, u8)
    ensures value { result ≡ (typed.now.typing.shape, typed.now.typing.scale) }
    ensures zero { (result.0 ≡ Shape.Num → ⊥) → result.1 ≡ 0 }
    ensures small { result.1 ≤ 38 }
{
    // That a column's scale is small is known of the schema's fields.
    let _fields = typed.schema.as_slice();
    (typed.typing.shape, typed.typing.scale)
}
