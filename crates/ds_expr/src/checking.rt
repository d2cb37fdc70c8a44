//! Typing an expression over a schema.

ghost use Rattle.std.specs.Prelude.{◌≡◌, [], ◌∷◌, map, IfOk};
ghost use Rattle.std.specs.Option.{option_map};
ghost use Rattle.ds_expr.specs.Literals.{number_literal};
ghost use Rattle.ds_expr.specs.Names.{fn_named, prefix_name};
ghost use Rattle.ds_expr.specs.Typed.{root};
ghost use Rattle.ds_expr.specs.Typing.{Answers, AreSound, IsSound, begin, chain_of, date_in, join, date_node, no_nodes, number_node, one_more, text_literal, typed_args, typed_call, typed_chain, typed_column, typed_date, typed_link, typed_links, typed_number, typed_of, typed_text, typed_use, use_of, whole};

use crate::fault::TypeFault;
use crate::literal::{Number, date_literal, number_literal};
use crate::names::{fn_named, infix_name, is, prefix_name};
use crate::node::{Joined, Node, Nodes, TypedNode, Typing};
use crate::typed::Typed;
use crate::typing::{plain, typing_of_kind, use_of};
use ds_schema::Schema;
use ds_value::{Bytes, NoMemory};
use expr_read::{Expr, Link, Prefix};
use expr_table::{Arg, FnName, Shape};
use sqlite_items::{Boxed, Items};
use std::alloc::Global;

/// The number that a literal without a point is.
fn whole(scale: u8, units: i128) -> Option<u128>
    ensures { result ≡ whole scale units }
{
    if scale == 0 && units >= 0 {
        Some(units.unsigned_abs())
    } else {
        None
    }
}

fn number_node(number: Number) -> TypedNode
    ensures { result ≡ number_node number }
{
    let Number { units, scale } = number;
    TypedNode {
        node: Node::Literal(Arg::Num(units), scale),
        typing: Typing {
            shape: Shape::Num,
            scale,
            literal: whole(scale, units),
        },
    }
}

fn date_node(day: i32) -> TypedNode
    ensures { result ≡ date_node day }
{
    TypedNode {
        node: Node::Literal(Arg::Date(day), 0),
        typing: plain(Shape::Date),
    }
}

fn number(schema: &Schema, at: usize, digits: &[u8]) -> Result<TypedNode, TypeFault>
    ensures answers { Answers (λ x. x) result (typed_number at (number_literal digits.now)) }
    ensures sound { IfOk result (IsSound schema.now) }
{
    match number_literal(digits) {
        None => Err(TypeFault::Wrong { at }),
        Some(number) => Ok(number_node(number)),
    }
}

fn text(schema: &Schema, bytes: &Bytes) -> Result<TypedNode, NoMemory>
    ensures answers { IfOk result (λ x. x ≡ typed_text bytes.now) }
    ensures sound { IfOk result (IsSound schema.now) }
{
    Ok(TypedNode {
        node: Node::Literal(Arg::Text(bytes.copied()?), 0),
        typing: plain(Shape::Text),
    })
}

fn column(schema: &Schema, at: usize, name: &[u8]) -> Result<TypedNode, TypeFault>
    ensures answers { Answers (λ x. x) result (typed_column at 0 name.now schema.now) }
    ensures sound { IfOk result (IsSound schema.now) }
{
    let fields = schema.as_slice();
    for (i, field) in fields.iter().enumerate() {
        if field.name.as_slice() == name {
            return Ok(TypedNode {
                node: Node::Column(i as u32),
                typing: typing_of_kind(&field.kind),
            });
        }
    }
    Err(TypeFault::Wrong { at })
}

/// A row that is applied to nodes.
fn applied(
    alloc: Global,
    schema: &Schema,
    at: usize,
    name: FnName,
    args: Nodes,
) -> Result<TypedNode, TypeFault>
    requires { AreSound schema.now args }
    ensures answers { Answers (λ x. x) result (typed_use at args.nodes (use_of name args.typings)) }
    ensures sound { IfOk result (IsSound schema.now) }
{
    let Nodes { nodes, typings } = args;
    match use_of(alloc, name, typings.as_slice())? {
        None => Err(TypeFault::Wrong { at }),
        Some(found) => Ok(TypedNode {
            node: Node::Call(found.applied, nodes),
            typing: found.typing,
        }),
    }
}

/// The text that a single node is, where it is a literal.
fn text_literal(nodes: &[Node]) -> Option<&[u8]>
    ensures { option_map (λ bytes. bytes.now) result ≡ text_literal nodes.now }
{
    match nodes {
        [Node::Literal(Arg::Text(bytes), _)] => Some(bytes.as_slice()),
        _ => None,
    }
}

fn date(alloc: Global, schema: &Schema, at: usize, nodes: &[Node]) -> Result<TypedNode, TypeFault>
    ensures answers { Answers (λ x. x) result (typed_date at (date_in (text_literal nodes.now))) }
    ensures sound { IfOk result (IsSound schema.now) }
{
    let Some(bytes) = text_literal(nodes) else {
        return Err(TypeFault::Wrong { at });
    };
    match date_literal(alloc, bytes)? {
        None => Err(TypeFault::Wrong { at }),
        Some(day) => Ok(date_node(day)),
    }
}

#[tactic(auto, unfolding(crate::specs::Typing::typed_call))]
fn call(
    alloc: Global,
    schema: &Schema,
    at: usize,
    name: &[u8],
    args: Nodes,
) -> Result<TypedNode, TypeFault>
    requires { AreSound schema.now args }
    ensures answers { Answers (λ x. x) result (typed_call at name.now args) }
    ensures sound { IfOk result (IsSound schema.now) }
{
    if is(name, b"date") {
        return date(alloc, schema, at, args.nodes.as_slice());
    }
    match fn_named(name) {
        None => Err(TypeFault::Wrong { at }),
        Some(name) => applied(alloc, schema, at, name, args),
    }
}

fn one_more(found: Nodes, arg: TypedNode) -> Result<Nodes, NoMemory>
    ensures { IfOk result (λ more. more ≡ one_more found arg) }
{
    let Nodes {
        mut nodes,
        mut typings,
    } = found;
    nodes.push(arg.node)?;
    typings.push(arg.typing)?;
    Ok(Nodes { nodes, typings })
}

/// A sign applied to its operand.
fn signed(
    alloc: Global,
    schema: &Schema,
    at: usize,
    sign: Prefix,
    operand: TypedNode,
) -> Result<TypedNode, TypeFault>
    requires { IsSound schema.now operand }
    ensures answers { Answers (λ x. x) result (typed_use at (operand.node ∷ []) (use_of (prefix_name sign) (operand.typing ∷ []))) }
    ensures sound { IfOk result (IsSound schema.now) }
{
    let none = Nodes {
        nodes: Items::new(alloc),
        typings: Items::new(alloc),
    };
    let args = one_more(none, operand)?;
    applied(alloc, schema, at, prefix_name(sign), args)
}

/// A further operand.
fn join(
    alloc: Global,
    schema: &Schema,
    link: Link,
    left: Joined,
    right: TypedNode,
) -> Result<Joined, TypeFault>
    requires left { IsSound schema.now (chain_of left) }
    requires right { IsSound schema.now right }
    ensures answers { Answers (λ x. x) result (join link left right) }
    ensures sound { IfOk result (λ x. IsSound schema.now (chain_of x)) }
{
    let typings = [left.typing, right.typing];
    let Some(found) = use_of(alloc, infix_name(link.sign), &typings)? else {
        return Err(TypeFault::Wrong { at: link.at });
    };
    let Joined {
        first,
        mut links,
        typing: _,
    } = left;
    links.push((found.applied, right.node))?;
    Ok(Joined {
        first,
        links,
        typing: found.typing,
    })
}

fn chain(alloc: Global, joined: Joined) -> Result<TypedNode, NoMemory>
    ensures { IfOk result (λ x. x ≡ chain_of joined) }
{
    let Joined {
        first,
        links,
        typing,
    } = joined;
    Ok(TypedNode {
        node: Node::Chain(Boxed::new(alloc, first)?, links),
        typing,
    })
}

/// The expression with a row at each node, its operands first.
#[cycle(typing)]
fn node(alloc: Global, schema: &Schema, expr: &Expr) -> Result<TypedNode, TypeFault>
    ensures answers { Answers (λ x. x) result (typed_of schema.now expr.now) }
    ensures sound { IfOk result (IsSound schema.now) }
{
    match expr {
        Expr::Number(at, digits) => number(schema, *at, digits.as_slice()),
        Expr::Quoted(_, bytes) => Ok(text(schema, bytes)?),
        Expr::Column(at, name) => column(schema, *at, name.as_slice()),
        Expr::Call(at, name, exprs) => {
            let args = args(alloc, schema, exprs.as_slice())?;
            call(alloc, schema, *at, name.as_slice(), args)
        }
        Expr::Signed(at, sign, operand) => {
            let operand = node(alloc, schema, operand.get())?;
            signed(alloc, schema, *at, *sign, operand)
        }
        Expr::Chain(first, more) => {
            let first = node(alloc, schema, first.get())?;
            chained(alloc, schema, first, more.as_slice())
        }
    }
}

/// Arguments from left to right.
#[cycle(typing)]
fn args(alloc: Global, schema: &Schema, exprs: &[Expr]) -> Result<Nodes, TypeFault>
    ensures answers { Answers (λ x. x) result (typed_args no_nodes (map (typed_of schema.now) exprs.now)) }
    ensures sound { IfOk result (AreSound schema.now) }
{
    let mut found = Nodes {
        nodes: Items::new(alloc),
        typings: Items::new(alloc),
    };
    for expr in exprs {
        let arg = match node(alloc, schema, expr) {
            Ok(arg) => arg,
            Err(fault) => return Err(fault),
        };
        found = one_more(found, arg)?;
    }
    Ok(found)
}

/// A first operand, with those that are joined to it.
#[cycle(typing)]
fn chained(
    alloc: Global,
    schema: &Schema,
    first: TypedNode,
    more: &[(Link, Expr)],
) -> Result<TypedNode, TypeFault>
    requires { IsSound schema.now first }
    ensures answers { Answers (λ x. x) result (typed_chain first (map (typed_link schema.now) more.now)) }
    ensures sound { IfOk result (IsSound schema.now) }
{
    match links(alloc, schema, first, more) {
        Ok(joined) => Ok(chain(alloc, joined)?),
        Err(fault) => Err(fault),
    }
}

/// Operands that are joined to a first one.
#[cycle(typing)]
fn links(
    alloc: Global,
    schema: &Schema,
    first: TypedNode,
    more: &[(Link, Expr)],
) -> Result<Joined, TypeFault>
    requires { IsSound schema.now first }
    ensures answers { Answers (λ x. x) result (typed_links (begin first) (map (typed_link schema.now) more.now)) }
    ensures sound { IfOk result (λ x. IsSound schema.now (chain_of x)) }
{
    let mut joined = Joined {
        first: first.node,
        links: Items::new(alloc),
        typing: first.typing,
    };
    for (link, operand) in more {
        let right = match node(alloc, schema, operand) {
            Ok(right) => right,
            Err(fault) => return Err(fault),
        };
        joined = match join(alloc, schema, *link, joined, right) {
            Ok(joined) => joined,
            Err(fault) => return Err(fault),
        };
    }
    Ok(joined)
}

/// The expression with its rows, or the place of its first node, operands first, that isn't typed.
pub fn check(alloc: Global, expr: Expr, schema: &Schema) -> Result<Typed, TypeFault>
    ensures answers { Answers root result (typed_of schema.now expr) }
    ensures fields { IfOk result (λ typed. typed.fields ≡ schema.now) }
{
    let TypedNode { node, typing } = node(alloc, schema, &expr)?;
    Ok(Typed::new(schema.copied()?, node, typing))
}
