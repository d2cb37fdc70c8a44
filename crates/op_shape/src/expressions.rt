//! The expressions of an operator, typed over the fields of its input.

ghost use Rattle.std.specs.Prelude.{◌≡◌, ◌≢◌, [], ◌∷◌, map, not, None, length, get_or, IfOk};
ghost use Rattle.ds_expr.specs.Typing.{typed_of};
ghost use Rattle.flow_graph.specs.declared.op_kind.SetSpec.{SetSpec as SetOf};
ghost use Rattle.shape_base.specs.declared.fault.ShapeWhy.TheVariants as why;
ghost use Rattle.shape_base.specs.Causes.{cause_if, first_cause};
ghost use Rattle.op_shape.specs.Exprs.{tree_over, typed_text, is_truth, is_num, is_test, is_whole, is_set, suits, expr_cause, test_cause, on_cause, set_causes, expr_over};

use ds_expr::{Expr, ExprFault, Shape, TypeFault, Typed, can_assign, check, parse, shape_of};
use ds_schema::{Field, Schema};
use ds_value::{Items, NoMemory};
use flow_graph::SetSpec;
use shape_base::ShapeWhy;
use std::alloc::Global;

fn typed_expr(alloc: Global, schema: &Schema, expr: Expr) -> Result<Option<Typed>, NoMemory>
    ensures { IfOk result (λ typed. typed ≡ tree_over schema.now (typed_of schema.now expr)) }
{
    match check(alloc, expr, schema) {
        Ok(typed) => Ok(Some(typed)),
        Err(TypeFault::Wrong { .. }) => Ok(None),
        Err(TypeFault::Memory) => Err(NoMemory),
    }
}

/// The expression that a text spells, typed over a schema; none where it has no type.
fn typed_text(alloc: Global, schema: &Schema, text: &[u8]) -> Result<Option<Typed>, NoMemory>
    ensures { IfOk result (λ typed. typed ≡ typed_text schema.now text.now) }
{
    match parse(alloc, text) {
        Ok(expr) => typed_expr(alloc, schema, expr),
        Err(ExprFault::Syntax { .. }) => Ok(None),
        Err(ExprFault::Memory) => Err(NoMemory),
    }
}

fn is_truth(shape: Shape) -> bool
    ensures { result ≡ is_truth shape }
{
    match shape {
        Shape::Truth => true,
        Shape::Num | Shape::Text | Shape::Date | Shape::Unused => false,
    }
}

fn is_num(shape: Shape) -> bool
    ensures { result ≡ is_num shape }
{
    match shape {
        Shape::Num => true,
        Shape::Truth | Shape::Text | Shape::Date | Shape::Unused => false,
    }
}

fn is_test(typed: &Typed) -> bool
    ensures { result ≡ is_test typed.now }
{
    let (shape, _) = shape_of(typed);
    is_truth(shape)
}

fn is_whole(typed: &Typed) -> bool
    ensures { result ≡ is_whole typed.now }
{
    let (shape, scale) = shape_of(typed);
    is_num(shape) && scale == 0
}

fn is_set(field: &Field, typed: &Typed) -> bool
    ensures { result ≡ is_set field.now typed.now }
{
    let (shape, scale) = shape_of(typed);
    can_assign(shape, scale, &field.kind)
}

fn suits_test(typed: &Option<Typed>) -> bool
    ensures { result ≡ suits is_test typed.now }
{
    match typed {
        Some(typed) => is_test(typed),
        None => false,
    }
}

fn suits_on(typed: &Option<Typed>) -> bool
    ensures { result ≡ suits is_whole typed.now }
{
    match typed {
        Some(typed) => is_whole(typed),
        None => false,
    }
}

fn suits_set(field: &Field, typed: &Option<Typed>) -> bool
    ensures { result ≡ suits (is_set field.now) typed.now }
{
    match typed {
        Some(typed) => is_set(field, typed),
        None => false,
    }
}

fn cause_unless(suits: bool) -> Option<ShapeWhy>
    ensures { result ≡ cause_if (not suits) why.Expression }
{
    if suits {
        None
    } else {
        Some(ShapeWhy::Expression)
    }
}

/// What is wrong with a test.
pub fn test_cause(alloc: Global, schema: &Schema, text: &[u8]) -> Result<Option<ShapeWhy>, NoMemory>
    ensures { IfOk result (λ cause. cause ≡ test_cause schema.now text.now) }
{
    let typed = typed_text(alloc, schema, text)?;
    Ok(cause_unless(suits_test(&typed)))
}

/// What is wrong with an expression that is switched on.
pub fn on_cause(alloc: Global, schema: &Schema, text: &[u8]) -> Result<Option<ShapeWhy>, NoMemory>
    ensures { IfOk result (λ cause. cause ≡ on_cause schema.now text.now) }
{
    let typed = typed_text(alloc, schema, text)?;
    Ok(cause_unless(suits_on(&typed)))
}

fn set_cause(alloc: Global, schema: &Schema, set: &SetSpec) -> Result<Option<ShapeWhy>, NoMemory>
    ensures { IfOk result (λ cause. cause ≡ expr_cause (is_set set.now.field) schema.now set.now.expr) }
{
    let typed = typed_text(alloc, schema, set.expr.as_slice())?;
    Ok(cause_unless(suits_set(&set.field, &typed)))
}

/// The first cause at the expressions of sets.
pub fn set_causes(
    alloc: Global,
    schema: &Schema,
    sets: &[SetSpec],
) -> Result<Option<ShapeWhy>, NoMemory>
    ensures { IfOk result (λ cause. cause ≡ first_cause (set_causes schema.now sets.now)) }
{
    for set in sets {
        if let Some(why) = set_cause(alloc, schema, set)? {
            return Ok(Some(why));
        }
    }
    Ok(None)
}

/// An expression that has a type.
fn expr_over(alloc: Global, schema: &Schema, text: &[u8]) -> Result<Typed, NoMemory>
    requires { typed_text schema.now text.now ≢ None }
    ensures { IfOk result (λ typed. typed ≡ expr_over schema.now text.now) }
{
    match typed_text(alloc, schema, text)? {
        Some(typed) => Ok(typed),
        None => unreachable!(),
    }
}

/// The one expression of an operator, which has a type.
pub fn one_expr(alloc: Global, schema: &Schema, text: &[u8]) -> Result<Items<Typed>, NoMemory>
    requires { typed_text schema.now text.now ≢ None }
    ensures { IfOk result (λ exprs. exprs ≡ expr_over schema.now text.now ∷ []) }
{
    let mut exprs = Items::new(alloc);
    exprs.push(expr_over(alloc, schema, text)?)?;
    Ok(exprs)
}

/// The expressions of sets, each of which has a type.
pub fn set_exprs(alloc: Global, schema: &Schema, sets: &[SetSpec]) -> Result<Items<Typed>, NoMemory>
    requires { first_cause (set_causes schema.now sets.now) ≡ None }
    ensures { IfOk result (λ exprs. exprs ≡ map (λ (s : SetOf). expr_over schema.now s.expr) sets.now) }
{
    let mut exprs = Items::new(alloc);
    for set in sets {
        exprs.push(expr_over(alloc, schema, set.expr.as_slice())?)?;
    }
    Ok(exprs)
}
