//! What is known of columns, and the rows that nodes have.

ghost use Rattle.std.specs.Prelude.{◌≡◌, ◌≤◌, slice_get, IfOk};
ghost use Rattle.std.specs.List.{AllByRecursion};
ghost use Rattle.expr_table.specs.TableRows.{rows};
ghost use Rattle.ds_expr.specs.declared.node.Typing.{Typing as Known};
ghost use Rattle.ds_expr.specs.Typing.{plain, result_in, scales_of, second_literal, shapes_of, typing_of_kind, use_of};

use crate::node::{Applied, Typing, Use};
use ds_value::Kind;
use expr_table::{FnName, Shape, find_row, result_scale, table};
use sqlite_items::Items;
use std::alloc::{AllocError, Global};

pub fn plain(shape: Shape) -> Typing
    ensures { result ≡ plain shape }
{
    Typing {
        shape,
        scale: 0,
        literal: None,
    }
}

pub fn typing_of_kind(kind: &Kind) -> Typing
    ensures { result ≡ typing_of_kind kind.now }
{
    match kind {
        Kind::Int(_) | Kind::UInt(_) => plain(Shape::Num),
        Kind::Dec { s, .. } => Typing {
            shape: Shape::Num,
            scale: *s,
            literal: None,
        },
        Kind::Text { .. } => plain(Shape::Text),
        Kind::Date => plain(Shape::Date),
    }
}

fn shapes_of(alloc: Global, typings: &[Typing]) -> Result<Vec<Shape>, AllocError>
    ensures { IfOk result (λ shapes. shapes.items ≡ shapes_of typings.now) }
{
    typings.iter().map(|typing| typing.shape).collect(alloc)
}

fn scales_of(alloc: Global, typings: &[Typing]) -> Result<Vec<u8>, AllocError>
    ensures { IfOk result (λ scales. scales.items ≡ scales_of typings.now) }
{
    typings.iter().map(|typing| typing.scale).collect(alloc)
}

fn second_literal(typings: &[Typing]) -> Option<u128>
    ensures { result ≡ second_literal typings.now }
{
    match typings {
        [_, second, ..] => second.literal,
        _ => None,
    }
}

/// The shape of what a row gives.
fn result_at(row: u32) -> Shape
    ensures { result ≡ result_in (slice_get rows row) }
{
    let table = table();
    match table.as_slice().get(row as usize) {
        Some(entry) => entry.result,
        None => Shape::Unused,
    }
}

/// The row that is applied where a name stands with these arguments.
#[tactic(auto, unfolding(crate::specs::Typing::use_of))]
pub fn use_of(alloc: Global, name: FnName, typings: &[Typing]) -> Result<Option<Use>, AllocError>
    requires { AllByRecursion (λ (t : Known). t.scale ≤ 38) typings.now }
    ensures { IfOk result (λ found. found ≡ use_of name typings.now) }
{
    let shapes = shapes_of(alloc, typings)?;
    let Some(row) = find_row(&table(), name, &shapes) else {
        return Ok(None);
    };
    let scales = scales_of(alloc, typings)?;
    match result_scale(name, &scales, second_literal(typings)) {
        None => Ok(None),
        Some(scale) => Ok(Some(Use {
            applied: Applied {
                name,
                row,
                scales: Items::from_vec(scales),
            },
            typing: Typing {
                shape: result_at(row),
                scale,
                literal: None,
            },
        })),
    }
}
