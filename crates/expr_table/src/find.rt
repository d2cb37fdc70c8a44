ghost use Rattle.std.specs.Prelude.{◌≡◌, ◌≤◌, ◌<◌, ℕ, IfSome, IfNone, IsSomeAnd, slice_get};
ghost use Rattle.expr_table.specs.declared.entry.Entry.{Entry as Row};
ghost use Rattle.expr_table.specs.TableRows.{Has, has, row_with};

use crate::{Entry, FnName, Shape, Table};

fn has(row: &Entry, name: FnName, args: &[Shape]) -> bool
    requires { row.now.count ≤ 3 }
    ensures { result ≡ has name args.now row.now }
{
    row.name == name && &row.args[..row.count as usize] == args
}

/// The number of the row with this name and these arguments.
pub fn find_row(table: &Table<53>, name: FnName, args: &[Shape]) -> Option<u32>
    ensures found { IfSome result (λ row. IsSomeAnd (slice_get table.now row) (Has name args.now)) }
    ensures none { IfNone result ((i : ℕ) (e : Row) → slice_get table.now i ≡ Some e → ¬ (Has name args.now e)) }
    ensures number { result ≡ row_with table.now name args.now }
    ensures below { IfSome result (λ row. row < 53) }
{
    for (i, row) in table.as_slice().iter().enumerate() {
        if has(row, name, args) {
            return Some(i as u32);
        }
    }
    None
}
