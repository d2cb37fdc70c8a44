ghost use Rattle.std.specs.Prelude.{◌≡◌, IsTrue, nat_le, length};
ghost use Rattle.std.specs.List.{list_all};

use crate::Entry;
use std::marker::Model;

/// So many rows, which a contract sees as their list.
#[derive(Drop)]
pub struct Table<const ROWS: usize> {
    rows: [Entry; ROWS],
}

impl<const ROWS: usize> Model for Table<ROWS> {
    ghost use Rattle.std.specs.Prelude.{List, IsTrue, nat_le};
    ghost use Rattle.std.specs.List.{list_all};
    ghost use Rattle.expr_table.specs.declared.entry.Entry.{Entry};

    ghost Value = { List Entry };

    ghost view = { λ t. t.rows };

    ghost invariant = { λ t. IsTrue (list_all (λ e. nat_le e.count 3) t.rows) };
}

impl<const ROWS: usize> Table<ROWS> {
    pub fn new(rows: [Entry; ROWS]) -> Table<ROWS>
        requires { IsTrue (list_all (λ e. nat_le e.count 3) rows) }
        ensures { result ≡ rows.entry }
    {
        Table { rows }
    }

    pub fn as_slice(&self) -> &[Entry]
        ensures value { result.now ≡ self.now }
        ensures len { length result.now ≡ ROWS }
        ensures counts { IsTrue (list_all (λ e. nat_le e.count 3) result.now) }
    {
        &self.rows
    }
}
