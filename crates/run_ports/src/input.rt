ghost use Rattle.std.specs.Prelude.{◌≡◌, [], ◌∷◌, IfSome, IfNone, false};
ghost use Rattle.streams.specs.Lists.{is_empty};
ghost use Rattle.streams.specs.Streams.{row, end, whole};

use ds_schema::Row;
use ds_value::Items;
use std::collections::VecDeque;
use std::marker::Model;

/// What is left to feed of a port's list: rows and the end, or nothing.
#[derive(Drop)]
pub(crate) struct Input {
    rows: VecDeque<Row>,
    over: bool,
}

impl Model for Input {
    ghost use Rattle.std.specs.Prelude.{List};
    ghost use Rattle.streams.specs.Streams.{Item};
    ghost use Rattle.op_base.specs.Columns.{Row as Cells};
    ghost use Rattle.run_ports.specs.Driving.{left_of};

    ghost Value = { List (Item Cells) };

    ghost view = { λ s. left_of s.over s.rows.items };
}

impl Input {
    pub fn new(list: Items<Row>) -> Input
        ensures { result ≡ whole list }
    {
        Input {
            rows: VecDeque::from_vec(list.into_vec()),
            over: false,
        }
    }

    pub fn is_over(&self) -> bool
        ensures { result ≡ is_empty self.now }
    {
        self.over
    }

    /// The next row. After the last one it is over.
    pub fn next(&mut self) -> Option<Row>
        requires { is_empty self.old ≡ false }
        ensures row { IfSome result (λ r. self.old ≡ row r ∷ self.new) }
        ensures end { IfNone result (self.old ≡ end ∷ self.new) }
        ensures over { IfNone result (self.new ≡ []) }
    {
        match self.rows.pop_front() {
            Some(row) => Some(row),
            None => {
                self.over = true;
                None
            }
        }
    }
}
