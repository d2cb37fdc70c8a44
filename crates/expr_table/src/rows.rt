ghost use Rattle.std.specs.Prelude.{◌≡◌, ◌<◌, Some, slice_get};
ghost use Rattle.expr_table.specs.TableRows.{rows, AreDistinct};

use crate::{Entry, FnName, Shape, Table};

static ROWS: [Entry; 53] = [
    Entry {
        name: FnName::Equal,
        args: [Shape::Num, Shape::Num, Shape::Unused],
        count: 2,
        result: Shape::Truth,
    },
    Entry {
        name: FnName::Equal,
        args: [Shape::Text, Shape::Text, Shape::Unused],
        count: 2,
        result: Shape::Truth,
    },
    Entry {
        name: FnName::Equal,
        args: [Shape::Date, Shape::Date, Shape::Unused],
        count: 2,
        result: Shape::Truth,
    },
    Entry {
        name: FnName::NotEqual,
        args: [Shape::Num, Shape::Num, Shape::Unused],
        count: 2,
        result: Shape::Truth,
    },
    Entry {
        name: FnName::NotEqual,
        args: [Shape::Text, Shape::Text, Shape::Unused],
        count: 2,
        result: Shape::Truth,
    },
    Entry {
        name: FnName::NotEqual,
        args: [Shape::Date, Shape::Date, Shape::Unused],
        count: 2,
        result: Shape::Truth,
    },
    Entry {
        name: FnName::Less,
        args: [Shape::Num, Shape::Num, Shape::Unused],
        count: 2,
        result: Shape::Truth,
    },
    Entry {
        name: FnName::Less,
        args: [Shape::Text, Shape::Text, Shape::Unused],
        count: 2,
        result: Shape::Truth,
    },
    Entry {
        name: FnName::Less,
        args: [Shape::Date, Shape::Date, Shape::Unused],
        count: 2,
        result: Shape::Truth,
    },
    Entry {
        name: FnName::AtMost,
        args: [Shape::Num, Shape::Num, Shape::Unused],
        count: 2,
        result: Shape::Truth,
    },
    Entry {
        name: FnName::AtMost,
        args: [Shape::Text, Shape::Text, Shape::Unused],
        count: 2,
        result: Shape::Truth,
    },
    Entry {
        name: FnName::AtMost,
        args: [Shape::Date, Shape::Date, Shape::Unused],
        count: 2,
        result: Shape::Truth,
    },
    Entry {
        name: FnName::Greater,
        args: [Shape::Num, Shape::Num, Shape::Unused],
        count: 2,
        result: Shape::Truth,
    },
    Entry {
        name: FnName::Greater,
        args: [Shape::Text, Shape::Text, Shape::Unused],
        count: 2,
        result: Shape::Truth,
    },
    Entry {
        name: FnName::Greater,
        args: [Shape::Date, Shape::Date, Shape::Unused],
        count: 2,
        result: Shape::Truth,
    },
    Entry {
        name: FnName::AtLeast,
        args: [Shape::Num, Shape::Num, Shape::Unused],
        count: 2,
        result: Shape::Truth,
    },
    Entry {
        name: FnName::AtLeast,
        args: [Shape::Text, Shape::Text, Shape::Unused],
        count: 2,
        result: Shape::Truth,
    },
    Entry {
        name: FnName::AtLeast,
        args: [Shape::Date, Shape::Date, Shape::Unused],
        count: 2,
        result: Shape::Truth,
    },
    Entry {
        name: FnName::Plus,
        args: [Shape::Num, Shape::Num, Shape::Unused],
        count: 2,
        result: Shape::Num,
    },
    Entry {
        name: FnName::Minus,
        args: [Shape::Num, Shape::Num, Shape::Unused],
        count: 2,
        result: Shape::Num,
    },
    Entry {
        name: FnName::Times,
        args: [Shape::Num, Shape::Num, Shape::Unused],
        count: 2,
        result: Shape::Num,
    },
    Entry {
        name: FnName::Divide,
        args: [Shape::Num, Shape::Num, Shape::Unused],
        count: 2,
        result: Shape::Num,
    },
    Entry {
        name: FnName::Remainder,
        args: [Shape::Num, Shape::Num, Shape::Unused],
        count: 2,
        result: Shape::Num,
    },
    Entry {
        name: FnName::Minus,
        args: [Shape::Date, Shape::Date, Shape::Unused],
        count: 2,
        result: Shape::Num,
    },
    Entry {
        name: FnName::Minus,
        args: [Shape::Num, Shape::Unused, Shape::Unused],
        count: 1,
        result: Shape::Num,
    },
    Entry {
        name: FnName::And,
        args: [Shape::Truth, Shape::Truth, Shape::Unused],
        count: 2,
        result: Shape::Truth,
    },
    Entry {
        name: FnName::Or,
        args: [Shape::Truth, Shape::Truth, Shape::Unused],
        count: 2,
        result: Shape::Truth,
    },
    Entry {
        name: FnName::Not,
        args: [Shape::Truth, Shape::Unused, Shape::Unused],
        count: 1,
        result: Shape::Truth,
    },
    Entry {
        name: FnName::IsNull,
        args: [Shape::Num, Shape::Unused, Shape::Unused],
        count: 1,
        result: Shape::Truth,
    },
    Entry {
        name: FnName::IsNull,
        args: [Shape::Text, Shape::Unused, Shape::Unused],
        count: 1,
        result: Shape::Truth,
    },
    Entry {
        name: FnName::IsNull,
        args: [Shape::Date, Shape::Unused, Shape::Unused],
        count: 1,
        result: Shape::Truth,
    },
    Entry {
        name: FnName::IfNull,
        args: [Shape::Num, Shape::Num, Shape::Unused],
        count: 2,
        result: Shape::Num,
    },
    Entry {
        name: FnName::IfNull,
        args: [Shape::Text, Shape::Text, Shape::Unused],
        count: 2,
        result: Shape::Text,
    },
    Entry {
        name: FnName::IfNull,
        args: [Shape::Date, Shape::Date, Shape::Unused],
        count: 2,
        result: Shape::Date,
    },
    Entry {
        name: FnName::If,
        args: [Shape::Truth, Shape::Num, Shape::Num],
        count: 3,
        result: Shape::Num,
    },
    Entry {
        name: FnName::If,
        args: [Shape::Truth, Shape::Text, Shape::Text],
        count: 3,
        result: Shape::Text,
    },
    Entry {
        name: FnName::If,
        args: [Shape::Truth, Shape::Date, Shape::Date],
        count: 3,
        result: Shape::Date,
    },
    Entry {
        name: FnName::If,
        args: [Shape::Truth, Shape::Truth, Shape::Truth],
        count: 3,
        result: Shape::Truth,
    },
    Entry {
        name: FnName::Abs,
        args: [Shape::Num, Shape::Unused, Shape::Unused],
        count: 1,
        result: Shape::Num,
    },
    Entry {
        name: FnName::Sign,
        args: [Shape::Num, Shape::Unused, Shape::Unused],
        count: 1,
        result: Shape::Num,
    },
    Entry {
        name: FnName::Round,
        args: [Shape::Num, Shape::Num, Shape::Unused],
        count: 2,
        result: Shape::Num,
    },
    Entry {
        name: FnName::Least,
        args: [Shape::Num, Shape::Num, Shape::Unused],
        count: 2,
        result: Shape::Num,
    },
    Entry {
        name: FnName::Greatest,
        args: [Shape::Num, Shape::Num, Shape::Unused],
        count: 2,
        result: Shape::Num,
    },
    Entry {
        name: FnName::Length,
        args: [Shape::Text, Shape::Unused, Shape::Unused],
        count: 1,
        result: Shape::Num,
    },
    Entry {
        name: FnName::Concat,
        args: [Shape::Text, Shape::Text, Shape::Unused],
        count: 2,
        result: Shape::Text,
    },
    Entry {
        name: FnName::Substr,
        args: [Shape::Text, Shape::Num, Shape::Num],
        count: 3,
        result: Shape::Text,
    },
    Entry {
        name: FnName::Trim,
        args: [Shape::Text, Shape::Unused, Shape::Unused],
        count: 1,
        result: Shape::Text,
    },
    Entry {
        name: FnName::Text,
        args: [Shape::Num, Shape::Unused, Shape::Unused],
        count: 1,
        result: Shape::Text,
    },
    Entry {
        name: FnName::Year,
        args: [Shape::Date, Shape::Unused, Shape::Unused],
        count: 1,
        result: Shape::Num,
    },
    Entry {
        name: FnName::Month,
        args: [Shape::Date, Shape::Unused, Shape::Unused],
        count: 1,
        result: Shape::Num,
    },
    Entry {
        name: FnName::Day,
        args: [Shape::Date, Shape::Unused, Shape::Unused],
        count: 1,
        result: Shape::Num,
    },
    Entry {
        name: FnName::DayNumber,
        args: [Shape::Date, Shape::Unused, Shape::Unused],
        count: 1,
        result: Shape::Num,
    },
    Entry {
        name: FnName::AddDays,
        args: [Shape::Date, Shape::Num, Shape::Unused],
        count: 2,
        result: Shape::Date,
    },
];

/// The rows of all functions and operators.
pub fn table() -> Table<53>
    ensures value { result ≡ rows }
    ensures distinct { AreDistinct result }
{
    Table::new(ROWS)
}

pub fn row_at(row: u32) -> Entry
    requires { row < 53 }
    ensures { slice_get rows row ≡ Some result }
{
    let rows = ROWS;
    rows[row as usize]
}
