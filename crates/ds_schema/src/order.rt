//! Laws of the order of rows: each function does nothing, and its contract is the law.

ghost use Rattle.ds_schema.specs.RowLaws.{RowOrderIsTotal, EqualRowsAgree};

pub fn row_order_is_total()
    ensures total { RowOrderIsTotal }
    ensures equal { EqualRowsAgree }
{}
