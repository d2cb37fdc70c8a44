/// What a value of an expression is. `Unused` stands where a row has fewer than three arguments.
#[derive(Clone, Copy, Debug, PartialEq, Eq)]
pub enum Shape {
    Num,
    Text,
    Date,
    Truth,
    Unused,
}

/// The names of the functions and operators. `Minus` has rows of one argument and of two.
#[derive(Clone, Copy, Debug, PartialEq, Eq)]
pub enum FnName {
    Equal,
    NotEqual,
    Less,
    AtMost,
    Greater,
    AtLeast,
    Plus,
    Minus,
    Times,
    Divide,
    Remainder,
    And,
    Or,
    Not,
    IsNull,
    IfNull,
    If,
    Abs,
    Sign,
    Round,
    Least,
    Greatest,
    Length,
    Concat,
    Substr,
    Trim,
    Text,
    Year,
    Month,
    Day,
    DayNumber,
    AddDays,
}

/// A row of the table: the first `count` of `args` are the shapes of its arguments.
#[derive(Clone, Copy, Debug, PartialEq, Eq)]
pub struct Entry {
    pub name: FnName,
    pub args: [Shape; 3],
    pub count: u8,
    pub result: Shape,
}
