ghost use Rattle.std.specs.Prelude.{◌≡◌};
ghost use Rattle.osh_table.specs.Words.{option_word};
ghost use Rattle.osh_table.specs.Options.{options_of, row_named, row_among};

use crate::operator::OpName;

#[derive(Clone, Copy, Debug, PartialEq, Eq)]
pub enum OptName {
    File,
    Schema,
    Delim,
    Fixed,
    Reject,
    Ds,
    Where,
    Set,
    Keep,
    Drop,
    Rename,
    On,
    Cases,
    Key,
    Last,
    Hash,
    Sum,
    Count,
    Min,
    Max,
    First,
    Keepbad,
    Missing,
    Values,
    Keepcopy,
    Sequence,
    Sort,
}

/// What the value of an option looks like; a flag has none.
#[derive(Clone, Copy, Debug, PartialEq, Eq)]
pub enum Form {
    Flag,
    File,
    DataSet,
    Schema,
    Delim,
    Widths,
    Expression,
    Setting,
    Columns,
    Renames,
    Cases,
    Keys,
    Sum,
    Count,
    Min,
    Max,
    First,
    Last,
    Missing,
}

/// An option of an operator. Of two options with one group, which isn't 0, the second is one too
/// many; an option of group 0 may be repeated.
#[derive(Clone, Copy, Debug, PartialEq, Eq)]
pub struct OptRow {
    pub opt: OptName,
    pub form: Form,
    pub required: bool,
    pub group: u8,
}

/// The word of an option.
pub fn option_word(opt: OptName) -> &'static [u8]
    ensures { result.now ≡ option_word opt }
{
    match opt {
        OptName::File => b"-file",
        OptName::Schema => b"-schema",
        OptName::Delim => b"-delim",
        OptName::Fixed => b"-fixed",
        OptName::Reject => b"-reject",
        OptName::Ds => b"-ds",
        OptName::Where => b"-where",
        OptName::Set => b"-set",
        OptName::Keep => b"-keep",
        OptName::Drop => b"-drop",
        OptName::Rename => b"-rename",
        OptName::On => b"-on",
        OptName::Cases => b"-cases",
        OptName::Key => b"-key",
        OptName::Last => b"-last",
        OptName::Hash => b"-hash",
        OptName::Sum => b"-sum",
        OptName::Count => b"-count",
        OptName::Min => b"-min",
        OptName::Max => b"-max",
        OptName::First => b"-first",
        OptName::Keepbad => b"-keepbad",
        OptName::Missing => b"-missing",
        OptName::Values => b"-values",
        OptName::Keepcopy => b"-keepcopy",
        OptName::Sequence => b"-sequence",
        OptName::Sort => b"-sort",
    }
}

macro_rules! row {
    ($opt:ident: $form:ident, $group:literal) => {
        OptRow {
            opt: OptName::$opt,
            form: Form::$form,
            required: false,
            group: $group,
        }
    };
    ($opt:ident: $form:ident, $group:literal, required) => {
        OptRow {
            opt: OptName::$opt,
            form: Form::$form,
            required: true,
            group: $group,
        }
    };
}

static IMPORT: [OptRow; 5] = [
    row!(File: File, 1, required),
    row!(Schema: Schema, 2, required),
    row!(Delim: Delim, 3),
    row!(Fixed: Widths, 3),
    row!(Reject: Flag, 4),
];

static EXPORT: [OptRow; 3] = [
    row!(File: File, 1, required),
    row!(Delim: Delim, 2),
    row!(Fixed: Widths, 2),
];

static DATA_SET: [OptRow; 1] = [row!(Ds: DataSet, 1, required)];

static FILTER: [OptRow; 2] = [row!(Where: Expression, 1, required), row!(Reject: Flag, 2)];

static TRANSFORM: [OptRow; 2] = [row!(Set: Setting, 0, required), row!(Reject: Flag, 1)];

static MODIFY: [OptRow; 3] = [
    row!(Keep: Columns, 1),
    row!(Drop: Columns, 1),
    row!(Rename: Renames, 2),
];

static SWITCH: [OptRow; 3] = [
    row!(On: Expression, 1, required),
    row!(Cases: Cases, 2, required),
    row!(Reject: Flag, 3),
];

static KEYED: [OptRow; 1] = [row!(Key: Keys, 1, required)];

static REMDUP: [OptRow; 2] = [row!(Key: Keys, 1, required), row!(Last: Flag, 2)];

static GROUP: [OptRow; 8] = [
    row!(Key: Keys, 1),
    row!(Hash: Flag, 2),
    row!(Sum: Sum, 0),
    row!(Count: Count, 0),
    row!(Min: Min, 0),
    row!(Max: Max, 0),
    row!(First: First, 0),
    row!(Last: Last, 0),
];

static MERGE: [OptRow; 3] = [
    row!(Key: Keys, 1, required),
    row!(Keepbad: Flag, 2),
    row!(Reject: Flag, 3),
];

static LOOKUP: [OptRow; 2] = [row!(Key: Keys, 1, required), row!(Missing: Missing, 2)];

static CHANGECAPTURE: [OptRow; 3] = [
    row!(Key: Keys, 1, required),
    row!(Values: Columns, 2),
    row!(Keepcopy: Flag, 3),
];

static FUNNEL: [OptRow; 2] = [row!(Sequence: Flag, 1), row!(Sort: Keys, 1)];

/// The options of an operator, in the order in which they are printed.
pub fn options_of(op: OpName) -> &'static [OptRow]
    ensures { result.now ≡ options_of op }
{
    match op {
        OpName::Import => &IMPORT,
        OpName::Export => &EXPORT,
        OpName::Dsread | OpName::Dswrite => &DATA_SET,
        OpName::Copy => &[],
        OpName::Filter => &FILTER,
        OpName::Transform => &TRANSFORM,
        OpName::Modify => &MODIFY,
        OpName::Switch => &SWITCH,
        OpName::Tsort
        | OpName::InnerJoin
        | OpName::LeftOuterJoin
        | OpName::RightOuterJoin
        | OpName::FullOuterJoin => &KEYED,
        OpName::Remdup => &REMDUP,
        OpName::Group => &GROUP,
        OpName::Merge => &MERGE,
        OpName::Lookup => &LOOKUP,
        OpName::Changecapture => &CHANGECAPTURE,
        OpName::Funnel => &FUNNEL,
    }
}

/// The operator's option that is called so.
pub fn row_named(op: OpName, word: &[u8]) -> Option<OptRow>
    ensures { result ≡ row_named op word.now }
{
    for row in options_of(op) {
        if option_word(row.opt) == word {
            return Some(*row);
        }
    }
    None
}
