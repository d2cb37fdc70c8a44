ghost use Rattle.std.specs.Prelude.{◌≡◌};
ghost use Rattle.osh_table.specs.Words.{operator_word, operator_named, operator_among, operators};

/// An operator without its options.
#[derive(Clone, Copy, Debug, PartialEq, Eq)]
pub enum OpName {
    Import,
    Export,
    Dsread,
    Dswrite,
    Copy,
    Filter,
    Transform,
    Modify,
    Switch,
    Tsort,
    Remdup,
    Group,
    InnerJoin,
    LeftOuterJoin,
    RightOuterJoin,
    FullOuterJoin,
    Merge,
    Lookup,
    Changecapture,
    Funnel,
}

static OPERATORS: [OpName; 20] = [
    OpName::Import,
    OpName::Export,
    OpName::Dsread,
    OpName::Dswrite,
    OpName::Copy,
    OpName::Filter,
    OpName::Transform,
    OpName::Modify,
    OpName::Switch,
    OpName::Tsort,
    OpName::Remdup,
    OpName::Group,
    OpName::InnerJoin,
    OpName::LeftOuterJoin,
    OpName::RightOuterJoin,
    OpName::FullOuterJoin,
    OpName::Merge,
    OpName::Lookup,
    OpName::Changecapture,
    OpName::Funnel,
];

/// The word of an operator.
pub fn operator_word(op: OpName) -> &'static [u8]
    ensures { result.now ≡ operator_word op }
{
    match op {
        OpName::Import => b"import",
        OpName::Export => b"export",
        OpName::Dsread => b"dsread",
        OpName::Dswrite => b"dswrite",
        OpName::Copy => b"copy",
        OpName::Filter => b"filter",
        OpName::Transform => b"transform",
        OpName::Modify => b"modify",
        OpName::Switch => b"switch",
        OpName::Tsort => b"tsort",
        OpName::Remdup => b"remdup",
        OpName::Group => b"group",
        OpName::InnerJoin => b"innerjoin",
        OpName::LeftOuterJoin => b"leftouterjoin",
        OpName::RightOuterJoin => b"rightouterjoin",
        OpName::FullOuterJoin => b"fullouterjoin",
        OpName::Merge => b"merge",
        OpName::Lookup => b"lookup",
        OpName::Changecapture => b"changecapture",
        OpName::Funnel => b"funnel",
    }
}

fn operators() -> &'static [OpName]
    ensures { result.now ≡ operators }
{
    &OPERATORS
}

/// The operator that is called so.
pub fn operator_named(word: &[u8]) -> Option<OpName>
    ensures { result ≡ operator_named word.now }
{
    for op in operators() {
        if operator_word(*op) == word {
            return Some(*op);
        }
    }
    None
}
