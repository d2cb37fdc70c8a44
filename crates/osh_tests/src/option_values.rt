//! Values of options, and the operators that options say.

use ds_lex::{LexedText, Mode, Refusal, Stop, lex};
use osh_table::{Form, OpName, OptName, option_word, row_named};
use osh_value::{OptValue, Setting, kind_of, name_of, owned_name, value_of};
use std::alloc::Global;
use std::test::Fail;

/// Forms, bytes, and whether these spell a value.
static VALUES: [(Form, &[u8], bool); 60] = [
    (Form::Flag, b"", false),
    (Form::File, b"in data/a b.txt", true),
    (Form::File, b"", false),
    (Form::File, b"it's", false),
    (Form::DataSet, b"days", true),
    (Form::DataSet, b"a\tb", false),
    (Form::Schema, b"record ( a: int32; b: nullable date )", true),
    (Form::Schema, b"record ( a: int33; )", false),
    (Form::Delim, b";", true),
    (Form::Delim, b"'", true),
    (Form::Delim, b"\"", false),
    (Form::Delim, b"\n", false),
    (Form::Delim, b"", false),
    (Form::Delim, b",,", false),
    (Form::Widths, b"1, 65536", true),
    (Form::Widths, b"0", false),
    (Form::Widths, b"65537", false),
    (Form::Widths, b"5,", false),
    (Form::Expression, b" a + 1 # end", true),
    (Form::Expression, b"a +", false),
    (Form::Expression, b"", false),
    (Form::Setting, b"b: nullable int32 = a + 1", true),
    (Form::Setting, b"b: int32 = ", false),
    (Form::Setting, b"b: int32", false),
    (Form::Setting, b"b.c: int32 = a", false),
    (Form::Columns, b"a, b.c", true),
    (Form::Columns, b"a desc", false),
    (Form::Columns, b"a,a", false),
    (Form::Renames, b"a=b, b=a", true),
    (Form::Renames, b"a=c,b=c", false),
    (Form::Renames, b"a.b=c", false),
    (Form::Renames, b"a", false),
    (Form::Cases, b"1,-2,0", true),
    (Form::Cases, b"-9223372036854775808", true),
    (Form::Cases, b"9223372036854775808", false),
    (Form::Cases, b"7,07", false),
    (Form::Cases, b"0,-0", false),
    (Form::Cases, b"+1", false),
    (Form::Keys, b"a, b desc", true),
    (Form::Keys, b"a,a desc", false),
    (Form::Keys, b"", false),
    (Form::Sum, b"total=a", true),
    (Form::Sum, b"total=", false),
    (Form::Sum, b"total=a,b=c", false),
    (Form::Count, b"n", true),
    (Form::Count, b"n.m", false),
    (Form::Count, b"n=a", false),
    (Form::Min, b"least=a.b", true),
    (Form::Min, b"a.b=least", false),
    (Form::Max, b"most=a", true),
    (Form::Max, b"most", false),
    (Form::First, b"first=a", true),
    (Form::First, b"=a", false),
    (Form::Last, b"last=a", true),
    (Form::Last, b"", false),
    (Form::Missing, b"continue", true),
    (Form::Missing, b"drop", true),
    (Form::Missing, b"fail", true),
    (Form::Missing, b"reject", true),
    (Form::Missing, b"Fail", false),
];

#[test]
fn bytes_spell_values_by_their_forms(rt: HostRuntime) -> Result<(), Fail> {
    for (form, bytes, spells) in &VALUES {
        let value = value_of(rt.alloc(), *form, bytes)?;
        assert!(rt; value.is_some() == *spells, "{form:?} {bytes:?}");
    }
    Ok(())
}

/// Options with their values.
type Options = &'static [(OptName, &'static [u8])];

/// Operators, their options, and whether none lacks that must be there.
static KINDS: [(OpName, Options, bool); 32] = [
    (
        OpName::Import,
        &[
            (OptName::File, b"a.txt"),
            (OptName::Schema, b"record ( a: int32; )"),
            (OptName::Fixed, b"9"),
            (OptName::Reject, b""),
        ],
        true,
    ),
    (OpName::Import, &[(OptName::File, b"a.txt")], false),
    (
        OpName::Import,
        &[(OptName::Schema, b"record ( a: int32; )")],
        false,
    ),
    (
        OpName::Export,
        &[(OptName::File, b"a.txt"), (OptName::Delim, b";")],
        true,
    ),
    (OpName::Export, &[(OptName::Delim, b";")], false),
    (OpName::Dsread, &[(OptName::Ds, b"days")], true),
    (OpName::Dsread, &[], false),
    (OpName::Dswrite, &[(OptName::Ds, b"days")], true),
    (OpName::Copy, &[], true),
    (
        OpName::Filter,
        &[(OptName::Where, b"a > 1"), (OptName::Reject, b"")],
        true,
    ),
    (OpName::Filter, &[(OptName::Reject, b"")], false),
    (
        OpName::Transform,
        &[
            (OptName::Set, b"b: int8 = 1"),
            (OptName::Set, b"c: int8 = 2"),
        ],
        true,
    ),
    (OpName::Transform, &[], false),
    (
        OpName::Modify,
        &[(OptName::Keep, b"a,b"), (OptName::Rename, b"c=a")],
        true,
    ),
    (OpName::Modify, &[(OptName::Drop, b"a")], true),
    (
        OpName::Switch,
        &[(OptName::On, b"a"), (OptName::Cases, b"1,-2")],
        true,
    ),
    (OpName::Switch, &[(OptName::On, b"a")], false),
    (OpName::Switch, &[(OptName::Cases, b"1")], false),
    (OpName::Tsort, &[(OptName::Key, b"a, b desc")], true),
    (
        OpName::Remdup,
        &[(OptName::Key, b"a"), (OptName::Last, b"")],
        true,
    ),
    (
        OpName::Group,
        &[
            (OptName::Key, b"a"),
            (OptName::Hash, b""),
            (OptName::Count, b"n"),
            (OptName::Sum, b"s=b"),
        ],
        true,
    ),
    (
        OpName::Group,
        &[
            (OptName::Min, b"c=b"),
            (OptName::Max, b"d=b"),
            (OptName::First, b"e=b"),
            (OptName::Last, b"f=b"),
        ],
        true,
    ),
    (OpName::InnerJoin, &[(OptName::Key, b"a")], true),
    (OpName::LeftOuterJoin, &[(OptName::Key, b"a")], true),
    (OpName::RightOuterJoin, &[(OptName::Key, b"a")], true),
    (OpName::FullOuterJoin, &[(OptName::Key, b"a")], true),
    (
        OpName::Merge,
        &[(OptName::Key, b"a"), (OptName::Keepbad, b"")],
        true,
    ),
    (
        OpName::Lookup,
        &[(OptName::Key, b"a"), (OptName::Missing, b"drop")],
        true,
    ),
    (OpName::Lookup, &[(OptName::Key, b"a")], true),
    (
        OpName::Changecapture,
        &[(OptName::Key, b"a"), (OptName::Values, b"b,c")],
        true,
    ),
    (OpName::Funnel, &[(OptName::Sequence, b"")], true),
    (OpName::Funnel, &[(OptName::Sort, b"a")], true),
];

fn setting(alloc: Global, op: OpName, opt: OptName, bytes: &[u8]) -> Result<Setting, Fail> {
    let row = row_named(op, option_word(opt)).ok_or("no option")?;
    let value = match row.form {
        Form::Flag => OptValue::Flag,
        form => value_of(alloc, form, bytes)?.ok_or("no value")?,
    };
    Ok(Setting {
        opt,
        group: row.group,
        value,
    })
}

fn settings(alloc: Global, op: OpName, options: Options) -> Result<Vec<Setting>, Fail> {
    let mut found = Vec::new(alloc);
    for (opt, bytes) in options {
        found.push(setting(alloc, op, *opt, bytes)?)?;
    }
    Ok(found)
}

#[test]
fn options_say_operators(rt: HostRuntime) -> Result<(), Fail> {
    let alloc = rt.alloc();
    for (op, options, says) in &KINDS {
        let settings = settings(alloc, *op, options)?;
        let kind = kind_of(alloc, *op, settings.as_slice())?;
        assert!(rt; kind.is_some() == *says, "{op:?}");
    }
    Ok(())
}

/// Bytes, and whether they are a name.
static NAMES: [(&[u8], bool); 4] = [
    (b"a b", true),
    (b"~", true),
    (b"", false),
    (b"caf\xc3\xa9", false),
];

/// Tokens behind a space, and whether their bytes are a name.
static TOKENS: [(&[u8], bool); 3] = [(b" a.b", true), (b" 12", true), (b" 'a'", false)];

/// What a token's bytes are, where no name is refused for the cause 7 at the token.
fn is_owned(alloc: Global, text: &[u8]) -> Result<bool, Fail> {
    let LexedText { lexemes, bad: _ } = lex(alloc, Mode::Inner, text)?;
    let [token] = lexemes.as_slice() else {
        return Err(Fail::from("no token"));
    };
    match owned_name(alloc, *token, 7_u8) {
        Ok(name) => Ok(name.as_slice() == token.bytes),
        Err(Stop::Refused(Refusal::At { at: 1, why: 7 })) => Ok(false),
        Err(_) => Err(Fail::from("another cause")),
    }
}

#[test]
fn bytes_and_tokens_are_names(rt: HostRuntime) -> Result<(), Fail> {
    let alloc = rt.alloc();
    for (bytes, wanted) in &NAMES {
        let name = name_of(alloc, bytes)?;
        assert!(rt; name.is_some() == *wanted, "{bytes:?}");
    }
    for (text, wanted) in &TOKENS {
        assert!(rt; is_owned(alloc, text)? == *wanted, "{text:?}");
    }
    Ok(())
}
