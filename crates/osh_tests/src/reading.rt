use flow_graph::OpKind;
use osh_read::{OshFault, OshWhy, read_flow};
use std::alloc::Global;
use std::test::Fail;

static FAULTS: [(&str, usize, OshWhy); 147] = [
    ("", 0, OshWhy::Syntax),
    ("# only a comment", 16, OshWhy::Syntax),
    ("import -file \"in", 13, OshWhy::Token),
    ("$", 0, OshWhy::Token),
    ("copy $", 5, OshWhy::Token),
    ("copy; $", 6, OshWhy::Token),
    ("copy | $", 7, OshWhy::Token),
    ("import -file $", 13, OshWhy::Token),
    ("import $", 7, OshWhy::Token),
    ("import -file a /*", 15, OshWhy::Token),
    ("nopart | copy", 7, OshWhy::Syntax),
    ("nopart;", 7, OshWhy::Syntax),
    ("copy; nopart", 6, OshWhy::UnknownOperator),
    ("nosort; nopart; nosort", 22, OshWhy::Syntax),
    ("copy copy", 5, OshWhy::Syntax),
    ("copy |", 6, OshWhy::Syntax),
    ("| copy", 0, OshWhy::Syntax),
    ("copy; ; copy", 6, OshWhy::Syntax),
    ("copy 'a'", 5, OshWhy::Syntax),
    ("-file", 0, OshWhy::Syntax),
    ("'copy'", 0, OshWhy::Syntax),
    ("cpoy", 0, OshWhy::UnknownOperator),
    ("copy -x", 5, OshWhy::UnknownOption),
    ("tsort -key a -last", 13, OshWhy::UnknownOption),
    ("export -file a -ds b -file c", 15, OshWhy::UnknownOption),
    ("import", 0, OshWhy::MissingOption),
    ("import -file a", 0, OshWhy::MissingOption),
    (
        "import -file a -shema 'x' -file -b",
        0,
        OshWhy::MissingOption,
    ),
    ("import [seq] $", 0, OshWhy::MissingOption),
    ("modify", 0, OshWhy::MissingOption),
    ("modify -foo a", 0, OshWhy::MissingOption),
    ("dswrite | copy", 0, OshWhy::MissingOption),
    ("lookup -missing drop", 0, OshWhy::MissingOption),
    ("tsort -key", 6, OshWhy::BadValue),
    ("tsort -key |", 6, OshWhy::BadValue),
    ("tsort -key 'a,a'", 11, OshWhy::BadValue),
    ("tsort -key 'a b'", 11, OshWhy::BadValue),
    ("tsort -key ''", 11, OshWhy::BadValue),
    ("tsort -key 5", 11, OshWhy::BadValue),
    ("tsort -key 'a,$'", 11, OshWhy::BadValue),
    ("remdup -key a -last x", 20, OshWhy::BadValue),
    ("modify -rename 'a=b,c=b'", 15, OshWhy::BadValue),
    ("modify -rename 'a.b=c'", 15, OshWhy::BadValue),
    ("modify -keep 'a desc'", 13, OshWhy::BadValue),
    ("group -sum 'a'", 11, OshWhy::BadValue),
    ("group -count 'a.b'", 13, OshWhy::BadValue),
    ("group -max 'a=b,c=d'", 11, OshWhy::BadValue),
    ("lookup -key a -missing ' drop'", 23, OshWhy::BadValue),
    ("import -file a -schema 'record ( )'", 23, OshWhy::BadValue),
    ("export -file a -delim 'ab'", 22, OshWhy::BadValue),
    ("export -file a -delim '\"'", 22, OshWhy::BadValue),
    ("export -file a -fixed '5,0'", 22, OshWhy::BadValue),
    ("export -file a -fixed '65537'", 22, OshWhy::BadValue),
    ("export -file a -fixed 1.5", 22, OshWhy::BadValue),
    ("export -file ''", 13, OshWhy::BadValue),
    ("export -file \"it's\"", 13, OshWhy::BadValue),
    ("export -file a -delim ,", 15, OshWhy::BadValue),
    ("filter", 0, OshWhy::MissingOption),
    ("filter -reject", 0, OshWhy::MissingOption),
    ("transform -reject", 0, OshWhy::MissingOption),
    ("switch -on a", 0, OshWhy::MissingOption),
    ("switch -cases 1", 0, OshWhy::MissingOption),
    ("transform [seq] $", 0, OshWhy::MissingOption),
    ("filter $", 7, OshWhy::Token),
    ("transform $", 10, OshWhy::Token),
    ("switch -on a $", 13, OshWhy::Token),
    ("filter -where", 7, OshWhy::BadValue),
    ("filter -where \"\"", 14, OshWhy::BadValue),
    ("filter -where \"a =\"", 14, OshWhy::BadValue),
    ("filter -where \"a $\"", 14, OshWhy::BadValue),
    ("filter -where \"a /*\"", 14, OshWhy::BadValue),
    ("filter -where \"a b\"", 14, OshWhy::BadValue),
    ("filter -where \"f(a\"", 14, OshWhy::BadValue),
    ("filter -where \"-\"", 14, OshWhy::BadValue),
    ("filter -where a -where b", 16, OshWhy::DoubleOption),
    ("filter -where a -reject -reject", 24, OshWhy::DoubleOption),
    ("filter -where a -reject b", 24, OshWhy::BadValue),
    ("filter -where a -on b", 16, OshWhy::UnknownOption),
    ("transform -set \"a: date\"", 15, OshWhy::BadValue),
    ("transform -set \"a: date ==b\"", 15, OshWhy::BadValue),
    ("transform -set \"a = b\"", 15, OshWhy::BadValue),
    ("transform -set \"a: dat = b\"", 15, OshWhy::BadValue),
    ("transform -set \"a: date =\"", 15, OshWhy::BadValue),
    ("transform -set \"a.b: date = c\"", 15, OshWhy::BadValue),
    ("transform -set \"a: string[0] = b\"", 15, OshWhy::BadValue),
    (
        "transform -set \"a: decimal[39] = b\"",
        15,
        OshWhy::BadValue,
    ),
    (
        "transform -set \"a: decimal[8,9] = b\"",
        15,
        OshWhy::BadValue,
    ),
    ("transform -set \"a: date = b = c\"", 15, OshWhy::BadValue),
    ("transform -set \"a: date; = b\"", 15, OshWhy::BadValue),
    (
        "transform -set \"nullable a: date = b\"",
        15,
        OshWhy::BadValue,
    ),
    ("transform -set \"'a': date = b\"", 15, OshWhy::BadValue),
    ("transform -set \"a: date = b $\"", 15, OshWhy::BadValue),
    ("transform -set \"a: date $ = b\"", 15, OshWhy::BadValue),
    (
        "transform -set \"n23456789_123456789_123456789_123456789_123456789_123456789_12345: date = b\"",
        15,
        OshWhy::BadValue,
    ),
    (
        "transform -set 'a: date = b' -set 'a: date'",
        34,
        OshWhy::BadValue,
    ),
    (
        "transform -set 'a: date = b' -reject -reject",
        37,
        OshWhy::DoubleOption,
    ),
    ("switch -on a -cases ''", 20, OshWhy::BadValue),
    ("switch -on a -cases '1,1'", 20, OshWhy::BadValue),
    ("switch -on a -cases '0,-0'", 20, OshWhy::BadValue),
    ("switch -on a -cases '1,01'", 20, OshWhy::BadValue),
    ("switch -on a -cases '1.5'", 20, OshWhy::BadValue),
    ("switch -on a -cases '+1'", 20, OshWhy::BadValue),
    (
        "switch -on a -cases '9223372036854775808'",
        20,
        OshWhy::BadValue,
    ),
    (
        "switch -on a -cases '-9223372036854775809'",
        20,
        OshWhy::BadValue,
    ),
    ("switch -on a -cases '1,'", 20, OshWhy::BadValue),
    ("switch -on a -cases '1 2'", 20, OshWhy::BadValue),
    ("switch -on a -cases '--1'", 20, OshWhy::BadValue),
    ("switch -on a -cases 'a'", 20, OshWhy::BadValue),
    ("switch -on a -cases '1,$'", 20, OshWhy::BadValue),
    ("switch -on a -cases -1", 13, OshWhy::BadValue),
    ("switch -on '' -cases 1", 11, OshWhy::BadValue),
    ("switch -on a -on b -cases 1", 13, OshWhy::DoubleOption),
    ("switch -cases 1 -on a -cases 2", 22, OshWhy::DoubleOption),
    ("tsort -key a -key b", 13, OshWhy::DoubleOption),
    ("tsort -key a -key |", 13, OshWhy::BadValue),
    ("tsort -key a -key $", 13, OshWhy::DoubleOption),
    ("tsort -key a -key ''", 13, OshWhy::DoubleOption),
    (
        "export -file a -delim ';' -fixed 5",
        26,
        OshWhy::DoubleOption,
    ),
    ("modify -keep a -drop b", 15, OshWhy::DoubleOption),
    ("funnel -sequence -sort a", 17, OshWhy::DoubleOption),
    ("group -hash -hash", 12, OshWhy::DoubleOption),
    ("export -file a [par]", 15, OshWhy::Constraint),
    (
        "import -file a -schema 'record ( a: date )' [par] $",
        44,
        OshWhy::Constraint,
    ),
    ("dsread -ds a [seq]", 13, OshWhy::Constraint),
    ("dsread -ds a [par]", 13, OshWhy::Constraint),
    ("dsread -ds a [foo]", 14, OshWhy::Syntax),
    ("export -file a [par x", 20, OshWhy::Syntax),
    ("copy [x]", 6, OshWhy::Syntax),
    ("copy [seq", 9, OshWhy::Syntax),
    ("copy < [", 8, OshWhy::Syntax),
    ("copy < [hash]a.v", 12, OshWhy::Syntax),
    ("copy < [foo]a", 8, OshWhy::Syntax),
    ("copy < [auto auto]a", 13, OshWhy::Syntax),
    ("copy < [hash a,a]a.v", 15, OshWhy::Syntax),
    ("copy < [modulus a,b]a", 17, OshWhy::Syntax),
    ("copy < [merge a desc desc]a", 21, OshWhy::Syntax),
    ("copy < [set set]a", 12, OshWhy::Syntax),
    ("copy < 5", 7, OshWhy::Syntax),
    ("copy > [set]a", 7, OshWhy::Syntax),
    ("copy > a b", 9, OshWhy::Syntax),
    ("copy > a [seq]", 9, OshWhy::Syntax),
    ("copy > a.v", 5, OshWhy::Unjoined),
    ("copy > a.v; copy < b.v", 5, OshWhy::Unjoined),
    ("copy < a.v", 5, OshWhy::Unjoined),
    ("copy > a.v > a.v; copy < a.v", 5, OshWhy::Unjoined),
    ("copy > a.v; copy < a.v < a.v", 5, OshWhy::Unjoined),
    ("copy > b.v > a.v; copy < b.v", 11, OshWhy::Unjoined),
];

/// Texts with how many operators and links they have.
static FLOWS: [(&str, usize, usize); 15] = [
    ("copy", 1, 0),
    ("copy;", 1, 0),
    ("nopart; nosort; nopart; copy", 1, 0),
    (
        "import -file 'in.txt' -schema 'record ( id: int32; name: string[max=10]; )' | copy [seq] | export -file out.txt",
        3,
        2,
    ),
    (
        "import -file a -schema 'record ( a: date )' -fixed '10' -reject > a.v > b.v; export -file b -delim \";\" < a.v; dswrite -ds c < b.v",
        3,
        2,
    ),
    (
        "dsread -ds a | [rr] modify -drop 'a,b' -rename 'c=d,e=f' | [hash a,b clear] tsort -key 'a desc,b' | [modulus a] remdup -key a -last [par] | [merge a desc set] group -key a -hash -sum 'o=c' -count n -min 'p=c' -max 'q=c' -first 'r=c' -last 's=c' | [set] copy",
        6,
        5,
    ),
    (
        "copy > a > b; innerjoin -key k < [same] a < [entire] b | leftouterjoin -key k < c; copy > c",
        4,
        4,
    ),
    (
        "copy > a > b > c > d; rightouterjoin -key k < [any] a < [ordered prop] b | [auto] funnel -sequence; fullouterjoin -key k < c < d | funnel -sort 'k desc'",
        5,
        6,
    ),
    (
        "copy > a > b | merge -key k -keepbad -reject < a | lookup -key k -missing continue < b | changecapture -key k -values 'v,w' -keepcopy",
        4,
        5,
    ),
    (
        "filter -where a | filter -where 5 -reject | filter -where \"a == 'x'\"",
        3,
        2,
    ),
    (
        "transform -set 'a: int32 = b' -set \"a: nullable string[max=10] = 'x'\" -reject",
        1,
        0,
    ),
    (
        "switch -on 'a + 1' -cases ' - 1 , 007, 9223372036854775807,-9223372036854775808 # end' -reject > a.v | copy < a.v",
        2,
        2,
    ),
    ("switch -on a -cases 0", 1, 0),
    ("copy # a comment\n| /* [seq] */ copy", 2, 1),
    ("export -file a.b -fixed 5 | copy", 2, 1),
];

/// Texts of one operator, and what is kept of its expression, of a transform the last one's.
static KEPT: [(&str, &str); 8] = [
    ("filter -where a", "a"),
    ("filter -where ' a  ==5 '", "a  ==5"),
    ("filter -where \"/* a */ a + # b\"", ""),
    (
        "filter -where \"/* a */ f( a /* b */ ,'c' )# d\"",
        "f( a /* b */ ,'c' )",
    ),
    ("transform -set 'a: date = b'", "b"),
    (
        "transform -set 'a: date = b' -set 'c :nullable decimal [ 8 ]=\td - 1 '",
        "d - 1",
    ),
    ("switch -on ' /**/a' -cases 1", "a"),
    ("switch -on 1.50 -cases '-1,1' -reject", "1.50"),
];

fn is_refused(alloc: Global, text: &[u8], at: usize, why: OshWhy) -> bool {
    match read_flow(alloc, text) {
        Err(
            OshFault::Bad {
                at: place,
                why: cause,
            },
        ) => place == at && cause == why,
        _ => false,
    }
}

fn has_parts(alloc: Global, text: &[u8], ops: usize, links: usize) -> bool {
    match read_flow(alloc, text) {
        Ok(flow) => flow.ops.as_slice().len() == ops && flow.links.as_slice().len() == links,
        Err(_) => false,
    }
}

fn expression(kind: &OpKind) -> &[u8] {
    match kind {
        OpKind::Filter { test, reject: _ } => test.as_slice(),
        OpKind::Transform { set, reject: _ } => match set.as_slice() {
            [.., last] => last.expr.as_slice(),
            _ => b"",
        },
        OpKind::Switch {
            on,
            cases: _,
            reject: _,
        } => on.as_slice(),
        _ => b"",
    }
}

fn keeps(alloc: Global, text: &[u8], kept: &[u8]) -> bool {
    match read_flow(alloc, text) {
        Ok(flow) => match flow.ops.as_slice() {
            [op] => expression(&op.kind) == kept,
            _ => false,
        },
        Err(_) => kept.is_empty(),
    }
}

/// A filter by a column within so many brackets.
fn nested(alloc: Global, brackets: usize) -> Result<Vec<u8>, Fail> {
    let mut text = Vec::new(alloc);
    text.extend_from_slice(b"filter -where '")?;
    for _count in 0..brackets {
        text.push(b'(')?;
    }
    text.push(b'a')?;
    for _count in 0..brackets {
        text.push(b')')?;
    }
    text.push(b'\'')?;
    Ok(text)
}

/// So many times the one, and then the other.
fn repeated(alloc: Global, count: usize, one: &[u8], last: &[u8]) -> Result<Vec<u8>, Fail> {
    let mut text = Vec::new(alloc);
    for _count in 0..count {
        text.extend_from_slice(one)?;
    }
    text.extend_from_slice(last)?;
    Ok(text)
}

#[test]
fn flows_are_read(rt: HostRuntime) -> Result<(), Fail> {
    let alloc = rt.alloc();
    for (text, at, why) in &FAULTS {
        assert!(rt; is_refused(alloc, text.as_bytes(), *at, *why), "{text}");
    }
    for (text, ops, links) in &FLOWS {
        assert!(rt; has_parts(alloc, text.as_bytes(), *ops, *links), "{text}");
    }
    for (text, kept) in &KEPT {
        assert!(rt; keeps(alloc, text.as_bytes(), kept.as_bytes()), "{text}");
    }
    Ok(())
}

#[test]
fn flows_have_limits(rt: HostRuntime) -> Result<(), Fail> {
    let alloc = rt.alloc();
    assert!(rt; has_parts(alloc, &nested(alloc, 64)?, 1, 0));
    assert!(rt; is_refused(alloc, &nested(alloc, 65)?, 14, OshWhy::BadValue));
    let most = repeated(alloc, 199, b"copy|", b"copy")?;
    assert!(rt; has_parts(alloc, &most, 200, 199));
    let many = repeated(alloc, 200, b"copy|", b"copy -x")?;
    assert!(rt; is_refused(alloc, &many, 1000, OshWhy::TooMany));
    let unknown = repeated(alloc, 200, b"copy|", b"cpoy")?;
    assert!(rt; is_refused(alloc, &unknown, 1000, OshWhy::UnknownOperator));
    let longest = repeated(alloc, 1_048_572, b" ", b"copy")?;
    assert!(rt; has_parts(alloc, &longest, 1, 0));
    let long = repeated(alloc, 1_048_573, b" ", b"copy")?;
    assert!(rt; is_refused(alloc, &long, 1_048_573, OshWhy::UnknownOperator));
    let longer = repeated(alloc, 1_048_572, b" ", b"copy ")?;
    assert!(rt; is_refused(alloc, &longer, 1_048_576, OshWhy::TooLong));
    Ok(())
}
