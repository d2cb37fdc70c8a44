use ds_port::{MemFiles, MemSink, NeverFails};
use ds_value::{Bytes, Name};
use osh_call::{Answer, check, say, status};
use std::alloc::Global;
use std::test::Fail;

fn name_of(alloc: Global) -> Result<Name, Fail> {
    Ok(Name::from_bytes(alloc, b"f.osh")?.ok_or("no name")?)
}

/// Checks a flow, and tells whether this is printed, with this status and this line on err.
fn is_told(
    alloc: Global,
    flow: &[u8],
    printed: &[u8],
    ended: u8,
    line: &[u8],
) -> Result<bool, Fail> {
    let mut files = MemFiles::new(alloc, NeverFails, NeverFails);
    files.put(name_of(alloc)?, Bytes::from_vec(flow.to_vec(alloc)?))?;
    let mut out = MemSink::new(alloc, None, NeverFails);
    let mut err = MemSink::new(alloc, None, NeverFails);
    let answer: Answer = check(alloc, &mut files, &mut out, &name_of(alloc)?);
    let said = say(alloc, &mut err, answer);
    Ok(out.bytes() == printed && err.bytes() == line && status(&said) == ended)
}

// Flows and what is printed of their verdicts.
static VERDICTS: [(&[u8], &[u8], u8); 24] = [
    (
        b"import -file \"in.txt\" -schema 'record ( id: int32; )' | [any] copy [seq] | [any] export -file \"out.txt\"",
        b"verdict accepted\nlink 0 agree() solo sort()\nlink 1 agree() solo sort()\nsink 2 exact\nstatus 0\n",
        0,
    ),
    (
        b"import -file \"in.txt\" -schema 'record ( k: int32; v: string[max=4]; )' | tsort -key k [seq] | [rr] copy | [any] export -file \"out.txt\"",
        b"verdict accepted\nlink 0 agree() solo sort()\nlink 1 bag none sort(k)\nlink 2 bag solo sort()\nsink 3 bag\nstatus 0\n",
        0,
    ),
    (
        b"import -file \"c.txt\" -schema 'record ( id: int32; city: string[max=8]; )' | tsort -key 'id desc' [seq] | [same] remdup -key 'id desc' -last [seq] | export -file \"out.txt\"",
        b"verdict accepted\nlink 0 agree() solo sort()\nlink 1 agree() solo sort(id desc)\nlink 2 agree() solo sort(id desc)\nsink 3 exact\nstatus 0\n",
        0,
    ),
    (
        b"import -file \"in.txt\" -schema 'record ( id: int32; name: string[max=10]; )' | [rr] copy | [any] export -file \"out.txt\"",
        b"verdict accepted\nlink 0 bag none sort()\nlink 1 bag solo sort()\nsink 2 bag\nstatus 0\n",
        0,
    ),
    (
        b"export -file \"out.txt\" < b.v; copy [seq] < a.v > b.v; import -file \"in.txt\" -schema 'record ( id: int32; )' > a.v",
        b"verdict accepted\nlink 0 agree() solo sort()\nlink 1 agree() solo sort()\nsink 0 exact\nstatus 0\n",
        0,
    ),
    (
        b"import -file \"in.txt\" -schema 'record ( id: int32; name: string[max=10]; )' | [rr] remdup -key id | [any] export -file \"out.txt\"",
        b"verdict refused link 0 need agree(id) have bag none sort()\nstatus 5\n",
        5,
    ),
    (
        b"import -file \"c.txt\" -schema 'record ( id: int32; city: string[max=8]; )' | [hash id] tsort -key id | [same] remdup -key id | [any] export -file \"out.txt\"",
        b"verdict accepted\nlink 0 agree(id) hash(id) sort()\nlink 1 agree(id) hash(id) sort(id)\nlink 2 agree(id) solo sort()\nsink 3 by id\nstatus 0\n",
        0,
    ),
    (
        b"import -file \"in.txt\" -schema 'record ( id: int32; name: string[max=10]; )' | [hash id] remdup -key id | [any] export -file \"out.txt\"",
        b"verdict refused link 0 need sort(id) have agree(id) hash(id) sort()\nstatus 5\n",
        5,
    ),
    (
        b"import -file \"in.txt\" -schema 'record ( id: int32; name: string[max=10]; )' | [same] copy | [any] export -file \"out.txt\"",
        b"verdict accepted\nlink 0 agree() solo sort()\nlink 1 agree() solo sort()\nsink 2 exact\nstatus 0\n",
        0,
    ),
    (
        b"import -file \"in.txt\" -schema 'record ( id: int32; )' | [rr] copy | [same] export -file \"out.txt\"",
        b"verdict accepted\nlink 0 bag none sort()\nlink 1 bag none sort()\nsink 2 bag\nstatus 0\n",
        0,
    ),
    (
        b"import -file \"in.txt\" -schema 'record ( a: int32; b: int32; c: int32; )' | [hash a] copy | [hash b] tsort -key b | [same] remdup -key b | [any] export -file \"out.txt\"",
        b"verdict refused link 2 need agree(b) have agree(a,b) hash(b) sort(b)\nstatus 5\n",
        5,
    ),
    (
        b"import -file \"c.txt\" -schema 'record ( id: int32; city: string[max=8]; )' | tsort -key id [seq] | export -file \"out.txt\"",
        b"verdict accepted\nlink 0 agree() solo sort()\nlink 1 agree() solo sort(id)\nsink 2 exact\nstatus 0\n",
        0,
    ),
    (
        b"import -file \"in.txt\" -schema 'record ( a: int32; b: int32; c: int32; )' | tsort -key 'a,b' [seq] | tsort -key 'b desc' [seq] | copy [seq] | export -file \"out.txt\"",
        b"verdict accepted\nlink 0 agree() solo sort()\nlink 1 agree() solo sort(a,b)\nlink 2 agree() solo sort(b desc,a)\nlink 3 agree() solo sort(b desc,a)\nsink 4 exact\nstatus 0\n",
        0,
    ),
    (
        b"import -file \"in.txt\" -schema 'record ( id: int32; name: string[max=10]; )' | copy [seq] | export -file \"out.txt\"\n",
        b"verdict accepted\nlink 0 agree() solo sort()\nlink 1 agree() solo sort()\nsink 2 exact\nstatus 0\n",
        0,
    ),
    (
        b"import -file \"in.txt\" -schema 'record ( id: int32; )' | filter -where 'id > 1' -reject [seq] > a.v > b.v; export -file \"out.txt\" < a.v; export -file \"bad.txt\" < b.v",
        b"verdict accepted\nlink 0 agree() solo sort()\nlink 1 agree() solo sort()\nlink 2 agree() solo sort()\nsink 2 exact\nsink 3 exact\nstatus 0\n",
        0,
    ),
    (
        b"import -file \"in.txt\" -schema 'record ( id: int32; )' | switch -on 'id % 3' -cases '0,1' -reject [seq] > a.v > b.v > c.v; export -file \"a.txt\" < a.v; export -file \"b.txt\" < b.v; export -file \"c.txt\" < c.v",
        b"verdict accepted\nlink 0 agree() solo sort()\nlink 1 agree() solo sort()\nlink 2 agree() solo sort()\nlink 3 agree() solo sort()\nsink 2 exact\nsink 3 exact\nsink 4 exact\nstatus 0\n",
        0,
    ),
    (
        b"import -file \"in.txt\" -schema 'record ( a: int32; b: int32; )' | [hash a] transform -set 'b: int32 = a + 1' -set 'c: int32 = b' | [any] export -file \"out.txt\"",
        b"verdict accepted\nlink 0 agree(a) hash(a) sort()\nlink 1 agree(a) solo sort()\nsink 2 by a\nstatus 0\n",
        0,
    ),
    (
        b"import -file \"in.txt\" -schema 'record ( a: int32; b: int32; )' | [hash a] transform -set 'a: int32 = b' | [any] export -file \"out.txt\"",
        b"verdict accepted\nlink 0 agree(a) hash(a) sort()\nlink 1 bag solo sort()\nsink 2 bag\nstatus 0\n",
        0,
    ),
    (
        b"import -file \"in.txt\" -schema 'record ( a: int32; b: int32; )' | [hash a] modify -rename 'x=a' | [any] export -file \"out.txt\"",
        b"verdict accepted\nlink 0 agree(a) hash(a) sort()\nlink 1 agree(x) solo sort()\nsink 2 by x\nstatus 0\n",
        0,
    ),
    (
        b"import -file \"in.txt\" -schema 'record ( id: int32; name: string[max=10]; )' | [entire] copy | [any] export -file \"out.txt\"",
        b"verdict refused link 0 need notentire have agree() entire sort()\nstatus 5\n",
        5,
    ),
    (
        b"import -file \"r.txt\" -schema 'record ( id: int32; city: string[max=8]; )' > r.v; import -file \"in.txt\" -schema 'record ( id: int32; name: string[max=10]; )' | [rr] lookup -key id < [entire] r.v | [any] export -file \"out.txt\"",
        b"verdict accepted\nlink 0 bag none sort()\nlink 1 agree() entire sort()\nlink 2 bag solo sort()\nsink 3 bag\nstatus 0\n",
        0,
    ),
    (
        b"import -file \"r.txt\" -schema 'record ( id: int32; city: string[max=8]; )' > r.v; import -file \"in.txt\" -schema 'record ( id: int32; name: string[max=10]; )' | [rr] lookup -key id < [hash id] r.v | [any] export -file \"out.txt\"",
        b"verdict refused link 1 need reference(id) have agree(id) hash(id) sort()\nstatus 5\n",
        5,
    ),
    (
        b"import -file \"r.txt\" -schema 'record ( k: int32; b: string[max=4]; )' > r.v; import -file \"l.txt\" -schema 'record ( k: int32; a: string[max=4]; )' | [hash a] tsort -key k | [same] innerjoin -key k < [hash k] r.v | [any] export -file \"out.txt\"",
        b"verdict refused link 1 need placed(k) have agree(a) hash(a) sort(k)\nstatus 5\n",
        5,
    ),
    (
        b"import -file \"r.txt\" -schema 'record ( k: int32; b: string[max=4]; )' > r.v; import -file \"l.txt\" -schema 'record ( k: int32; a: string[max=4]; )' | tsort -key k [seq] | [same] innerjoin -key k < [hash k] r.v | [any] export -file \"out.txt\"",
        b"verdict refused link 2 need place solo have agree(k) hash(k) sort()\nstatus 5\n",
        5,
    ),
];

#[test]
fn flows_have_their_verdicts(rt: HostRuntime) -> Result<(), Fail> {
    for (flow, printed, ended) in &VERDICTS {
        assert!(rt;
            is_told(rt.alloc(), flow, printed, *ended, b"")?,
            "{flow:?}"
        );
    }
    Ok(())
}

// Texts that are no flow, flows without a shape, and flows that aren't built.
static STOPS: [(&[u8], u8, &[u8]); 9] = [
    (b"", 2, b"osh: flow 0 Syntax\n"),
    (b"import", 2, b"osh: flow 0 MissingOption\n"),
    (b"import -file \"in", 2, b"osh: flow 13 Token\n"),
    (
        b"import -file \"in.txt\" -schema 'record ( id: int32; name: string[max=10]; )' | tsort -key zip [seq] | export -file \"out.txt\"",
        4,
        b"osh: shape Field op 1\n",
    ),
    (
        b"import -file \"a\" -schema 'record ( id: int32; )' | export -file \"a.part\"",
        4,
        b"osh: shape Files op 1\n",
    ),
    (
        b"nosort; import -file \"in.txt\" -schema 'record ( id: int32; )' | export -file \"out.txt\"",
        8,
        b"osh: unbuilt\n",
    ),
    (
        b"import -file \"in.txt\" -schema 'record ( id: int32; )' | funnel -sequence [seq] | export -file \"out.txt\"",
        8,
        b"osh: unbuilt\n",
    ),
    (
        b"import -file \"in.txt\" -schema 'record ( a: int32; b: int32; )' | transform -set 'q: int32 = a + nosuch' [seq] | export -file \"out.txt\"",
        4,
        b"osh: shape Expression op 1\n",
    ),
    (
        b"import -file \"in.txt\" -schema 'record ( id: int32; name: string[max=10]; )' | [entire] export -file \"out.txt\"",
        4,
        b"osh: shape Method op 1\n",
    ),
];

#[test]
fn what_is_wrong_is_told(rt: HostRuntime) -> Result<(), Fail> {
    for (flow, ended, line) in &STOPS {
        assert!(rt; is_told(rt.alloc(), flow, b"", *ended, line)?, "{flow:?}");
    }
    Ok(())
}
