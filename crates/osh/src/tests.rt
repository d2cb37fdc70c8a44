use crate::arguments::gather;
use crate::still::{lack_memory, osh_still};
use ds_port::{FailsAt, Failures, MemFiles, MemSink, NeverFails};
use ds_value::{Bytes, Name};
use std::alloc::Global;
use std::io;
use std::process::Abort;
use std::test::Fail;

const COPY: &[u8] =
    b"import -file \"in.txt\" -schema 'record ( id: int32; name: string[max=10]; )' | copy [seq] | export -file \"out.txt\"";

const FIRST_PER_KEY: &[u8] =
    b"import -file \"in.txt\" -schema 'record ( id: int32; city: string[max=8]; )' | [hash id] tsort -key id | [same] remdup -key id | [any] export -file \"out.txt\"";

const SPLIT_KEYS: &[u8] =
    b"import -file \"in.txt\" -schema 'record ( a: int32; b: int32; c: int32; )' | [hash a] copy | [hash b] tsort -key b | [same] remdup -key b | [any] export -file \"out.txt\"";

const SAME_INTO_MANY: &[u8] =
    b"import -file \"in.txt\" -schema 'record ( id: int32; name: string[max=10]; )' | [same] copy | [any] export -file \"out.txt\"";

const DEALT: &[u8] =
    b"import -file \"in.txt\" -schema 'record ( id: int32; name: string[max=10]; )' | [rr] copy | [any] export -file \"out.txt\"";

const DOUBLED: &[u8] =
    b"import -file \"in.txt\" -schema 'record ( id: int32; price: nullable decimal[6,2]; )' | filter -where 'id > 1' [seq] | transform -set 'twice: decimal[8,2] = ifnull(price, 0.00) * 2' [seq] | export -file \"out.txt\"";

const DIVIDED: &[u8] =
    b"import -file \"in.txt\" -schema 'record ( id: int32; )' | [rr] transform -set 'part: int32 = 10 / id' | [any] export -file \"out.txt\"";

const PARTED: &[u8] =
    b"import -file \"in.txt\" -schema 'record ( id: int32; name: string[max=4]; )' -fixed '3,4' | filter -where 'id > 0' [seq] | modify -keep 'name,id' -rename 'n=id' [seq] | switch -on 'n % 2' -cases '1' -reject [seq] > rest.v | export -file \"out.txt\" -delim ';'; export -file \"rest.txt\" < rest.v";

const REJECTED: &[u8] =
    b"import -file \"in.txt\" -schema 'record ( id: int32; )' | [hash id] transform -set 'part: int32 = 10 / id' -reject > rest.v | [any] export -file \"out.txt\"; export -file \"rest.txt\" < [any] rest.v";

const OVERFLOWING: &[u8] =
    b"import -file \"in.txt\" -schema 'record ( g: int32; v: int64; )' | tsort -key g [seq] | [same] group -key g -sum 't=v' [seq] | export -file \"out.txt\"";

const GROUPED: &[u8] =
    b"import -file \"in.txt\" -schema 'record ( g: int32; v: int32; )' | [hash g] group -key g -hash -count n -sum 's=v' | [any] export -file \"out.txt\"";

const JOINED: &[u8] =
    b"import -file \"r.txt\" -schema 'record ( k: nullable int32; b: string[max=4]; )' | tsort -key k [seq] > r.v; import -file \"in.txt\" -schema 'record ( k: nullable int32; a: string[max=4]; )' | tsort -key k [seq] | [same] fullouterjoin -key k [seq] < [same] r.v | export -file \"out.txt\"";

const JOINED_APART: &[u8] =
    b"import -file \"r.txt\" -schema 'record ( a: int32; b: int32; )' | [hash b] tsort -key 'a,b' > r.v; import -file \"in.txt\" -schema 'record ( a: int32; b: int32; )' | [hash a] tsort -key 'a,b' | [same] innerjoin -key 'a,b' < [same] r.v | [any] export -file \"out.txt\"";

const LOOKED_EVERYWHERE: &[u8] =
    b"import -file \"r.txt\" -schema 'record ( id: int32; name: string[max=10]; )' > r.v; import -file \"in.txt\" -schema 'record ( id: int32; )' | [rr] lookup -key id -missing continue < [entire] r.v | [any] export -file \"out.txt\"";

const LOOKED_DROPPING: &[u8] =
    b"import -file \"r.txt\" -schema 'record ( id: int32; name: string[max=10]; )' > r.v; import -file \"in.txt\" -schema 'record ( id: int32; )' | lookup -key id -missing drop [seq] < r.v | export -file \"out.txt\"";

const LOOKED_FAILING: &[u8] =
    b"import -file \"r.txt\" -schema 'record ( id: int32; name: string[max=10]; )' > r.v; import -file \"in.txt\" -schema 'record ( id: int32; )' | lookup -key id [seq] < r.v | export -file \"out.txt\"";

const LOOKED_REJECTING: &[u8] =
    b"import -file \"r.txt\" -schema 'record ( id: int32; name: string[max=10]; )' > r.v; import -file \"in.txt\" -schema 'record ( id: int32; )' | lookup -key id -missing reject [seq] < r.v > x.v | export -file \"out.txt\"; export -file \"rest.txt\" < x.v";

const NODE: &[u8] =
    b"\" { fastname \"h\" pools \"\" resource disk \"d\" {pools \"\"} resource scratchdisk \"s\" {pools \"\"} }\n";

fn put<P: Failures>(
    alloc: Global,
    files: &mut MemFiles<P>,
    name: &[u8],
    bytes: &[u8],
) -> Result<(), Fail> {
    let name = Name::from_bytes(alloc, name)?.ok_or("no name")?;
    files.put(name, Bytes::from_vec(bytes.to_vec(alloc)?))?;
    Ok(())
}

/// A configuration of up to nine nodes.
fn config(alloc: Global, nodes: u8) -> Result<Vec<u8>, Fail> {
    let mut text = b"{\n".to_vec(alloc)?;
    for node in 0..nodes.min(9) {
        text.extend_from_slice(b"node \"n")?;
        text.push(b'1' + node)?;
        text.extend_from_slice(NODE)?;
    }
    text.extend_from_slice(b"}\n")?;
    Ok(text)
}

fn run_words(alloc: Global) -> Result<Vec<String>, Fail> {
    Ok(vec![in alloc;
        String::from_str(alloc, "run")?,
        String::from_str(alloc, "-serial")?,
        String::from_str(alloc, "f.osh")?,
        String::from_str(alloc, "c.cfg")?,
    ]?)
}

/// A run: the flow, the number of nodes, the input and what `r.txt` has, and what it comes to: the
/// status, what is on out and on err, and what is written to `out.txt` and to `rest.txt`.
struct Run {
    flow: &'static [u8],
    nodes: u8,
    input: &'static [u8],
    reference: &'static [u8],
    status: u8,
    out: &'static [u8],
    err: &'static [u8],
    written: Option<&'static [u8]>,
    rest: Option<&'static [u8]>,
}

fn compare(rt: &impl Abort, alloc: Global, run: &Run) -> Result<(), Fail> {
    let mut files = MemFiles::new(alloc, NeverFails, NeverFails);
    put(alloc, &mut files, b"f.osh", run.flow)?;
    put(alloc, &mut files, b"c.cfg", &config(alloc, run.nodes)?)?;
    put(alloc, &mut files, b"in.txt", run.input)?;
    put(alloc, &mut files, b"r.txt", run.reference)?;
    let mut out = MemSink::new(alloc, None, NeverFails);
    let mut err = MemSink::new(alloc, None, NeverFails);
    let words = run_words(alloc)?;
    let answered = osh_still(alloc, &words, &mut files, &mut out, &mut err);
    assert_eq!(rt; err.bytes(), run.err);
    assert_eq!(rt; out.bytes(), run.out);
    assert_eq!(rt; answered.0, run.status);
    assert_eq!(rt; files.look_up(b"out.txt"), run.written);
    assert_eq!(rt; files.look_up(b"rest.txt"), run.rest);
    Ok(())
}

const RUNS: [Run; 20] = [
    Run {
        flow: DOUBLED,
        nodes: 2,
        input: b"1,0.50\n2,1.25\n3,\n",
        reference: b"",
        status: 0,
        out: b"score nodes 2\nop 0 import seq 1\nop 1 filter seq 1\nop 2 transform seq 1\nop 3 export seq 1\nlink 0 0.0 1.0 same\nlink 1 1.0 2.0 same\nlink 2 2.0 3.0 same\nplayers 4\nverdict accepted\nlink 0 agree() solo sort()\nlink 1 agree() solo sort()\nlink 2 agree() solo sort()\nsink 3 exact\ncount 0 3\ncount 1 2\ncount 2 2\nstatus 0\n",
        err: b"",
        written: Some(b"2,1.25,2.50\n3,,0.00\n"),
        rest: None,
    },
    Run {
        flow: DIVIDED,
        nodes: 2,
        input: b"5\n0\n-3\n0\n",
        reference: b"",
        status: 9,
        out: b"score nodes 2\nop 0 import seq 1\nop 1 transform par 2\nop 2 export seq 1\nlink 0 0.0 1.0 rr\nlink 1 1.0 2.0 any\nplayers 4\nverdict accepted\nlink 0 bag none sort()\nlink 1 bag solo sort()\nsink 2 bag\nfaults 2\nleast op 1 ZeroDivisor 0 010000000000000000\nstatus 9\n",
        err: b"",
        written: None,
        rest: None,
    },
    Run {
        flow: COPY,
        nodes: 1,
        input: b"+01,\"a,b\"\r\n-2,\"d \"\"e\"\"\"",
        reference: b"",
        status: 0,
        out: b"score nodes 1\nop 0 import seq 1\nop 1 copy seq 1\nop 2 export seq 1\nlink 0 0.0 1.0 same\nlink 1 1.0 2.0 same\nplayers 3\nverdict accepted\nlink 0 agree() solo sort()\nlink 1 agree() solo sort()\nsink 2 exact\ncount 0 2\ncount 1 2\nstatus 0\n",
        err: b"",
        written: Some(b"1,\"a,b\"\n-2,\"d \"\"e\"\"\"\n"),
        rest: None,
    },
    Run {
        flow: COPY,
        nodes: 4,
        input: b"1,ann\nx,bob\n3,cy\n",
        reference: b"",
        status: 9,
        out: b"score nodes 4\nop 0 import seq 1\nop 1 copy seq 1\nop 2 export seq 1\nlink 0 0.0 1.0 same\nlink 1 1.0 2.0 same\nplayers 3\nverdict accepted\nlink 0 agree() solo sort()\nlink 1 agree() solo sort()\nsink 2 exact\nfaults 1\nleast op 0 BadRecord 2 782c626f62\nstatus 9\n",
        err: b"",
        written: None,
        rest: None,
    },
    Run {
        flow: FIRST_PER_KEY,
        nodes: 4,
        input: b"2,rome\n1,oslo\n2,bern\n3,kyiv\n1,lima\n4,rome\n",
        reference: b"",
        status: 0,
        out: b"score nodes 4\nop 0 import seq 1\nop 1 tsort par 4\nop 2 remdup par 4\nop 3 export seq 1\nlink 0 0.0 1.0 hash(id)\nlink 1 1.0 2.0 same\nlink 2 2.0 3.0 any\nplayers 10\nverdict accepted\nlink 0 agree(id) hash(id) sort()\nlink 1 agree(id) hash(id) sort(id)\nlink 2 agree(id) solo sort()\nsink 3 by id\ncount 0 6\ncount 1 6\ncount 2 4\nstatus 0\n",
        err: b"",
        written: Some(b"4,rome\n3,kyiv\n2,rome\n1,oslo\n"),
        rest: None,
    },
    Run {
        flow: FIRST_PER_KEY,
        nodes: 1,
        input: b"2,rome\n1,oslo\n2,bern\n",
        reference: b"",
        status: 0,
        out: b"score nodes 1\nop 0 import seq 1\nop 1 tsort par 1\nop 2 remdup par 1\nop 3 export seq 1\nlink 0 0.0 1.0 hash(id)\nlink 1 1.0 2.0 same\nlink 2 2.0 3.0 any\nplayers 4\nverdict accepted\nlink 0 agree(id) hash(id) sort()\nlink 1 agree(id) hash(id) sort(id)\nlink 2 agree(id) solo sort()\nsink 3 by id\ncount 0 3\ncount 1 3\ncount 2 2\nstatus 0\n",
        err: b"",
        written: Some(b"1,oslo\n2,rome\n"),
        rest: None,
    },
    Run {
        flow: SPLIT_KEYS,
        nodes: 1,
        input: b"1,2,3\n",
        reference: b"",
        status: 5,
        out: b"verdict refused link 2 need agree(b) have agree(a,b) hash(b) sort(b)\nstatus 5\n",
        err: b"",
        written: None,
        rest: None,
    },
    Run {
        flow: SPLIT_KEYS,
        nodes: 4,
        input: b"1,2,3\n",
        reference: b"",
        status: 5,
        out: b"verdict refused link 2 need agree(b) have agree(a,b) hash(b) sort(b)\nstatus 5\n",
        err: b"",
        written: None,
        rest: None,
    },
    Run {
        flow: SAME_INTO_MANY,
        nodes: 4,
        input: b"1,ann\n",
        reference: b"",
        status: 6,
        out: b"",
        err: b"osh: degree link 0 1 4\n",
        written: None,
        rest: None,
    },
    Run {
        flow: DEALT,
        nodes: 2,
        input: b"1,ann\n2,bob\n3,cy\n",
        reference: b"",
        status: 0,
        out: b"score nodes 2\nop 0 import seq 1\nop 1 copy par 2\nop 2 export seq 1\nlink 0 0.0 1.0 rr\nlink 1 1.0 2.0 any\nplayers 4\nverdict accepted\nlink 0 bag none sort()\nlink 1 bag solo sort()\nsink 2 bag\ncount 0 3\ncount 1 3\nstatus 0\n",
        err: b"",
        written: Some(b"1,ann\n3,cy\n2,bob\n"),
        rest: None,
    },
    Run {
        flow: PARTED,
        nodes: 1,
        input: b"  7ann \n -2bob\n 10cid\n  3dave\n",
        reference: b"",
        status: 0,
        out: b"score nodes 1\nop 0 import seq 1\nop 1 filter seq 1\nop 2 modify seq 1\nop 3 switch seq 1\nop 4 export seq 1\nop 5 export seq 1\nlink 0 0.0 1.0 same\nlink 1 1.0 2.0 same\nlink 2 2.0 3.0 same\nlink 3 3.0 4.0 same\nlink 4 3.1 5.0 same\nplayers 6\nverdict accepted\nlink 0 agree() solo sort()\nlink 1 agree() solo sort()\nlink 2 agree() solo sort()\nlink 3 agree() solo sort()\nlink 4 agree() solo sort()\nsink 4 exact\nsink 5 exact\ncount 0 4\ncount 1 3\ncount 2 3\ncount 3 2\ncount 4 1\nstatus 0\n",
        err: b"",
        written: Some(b"ann;7\ndave;3\n"),
        rest: Some(b"cid,10\n"),
    },
    Run {
        flow: REJECTED,
        nodes: 2,
        input: b"5\n0\n-3\n0\n",
        reference: b"",
        status: 0,
        out: b"score nodes 2\nop 0 import seq 1\nop 1 transform par 2\nop 2 export seq 1\nop 3 export seq 1\nlink 0 0.0 1.0 hash(id)\nlink 1 1.0 2.0 any\nlink 2 1.1 3.0 any\nplayers 5\nverdict accepted\nlink 0 bag hash(id) sort()\nlink 1 agree(id) solo sort()\nlink 2 bag solo sort()\nsink 2 by id\nsink 3 bag\ncount 0 4\ncount 1 2\ncount 2 2\nstatus 0\n",
        err: b"",
        written: Some(b"-3,-3\n5,2\n"),
        rest: Some(b"0\n0\n"),
    },
    Run {
        flow: OVERFLOWING,
        nodes: 4,
        input: b"1,9223372036854775806\n1,1\n2,9223372036854775807\n2,1\n3,-9223372036854775808\n3,-1\n",
        reference: b"",
        status: 9,
        out: b"score nodes 4\nop 0 import seq 1\nop 1 tsort seq 1\nop 2 group seq 1\nop 3 export seq 1\nlink 0 0.0 1.0 same\nlink 1 1.0 2.0 same\nlink 2 2.0 3.0 same\nplayers 4\nverdict accepted\nlink 0 agree() solo sort()\nlink 1 agree() solo sort(g)\nlink 2 agree() solo sort(g)\nsink 3 exact\nfaults 2\nleast op 2 Overflow 0 010000000000000002\nstatus 9\n",
        err: b"",
        written: None,
        rest: None,
    },
    Run {
        flow: GROUPED,
        nodes: 3,
        input: b"1,7\n4,1\n2,5\n2,3\n1,1\n4,2\n3,9\n",
        reference: b"",
        status: 0,
        out: b"score nodes 3\nop 0 import seq 1\nop 1 group par 3\nop 2 export seq 1\nlink 0 0.0 1.0 hash(g)\nlink 1 1.0 2.0 any\nplayers 5\nverdict accepted\nlink 0 agree(g) hash(g) sort()\nlink 1 agree(g) solo sort()\nsink 2 by g\ncount 0 7\ncount 1 4\nstatus 0\n",
        err: b"",
        written: Some(b"4,2,3\n2,2,8\n3,1,9\n1,2,8\n"),
        rest: None,
    },
    Run {
        flow: JOINED,
        nodes: 1,
        input: b",x\n1,y\n",
        reference: b",p\n2,q\n",
        status: 0,
        out: b"score nodes 1\nop 0 import seq 1\nop 1 tsort seq 1\nop 2 import seq 1\nop 3 tsort seq 1\nop 4 fullouterjoin seq 1\nop 5 export seq 1\nlink 0 0.0 1.0 same\nlink 1 2.0 3.0 same\nlink 2 3.0 4.0 same\nlink 3 1.0 4.1 same\nlink 4 4.0 5.0 same\nplayers 6\nverdict accepted\nlink 0 agree() solo sort()\nlink 1 agree() solo sort()\nlink 2 agree() solo sort(k)\nlink 3 agree() solo sort(k)\nlink 4 agree(k) solo sort(k)\nsink 5 by k\ncount 0 2\ncount 1 2\ncount 2 2\ncount 3 2\ncount 4 3\nstatus 0\n",
        err: b"",
        written: Some(b",x,p\n1,y,\n2,,q\n"),
        rest: None,
    },
    Run {
        flow: JOINED_APART,
        nodes: 2,
        input: b"1,2\n",
        reference: b"1,2\n",
        status: 5,
        out: b"verdict refused link 3 need place hash(a) have agree(b) hash(b) sort(a,b)\nstatus 5\n",
        err: b"",
        written: None,
        rest: None,
    },
    Run {
        flow: LOOKED_EVERYWHERE,
        nodes: 2,
        input: b"1\n2\n3\n",
        reference: b"1,x\n1,y\n3,z\n",
        status: 0,
        out: b"score nodes 2\nop 0 import seq 1\nop 1 import seq 1\nop 2 lookup par 2\nop 3 export seq 1\nlink 0 1.0 2.0 rr\nlink 1 0.0 2.1 entire\nlink 2 2.0 3.0 any\nplayers 5\nverdict accepted\nlink 0 bag none sort()\nlink 1 agree() entire sort()\nlink 2 bag solo sort()\nsink 3 bag\ncount 0 3\ncount 1 3\ncount 2 3\nstatus 0\n",
        err: b"",
        written: Some(b"1,x\n3,z\n2,\n"),
        rest: None,
    },
    Run {
        flow: LOOKED_DROPPING,
        nodes: 1,
        input: b"1\n2\n",
        reference: b"1,x\n1,y\n",
        status: 0,
        out: b"score nodes 1\nop 0 import seq 1\nop 1 import seq 1\nop 2 lookup seq 1\nop 3 export seq 1\nlink 0 1.0 2.0 same\nlink 1 0.0 2.1 same\nlink 2 2.0 3.0 same\nplayers 4\nverdict accepted\nlink 0 agree() solo sort()\nlink 1 agree() solo sort()\nlink 2 agree() solo sort()\nsink 3 exact\ncount 0 2\ncount 1 2\ncount 2 1\nstatus 0\n",
        err: b"",
        written: Some(b"1,x\n"),
        rest: None,
    },
    Run {
        flow: LOOKED_FAILING,
        nodes: 1,
        input: b"1\n2\n",
        reference: b"1,x\n1,y\n",
        status: 9,
        out: b"score nodes 1\nop 0 import seq 1\nop 1 import seq 1\nop 2 lookup seq 1\nop 3 export seq 1\nlink 0 1.0 2.0 same\nlink 1 0.0 2.1 same\nlink 2 2.0 3.0 same\nplayers 4\nverdict accepted\nlink 0 agree() solo sort()\nlink 1 agree() solo sort()\nlink 2 agree() solo sort()\nsink 3 exact\nfaults 1\nleast op 2 Missing 0 010000000000000002\nstatus 9\n",
        err: b"",
        written: None,
        rest: None,
    },
    Run {
        flow: LOOKED_REJECTING,
        nodes: 1,
        input: b"1\n2\n",
        reference: b"1,x\n1,y\n",
        status: 0,
        out: b"score nodes 1\nop 0 import seq 1\nop 1 import seq 1\nop 2 lookup seq 1\nop 3 export seq 1\nop 4 export seq 1\nlink 0 1.0 2.0 same\nlink 1 0.0 2.1 same\nlink 2 2.0 3.0 same\nlink 3 2.1 4.0 same\nplayers 5\nverdict accepted\nlink 0 agree() solo sort()\nlink 1 agree() solo sort()\nlink 2 agree() solo sort()\nlink 3 agree() solo sort()\nsink 3 exact\nsink 4 exact\ncount 0 2\ncount 1 2\ncount 2 1\ncount 3 1\nstatus 0\n",
        err: b"",
        written: Some(b"1,x\n"),
        rest: Some(b"2\n"),
    },
];

#[test]
fn runs_come_to_their_ends(rt: HostRuntime) -> Result<(), Fail> {
    let alloc = rt.alloc();
    for run in &RUNS {
        compare(&rt, alloc, run)?;
    }
    Ok(())
}

// Words, and the status and the line on err that they come to where no file is there.
#[test]
fn words_come_to_their_ends(rt: HostRuntime) -> Result<(), Fail> {
    let alloc = rt.alloc();
    for (words, status, line) in [
        ("", 1, b"osh: usage\n".as_slice()),
        ("check", 1, b"osh: usage\n"),
        ("run -serial f.osh", 1, b"osh: usage\n"),
        ("run -serial -cap 0 f.osh c.cfg", 1, b"osh: usage\n"),
        ("run f.osh c.cfg", 8, b"osh: unbuilt\n"),
        ("score f.osh c.cfg", 8, b"osh: unbuilt\n"),
        ("meaning f.osh", 8, b"osh: unbuilt\n"),
        ("gen 10 1", 8, b"osh: unbuilt\n"),
        ("check f.osh", 7, b"osh: absent \"f.osh\"\n"),
        ("run -serial f.osh c.cfg", 7, b"osh: absent \"f.osh\"\n"),
    ] {
        let mut all = Vec::new(alloc);
        for word in words.split(' ').filter(|word| !word.is_empty()) {
            all.push(String::from_str(alloc, word)?)?;
        }
        let mut files = MemFiles::new(alloc, NeverFails, NeverFails);
        let mut out = MemSink::new(alloc, None, NeverFails);
        let mut err = MemSink::new(alloc, None, NeverFails);
        let answered = osh_still(alloc, &all, &mut files, &mut out, &mut err);
        assert_eq!(rt; err.bytes(), line);
        assert_eq!(rt; out.bytes(), b"".as_slice());
        assert_eq!(rt; answered.0, status);
    }
    Ok(())
}

// Each call of files fails in turn, then each of their inputs and outputs, of out and of err.
#[test]
fn each_failing_call_is_told(rt: HostRuntime) -> Result<(), Fail> {
    let alloc = rt.alloc();
    let words = run_words(alloc)?;
    for (own, inner, printed, told, status) in [
        (0, 99, 99, 99, 10),
        (1, 99, 99, 99, 10),
        (2, 99, 99, 99, 10),
        (3, 99, 99, 99, 10),
        (4, 99, 99, 99, 10),
        (99, 0, 99, 99, 10),
        (99, 1, 99, 99, 10),
        (99, 99, 0, 99, 10),
        (99, 99, 1, 99, 10),
        (99, 99, 99, 0, 0),
        (99, 99, 99, 99, 0),
    ] {
        let (own, inner) = (vec![in alloc; own]?, vec![in alloc; inner]?);
        let mut files = MemFiles::new(alloc, FailsAt::new(own), FailsAt::new(inner));
        put(alloc, &mut files, b"f.osh", COPY)?;
        put(alloc, &mut files, b"c.cfg", &config(alloc, 1)?)?;
        put(alloc, &mut files, b"in.txt", b"7,a\n")?;
        let mut out = MemSink::new(alloc, None, FailsAt::new(vec![in alloc; printed]?));
        let mut err = MemSink::new(alloc, None, FailsAt::new(vec![in alloc; told]?));
        let answered = osh_still(alloc, &words, &mut files, &mut out, &mut err);
        assert_eq!(rt; answered.0, status);
        assert_eq!(rt;
            files.look_up(b"out.txt").is_some(),
            status == 0 || printed < 99
        );
    }
    Ok(())
}

/// A call over two sinks in which a call of files or of err fails, or whose input has faults: the
/// numbers of the calls that fail, and what it comes to.
struct Failing {
    flow: &'static [u8],
    input: &'static [u8],
    files: u64,
    told: u64,
    status: u8,
    err: &'static [u8],
    written: Option<&'static [u8]>,
    rest: Option<&'static [u8]>,
}

// The commit of the second sink, then that of the first, fail; then err where a line is due; the
// last has faults.
static FAILING: [Failing; 5] = [
    Failing {
        flow: PARTED,
        input: b"  7ann \n 10cid\n",
        files: 6,
        told: 99,
        status: 10,
        err: b"osh: device\n",
        written: Some(b"ann;7\n"),
        rest: None,
    },
    Failing {
        flow: PARTED,
        input: b"  7ann \n 10cid\n",
        files: 5,
        told: 99,
        status: 10,
        err: b"osh: device\n",
        written: None,
        rest: None,
    },
    Failing {
        flow: PARTED,
        input: b"  7ann \n 10cid\n",
        files: 0,
        told: 0,
        status: 10,
        err: b"",
        written: None,
        rest: None,
    },
    Failing {
        flow: b"import",
        input: b"",
        files: 99,
        told: 0,
        status: 2,
        err: b"",
        written: None,
        rest: None,
    },
    Failing {
        flow: PARTED,
        input: b"  7ann \n  xcid\n",
        files: 99,
        told: 99,
        status: 9,
        err: b"",
        written: None,
        rest: None,
    },
];

#[test]
fn what_was_made_stays(rt: HostRuntime) -> Result<(), Fail> {
    let alloc = rt.alloc();
    let words = run_words(alloc)?;
    for run in &FAILING {
        let own = FailsAt::new(vec![in alloc; run.files]?);
        let mut files = MemFiles::new(alloc, own, FailsAt::new(Vec::new(alloc)));
        put(alloc, &mut files, b"f.osh", run.flow)?;
        put(alloc, &mut files, b"c.cfg", &config(alloc, 1)?)?;
        put(alloc, &mut files, b"in.txt", run.input)?;
        let mut out = MemSink::new(alloc, None, NeverFails);
        let mut err = MemSink::new(alloc, None, FailsAt::new(vec![in alloc; run.told]?));
        let answered = osh_still(alloc, &words, &mut files, &mut out, &mut err);
        assert_eq!(rt; answered.0, run.status);
        assert_eq!(rt; err.bytes(), run.err);
        assert_eq!(rt; out.bytes().is_empty(), run.status != 9);
        assert_eq!(rt; files.look_up(b"out.txt"), run.written);
        assert_eq!(rt; files.look_up(b"rest.txt"), run.rest);
    }
    Ok(())
}

#[test]
fn arguments_become_words(rt: HostRuntime) -> Result<(), Fail> {
    let alloc = rt.alloc();
    let mut args = Vec::new(alloc);
    for word in ["osh", "check", "f.osh"] {
        args.push(String::from_str(alloc, word)?)?;
    }
    let words = gather(alloc, Ok(args.into_iter()))?;
    assert_eq!(rt; words.len(), 2);
    assert_eq!(rt; words.first().map(|word| word.as_str()), Some("check"));
    let unread = io::Error::from(io::ErrorKind::InvalidData);
    assert_eq!(rt; gather(alloc, Err(unread))?.len(), 0);
    let refused = io::Error::from(io::ErrorKind::OutOfMemory);
    assert!(rt; gather(alloc, Err(refused)).is_err());
    let mut err = MemSink::new(alloc, None, NeverFails);
    assert_eq!(rt; lack_memory(alloc, &mut err).0, 12);
    assert_eq!(rt; err.bytes(), b"osh: memory\n".as_slice());
    Ok(())
}
