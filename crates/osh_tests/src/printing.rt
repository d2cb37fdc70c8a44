ghost use Rattle.std.specs.Prelude.{◌<◌};

use ds_schema::{Schema, read_schema};
use ds_value::{Bytes, Copied, Items, Name};
use flow_graph::{AggSpec, Flag, Flow, LinkSpec, Mark, Method, OpKind, OpSpec, SetSpec};
use op_base::Missing;
use osh_print::print_flow;
use osh_read::read_flow;
use std::alloc::Global;
use std::test::Fail;

/// Numbers by a linear congruence.
#[derive(Drop)]
struct Random {
    state: u64,
}

impl Random {
    fn below(&mut self, bound: u64) -> u64
        requires { 0 < bound }
        ensures { result < bound }
    {
        self.state = self
            .state
            .wrapping_mul(6_364_136_223_846_793_005)
            .wrapping_add(1_442_695_040_888_963_407);
        (self.state >> 33) % bound
    }

    fn coin(&mut self) -> bool {
        self.below(2) == 1
    }
}

const TAILS: [u8; 6] = [b'a', b'z', b'_', b'0', b'9', b'X'];

const SCHEMAS: [&str; 3] = [
    "record ( id: int32; name: string[max=10]; )",
    "record ( a: nullable decimal[8,2]; b: date; c: string[3] )",
    "record(x:uint64)",
];

const EXPRESSIONS: [&str; 5] = [
    "a",
    "a + 1 /* one */ * -b",
    "b == 'x' && !(a < 2.5)",
    "concat(c, \"x y\")",
    "12",
];

/// A name that begins with the letter of this number.
fn name(alloc: Global, random: &mut Random, index: u8) -> Result<Name, Fail> {
    let mut bytes = Vec::new(alloc);
    bytes.push(b'a' + index % 26)?;
    for _count in 0..random.below(4) {
        let tail = *TAILS.get(random.below(6) as usize).ok_or("tail")?;
        bytes.push(tail)?;
    }
    Ok(Name::from_bytes(alloc, &bytes)?.ok_or("name")?)
}

fn schema(alloc: Global, random: &mut Random) -> Result<Schema, Fail> {
    let text = SCHEMAS.get(random.below(3) as usize).ok_or("schema")?;
    Ok(read_schema(alloc, text.as_bytes())?)
}

fn names(alloc: Global, random: &mut Random) -> Result<Items<Name>, Fail> {
    let mut names = Items::new(alloc);
    for index in 0..4_u8 {
        if index == 0 || random.coin() {
            names.push(name(alloc, random, index)?)?;
        }
    }
    Ok(names)
}

fn keys(alloc: Global, random: &mut Random) -> Result<Items<(Name, bool)>, Fail> {
    let mut keys = Items::new(alloc);
    for index in 0..4_u8 {
        if index == 0 || random.coin() {
            let name = name(alloc, random, index)?;
            keys.push((name, random.coin()))?;
        }
    }
    Ok(keys)
}

fn pairs(alloc: Global, random: &mut Random) -> Result<Items<(Name, Name)>, Fail> {
    let mut pairs = Items::new(alloc);
    for index in 0..3_u8 {
        if index == 0 || random.coin() {
            let new = name(alloc, random, index)?;
            let old = name(alloc, random, index)?;
            pairs.push((new, old))?;
        }
    }
    Ok(pairs)
}

fn result(alloc: Global, random: &mut Random) -> Result<AggSpec, Fail> {
    let new = name(alloc, random, 3)?;
    let old = name(alloc, random, 7)?;
    Ok(match random.below(6) {
        0 => AggSpec::Sum(new, old),
        1 => AggSpec::Min(new, old),
        2 => AggSpec::Max(new, old),
        3 => AggSpec::First(new, old),
        4 => AggSpec::Last(new, old),
        _ => AggSpec::Count(new),
    })
}

fn results(alloc: Global, random: &mut Random) -> Result<Items<AggSpec>, Fail> {
    let mut results = Items::new(alloc);
    for _count in 0..random.below(4) {
        results.push(result(alloc, random)?)?;
    }
    Ok(results)
}

/// A delimiter, or else widths.
fn form(alloc: Global, random: &mut Random) -> Result<(u8, Option<Items<u32>>), Fail> {
    if random.coin() {
        return Ok((
            *b",;'|".get(random.below(4) as usize).ok_or("delimiter")?,
            None,
        ));
    }
    let mut widths = Items::new(alloc);
    for _count in 0..1 + random.below(3) {
        widths.push(random.below(65536) as u32 + 1)?;
    }
    Ok((b',', Some(widths)))
}

fn ends(alloc: Global, random: &mut Random) -> Result<OpKind, Fail> {
    let file = name(alloc, random, 5)?;
    let (delim, fixed) = form(alloc, random)?;
    Ok(match random.below(4) {
        0 => OpKind::Import {
            file,
            schema: schema(alloc, random)?,
            delim,
            fixed,
            reject: random.coin(),
        },
        1 => OpKind::Export { file, delim, fixed },
        2 => OpKind::Dsread { ds: file },
        _ => OpKind::Dswrite { ds: file },
    })
}

fn missing(random: &mut Random) -> Missing {
    match random.below(4) {
        0 => Missing::Continue,
        1 => Missing::Drop,
        2 => Missing::Fail,
        _ => Missing::Reject,
    }
}

fn keyed(alloc: Global, random: &mut Random) -> Result<OpKind, Fail> {
    let key = keys(alloc, random)?;
    Ok(match random.below(9) {
        0 => OpKind::Tsort { key },
        1 => OpKind::Remdup {
            key,
            last: random.coin(),
        },
        2 => OpKind::InnerJoin { key },
        3 => OpKind::LeftOuterJoin { key },
        4 => OpKind::RightOuterJoin { key },
        5 => OpKind::FullOuterJoin { key },
        6 => OpKind::Merge {
            key,
            keepbad: random.coin(),
            reject: random.coin(),
        },
        7 => OpKind::Lookup {
            key,
            missing: missing(random),
        },
        _ => OpKind::Changecapture {
            key,
            values: names(alloc, random)?,
            keepcopy: random.coin(),
        },
    })
}

fn other(alloc: Global, random: &mut Random) -> Result<OpKind, Fail> {
    Ok(match random.below(6) {
        0 => OpKind::Copy,
        1 => OpKind::Modify {
            keep: names(alloc, random)?,
            drop: Items::new(alloc),
            rename: pairs(alloc, random)?,
        },
        2 => OpKind::Modify {
            keep: Items::new(alloc),
            drop: names(alloc, random)?,
            rename: Items::new(alloc),
        },
        3 => OpKind::Group {
            key: if random.coin() {
                keys(alloc, random)?
            } else {
                Items::new(alloc)
            },
            hash: random.coin(),
            results: results(alloc, random)?,
        },
        4 => OpKind::Funnel {
            sequence: random.coin(),
            sort: Items::new(alloc),
        },
        _ => OpKind::Funnel {
            sequence: false,
            sort: keys(alloc, random)?,
        },
    })
}

/// What is kept of an expression.
fn expression(alloc: Global, random: &mut Random) -> Result<Bytes, Fail> {
    let text = EXPRESSIONS
        .get(random.below(5) as usize)
        .ok_or("expression")?;
    bytes(alloc, text)
}

fn sets(alloc: Global, random: &mut Random) -> Result<Items<SetSpec>, Fail> {
    let mut sets = Items::new(alloc);
    for _count in 0..1 + random.below(3) {
        let schema = schema(alloc, random)?;
        let field = schema.as_slice().first().ok_or("field")?.copied()?;
        let expr = expression(alloc, random)?;
        sets.push(SetSpec { field, expr })?;
    }
    Ok(sets)
}

fn with_expressions(alloc: Global, random: &mut Random) -> Result<OpKind, Fail> {
    Ok(match random.below(3) {
        0 => OpKind::Filter {
            test: expression(alloc, random)?,
            reject: random.coin(),
        },
        1 => OpKind::Transform {
            set: sets(alloc, random)?,
            reject: random.coin(),
        },
        _ => {
            let mut cases = Items::new(alloc);
            for index in 0..1 + random.below(3) {
                let case = index as i64 * 5;
                cases.push(if random.coin() { case } else { -1 - case })?;
            }
            OpKind::Switch {
                on: expression(alloc, random)?,
                cases,
                reject: random.coin(),
            }
        }
    })
}

fn spec(alloc: Global, random: &mut Random) -> Result<OpSpec, Fail> {
    let kind = match random.below(4) {
        0 => ends(alloc, random)?,
        1 => keyed(alloc, random)?,
        2 => with_expressions(alloc, random)?,
        _ => other(alloc, random)?,
    };
    let mark = match &kind {
        OpKind::Import { .. } | OpKind::Export { .. } => Mark::Seq,
        OpKind::Dsread { .. } => Mark::Stored,
        _ => if random.coin() { Mark::Seq } else { Mark::Par },
    };
    Ok(OpSpec { kind, mark })
}

fn method(alloc: Global, random: &mut Random) -> Result<Method, Fail> {
    Ok(match random.below(9) {
        0 => Method::Auto,
        1 => Method::Same,
        2 => Method::RoundRobin,
        3 => Method::Entire,
        4 => Method::Hash(names(alloc, random)?),
        5 => Method::Modulus(name(alloc, random, 0)?),
        6 => Method::Any,
        7 => Method::Ordered,
        _ => Method::Merge(keys(alloc, random)?),
    })
}

fn flag(random: &mut Random) -> Flag {
    match random.below(3) {
        0 => Flag::Set,
        1 => Flag::Clear,
        _ => Flag::Prop,
    }
}

/// A flow of up to five operators, with up to three inputs each from any of them.
fn flow(alloc: Global, random: &mut Random) -> Result<Flow, Fail> {
    let count = 1 + random.below(5) as u32;
    let mut ops = Items::new(alloc);
    for _op in 0..count {
        ops.push(spec(alloc, random)?)?;
    }
    let mut outs = [0_u32; 8];
    let mut links = Items::new(alloc);
    for to in 0..count {
        for port in 0..random.below(4) as u32 {
            let from = random.below(u64::from(count)) as u32;
            let out = *outs.get(from as usize).ok_or("operator")?;
            if let Some(next) = outs.get_mut(from as usize) {
                *next = out.wrapping_add(1);
            }
            links.push(LinkSpec {
                from,
                out,
                to,
                port,
                method: method(alloc, random)?,
                flag: flag(random),
            })?;
        }
    }
    Ok(Flow {
        nopart: random.coin(),
        nosort: random.coin(),
        ops,
        links,
    })
}

const WRITTEN: &str =
    "import -file \"in.txt\" -schema 'record ( id: int32; name: string[max=10] )' | copy [seq] | export -file out.txt";

const PRINTED: &str =
    "import -file \"in.txt\" -schema \"record ( id: int32; name: string[max=10]; )\" > k0.v;\ncopy [seq] < k0.v > k1.v;\nexport -file \"out.txt\" < k1.v;\n";

#[test]
fn flows_read_back(rt: HostRuntime) -> Result<(), Fail> {
    let alloc = rt.alloc();
    let written = read_flow(alloc, WRITTEN.as_bytes())?;
    let printed = print_flow(alloc, &written)?;
    assert!(rt; printed.as_slice() == PRINTED.as_bytes());
    let mut random = Random { state: 1 };
    for _count in 0..1000 {
        let flow = flow(alloc, &mut random)?;
        let text = print_flow(alloc, &flow)?;
        let again = read_flow(alloc, text.as_slice())?;
        let seen = format!(in alloc; "{flow:?}")?;
        let read = format!(in alloc; "{again:?}")?;
        assert!(rt; seen.as_str() == read.as_str(), "{seen}");
    }
    Ok(())
}

fn bytes(alloc: Global, text: &str) -> Result<Bytes, Fail> {
    let mut bytes = Bytes::new(alloc);
    bytes.append(text.as_bytes())?;
    Ok(bytes)
}

fn set(alloc: Global, schema: &str, expr: &str) -> Result<SetSpec, Fail> {
    let schema = read_schema(alloc, schema.as_bytes())?;
    let field = schema.as_slice().first().ok_or("field")?.copied()?;
    Ok(SetSpec {
        field,
        expr: bytes(alloc, expr)?,
    })
}

fn transform(alloc: Global) -> Result<OpKind, Fail> {
    let mut sets = Items::new(alloc);
    sets.push(set(alloc, "record(b:int32)", "a + 1")?)?;
    sets.push(set(alloc, "record(c:nullable decimal[8])", "\"x\"")?)?;
    sets.push(set(alloc, "record(a:string[max=5])", "'x'")?)?;
    sets.push(set(alloc, "record(d:string[3])", "b")?)?;
    Ok(OpKind::Transform {
        set: sets,
        reject: true,
    })
}

fn switch(alloc: Global) -> Result<OpKind, Fail> {
    let mut cases = Items::new(alloc);
    for case in [1_i64, -2, 0, i64::MIN, i64::MAX] {
        cases.push(case)?;
    }
    Ok(OpKind::Switch {
        on: bytes(alloc, "a % 3")?,
        cases,
        reject: false,
    })
}

fn filter(alloc: Global, test: &str, reject: bool) -> Result<OpKind, Fail> {
    Ok(OpKind::Filter {
        test: bytes(alloc, test)?,
        reject,
    })
}

/// The printed text of an operator alone.
fn printed(alloc: Global, kind: OpKind) -> Result<Bytes, Fail> {
    let mut ops = Items::new(alloc);
    ops.push(OpSpec {
        kind,
        mark: Mark::Par,
    })?;
    let flow = Flow {
        nopart: false,
        nosort: false,
        ops,
        links: Items::new(alloc),
    };
    Ok(print_flow(alloc, &flow)?)
}

/// Whether an operator alone is printed so.
fn is_printed(alloc: Global, kind: OpKind, wanted: &str) -> Result<bool, Fail> {
    let text = printed(alloc, kind)?;
    Ok(text.as_slice() == wanted.as_bytes())
}

const TESTED: &str = "filter -where \"a == 'x'\" -reject;\n";

const QUOTED: &str = "filter -where 'a == \"x\"';\n";

const SETS: &str =
    "transform -set \"b: int32 = a + 1\" -set 'c: nullable decimal[8,0] = \"x\"' -set \"a: string[max=5] = 'x'\" -set \"d: string[3] = b\" -reject;\n";

const SWITCHED: &str =
    "switch -on \"a % 3\" -cases \"1,-2,0,-9223372036854775808,9223372036854775807\";\n";

#[test]
fn filters_are_printed(rt: HostRuntime) -> Result<(), Fail> {
    let alloc = rt.alloc();
    let tested = filter(alloc, "a == 'x'", true)?;
    assert!(rt; is_printed(alloc, tested, TESTED)?);
    let quoted = filter(alloc, "a == \"x\"", false)?;
    assert!(rt; is_printed(alloc, quoted, QUOTED)?);
    Ok(())
}

#[test]
fn sets_and_cases_are_printed(rt: HostRuntime) -> Result<(), Fail> {
    let alloc = rt.alloc();
    let set = transform(alloc)?;
    assert!(rt; is_printed(alloc, set, SETS)?);
    let switched = switch(alloc)?;
    assert!(rt; is_printed(alloc, switched, SWITCHED)?);
    Ok(())
}
