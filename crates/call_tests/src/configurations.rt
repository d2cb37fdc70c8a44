use config_read::{Config, ConfigFault, ConfigWhy, default_nodes, read_config};
use std::alloc::Global;
use std::test::Fail;

static FAULTS: [(&str, usize, ConfigWhy); 33] = [
    ("", 0, ConfigWhy::Syntax),
    ("# only a comment", 16, ConfigWhy::Syntax),
    ("node", 0, ConfigWhy::Syntax),
    ("{ }", 2, ConfigWhy::Syntax),
    ("{ node n1 { } }", 7, ConfigWhy::Syntax),
    ("{ node \"n1\" }", 12, ConfigWhy::Syntax),
    ("{ node \"n1\" { fastname h } }", 23, ConfigWhy::Syntax),
    (
        "{ node \"n1\" { fastname \"h\" \"i\" } }",
        27,
        ConfigWhy::Syntax,
    ),
    ("{ node \"n1\" { pools } }", 20, ConfigWhy::Syntax),
    (
        "{ node \"n1\" { resource \"disk\" \"d\" } }",
        23,
        ConfigWhy::Syntax,
    ),
    ("{ node \"n1\" { resource disk d } }", 28, ConfigWhy::Syntax),
    (
        "{ node \"n1\" { resource disk \"d\" { } } }",
        34,
        ConfigWhy::Syntax,
    ),
    (
        "{ node \"n1\" { resource disk \"d\" { pools } } }",
        40,
        ConfigWhy::Syntax,
    ),
    (
        "{ node \"n1\" { resource disk \"d\" { pools \"\" ; } } }",
        43,
        ConfigWhy::Syntax,
    ),
    ("{ node \"n1\" { rack \"r\" } }", 14, ConfigWhy::Syntax),
    ("{ node \"n1\" { \"pools\" \"\" } }", 14, ConfigWhy::Syntax),
    ("{ node \"n1\" { } } node", 18, ConfigWhy::Syntax),
    ("{ node \"n1\" { }", 15, ConfigWhy::Syntax),
    ("{ node \"n1\" { pools \"\"", 22, ConfigWhy::Syntax),
    ("$", 0, ConfigWhy::Token),
    ("{ node \"n1", 7, ConfigWhy::Token),
    ("{ node \"n1\" { } } $", 18, ConfigWhy::Token),
    ("{ node \"n1\" { pools \"x\" } } /* ", 28, ConfigWhy::Token),
    ("{ node ; $", 7, ConfigWhy::Syntax),
    ("{ node \"\" { } }", 7, ConfigWhy::Name),
    ("{ node \"it's\" { } }", 7, ConfigWhy::Name),
    ("{ node \"n\t1\" ; } }", 7, ConfigWhy::Name),
    (
        "{ node \"n1\" { pools \"a\" \"it's\" } }",
        24,
        ConfigWhy::Name,
    ),
    (
        "{ node \"n1\" { resource scratchdisk \"it's\" } }",
        35,
        ConfigWhy::Name,
    ),
    ("{ node \"n1\" { } node 'n1' ; }", 21, ConfigWhy::DoubleNode),
    (
        "{ node \"n1\" { fastname \"h\" pools \"x\" } }",
        40,
        ConfigWhy::NoDefault,
    ),
    (
        "{ node \"a\" { pools 'x' } node \"b\" { pools \"y\" \"z\" } }\n",
        54,
        ConfigWhy::NoDefault,
    ),
    ("{ node \"n1\" { pools \"x\" } } ;", 28, ConfigWhy::Syntax),
];

static GOOD: [(&str, usize, u32); 6] = [
    ("{ node \"n1\" { } }", 1, 1),
    ("{node'n1'{pools\"x\"pools\"\"}}", 1, 1),
    (
        "{ node \"n1\" { fastname \"h\" pools \"\" resource disk \"d\" {pools \"\"} resource scratchdisk \"s\" {pools \"\"} } }",
        1,
        1,
    ),
    (
        "{ node \"a\" { pools \"x\" \"y\" } node \"b\" { fastname \"it's\" } # two\n }",
        2,
        1,
    ),
    (
        "{ node \"a\" { resource disk \"it's\" { pools \"it's\" } } node \"b\" { pools \"\" } }",
        2,
        2,
    ),
    ("{ node \"node\" { pools \"{\" \"}\" \"\" } }", 1, 1),
];

fn many(alloc: Global, nodes: usize, end: &str) -> Result<Vec<u8>, Fail> {
    let mut text = Vec::new(alloc);
    text.extend_from_slice(b"{")?;
    for i in 0..nodes {
        text.extend_from_slice(b" node \"n")?;
        text.extend_from_slice(i.to_string(alloc)?.as_bytes())?;
        text.extend_from_slice(b"\" { pools \"\" }")?;
    }
    text.extend_from_slice(end.as_bytes())?;
    Ok(text)
}

fn is_refused(alloc: Global, text: &[u8], at: usize, why: ConfigWhy) -> bool {
    match read_config(alloc, text) {
        Ok(_) => false,
        Err(fault) => fault == ConfigFault::Bad { at, why },
    }
}

fn has_nodes(config: &Config, nodes: usize, default: u32) -> bool {
    config.nodes.as_slice().len() == nodes && default_nodes(config) == default
}

#[test]
fn faults(rt: HostRuntime) {
    for (text, at, why) in &FAULTS {
        assert!(rt;
            is_refused(rt.alloc(), text.as_bytes(), *at, *why),
            "{text}"
        );
    }
}

#[test]
fn configurations(rt: HostRuntime) -> Result<(), Fail> {
    for (text, nodes, default) in &GOOD {
        let config = read_config(rt.alloc(), text.as_bytes())?;
        assert!(rt; has_nodes(&config, *nodes, *default), "{text}");
    }
    let text =
        b"{ node \"n1\" { resource scratchdisk \"/s\" pools \"a\" resource disk \"/d\" pools \"\" 'b' } }";
    let config = read_config(rt.alloc(), text)?;
    let [node] = config.nodes.as_slice() else {
        return Err(Fail::from("one node"));
    };
    assert_eq!(rt; node.name.as_slice(), b"n1".as_slice());
    let [a, empty, b] = node.pools.as_slice() else {
        return Err(Fail::from("three pools"));
    };
    assert_eq!(rt; a.as_slice(), b"a".as_slice());
    assert_eq!(rt; empty.as_slice(), b"".as_slice());
    assert_eq!(rt; b.as_slice(), b"b".as_slice());
    let [scratch] = node.scratch.as_slice() else {
        return Err(Fail::from("one scratch disk"));
    };
    assert_eq!(rt; scratch.as_slice(), b"/s".as_slice());
    Ok(())
}

#[test]
fn limits(rt: HostRuntime) -> Result<(), Fail> {
    let alloc = rt.alloc();
    let config = read_config(alloc, &many(alloc, 64, " }")?)?;
    assert_eq!(rt; default_nodes(&config), 64);
    let text = many(alloc, 64, "")?;
    let one_more = many(alloc, 65, " }")?;
    assert!(rt; is_refused(alloc, &one_more, text.len() + 1, ConfigWhy::TooMany));
    let mut long = many(alloc, 1, " }")?;
    for _ in long.len()..1_048_576 {
        long.push(b' ')?;
    }
    assert!(rt; read_config(alloc, &long).is_ok());
    long.push(b';')?;
    assert!(rt; is_refused(alloc, &long, 1_048_576, ConfigWhy::TooLong));
    Ok(())
}
