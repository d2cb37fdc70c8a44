use ds_value::Name;
use osh_words::{Command, WordFault, read_words};
use std::alloc::{AllocError, Global};
use std::str;
use std::test::Fail;

fn words_on(alloc: Global, line: &str) -> Result<Vec<String>, AllocError> {
    let mut words = Vec::new(alloc);
    for word in line.split(' ') {
        words.push(String::from_str(alloc, word)?)?;
    }
    Ok(words)
}

fn text(name: &Name) -> &str {
    match str::from_utf8(name.as_slice()) {
        Ok(text) => text,
        Err(_) => "",
    }
}

fn told(alloc: Global, answer: &Result<Command, WordFault>) -> Result<String, AllocError> {
    match answer {
        Ok(Command::Check(flow)) => format!(in alloc; "check {}", text(flow)),
        Ok(Command::Score(flow, nodes)) => format!(in alloc;
            "score {} {}",
            text(flow),
            text(nodes)
        ),
        Ok(Command::Meaning(flow)) => format!(in alloc; "meaning {}", text(flow)),
        Ok(
            Command::Run {
                serial,
                cap,
                spill,
                flow,
                config,
            },
        ) => format!(in alloc;
            "run {serial} {cap} {spill} {} {}",
            text(flow),
            text(config)
        ),
        Ok(Command::Gen { n, x }) => format!(in alloc; "gen {n} {x}"),
        Err(WordFault::Usage) => String::from_str(alloc, "usage"),
        Err(WordFault::Memory) => String::from_str(alloc, "memory"),
    }
}

static CASES: [(&str, &str); 22] = [
    ("check f.osh", "check f.osh"),
    ("score f.osh c.cfg", "score f.osh c.cfg"),
    ("meaning f.osh", "meaning f.osh"),
    ("run f.osh c.cfg", "run false 64 16 f.osh c.cfg"),
    ("run -serial f.osh c.cfg", "run true 64 16 f.osh c.cfg"),
    ("run -cap 1024 -spill 0 f c", "run false 1024 0 f c"),
    ("run -spill 1024 -serial -cap 01 f c", "run true 1 1024 f c"),
    ("gen 7 0", "gen 7 0"),
    (
        "gen 1000000 9999999999999999999",
        "gen 1000000 9999999999999999999",
    ),
    ("run run run", "run false 64 16 run run"),
    ("run -cap 0 f.osh c.cfg", "usage"),
    ("run f.osh", "usage"),
    ("run -cap 1 -serial -cap 1 f c", "usage"),
    ("run -serial -serial f c", "usage"),
    ("run f c -serial", "usage"),
    ("run -spill -1 f c", "usage"),
    ("gen 1000001 0", "usage"),
    ("gen 7 10000000000000000000", "usage"),
    ("check", "usage"),
    ("check -f", "usage"),
    ("", "usage"),
    ("migrate a b", "usage"),
];

#[test]
fn lines(rt: HostRuntime) -> Result<(), Fail> {
    let alloc = rt.alloc();
    for (line, wanted) in &CASES {
        let words = words_on(alloc, line)?;
        let answer = told(alloc, &read_words(alloc, &words))?;
        assert!(rt; answer.as_str() == *wanted, "{line}");
    }
    Ok(())
}
