use osh_print::print_flow;
use osh_read::read_flow;
use std::alloc::Global;
use std::test::Fail;

// Each option of each operator, as it is printed.
static STAGES: [&str; 27] = [
    "import -file \"a\" -schema \"record ( a: int32; )\" -delim \";\" -reject",
    "import -file \"a\" -schema \"record ( a: date; )\" -fixed \"10\"",
    "export -file \"a\" -delim \"|\"",
    "export -file \"a\" -fixed \"1,65536\"",
    "dsread -ds \"a\"",
    "dswrite -ds \"a\"",
    "copy [seq]",
    "filter -where \"a > 1 && b == 'x'\" -reject",
    "filter -where '-(a + 1) * 2 == length(\"x\") /* 1 */ + 1'",
    "transform -set \"a: int32 = a + 1\" -set 'b: nullable decimal[8,2] = if(a == 1, c, \"x\")' -reject",
    "switch -on \"a % 3\" -cases \"1,-2,0\" -reject",
    "switch -on \"a\" -cases \"-9223372036854775808,9223372036854775807\"",
    "modify -keep \"a,b\" -rename \"c=d,e=f\"",
    "modify -drop \"a\"",
    "tsort -key \"a desc,b\"",
    "remdup -key \"a\" -last",
    "group -key \"a\" -hash -sum \"b=c\" -count \"n\" -min \"b=d\" -max \"b=e\" -first \"b=f\" -last \"b=g\"",
    "innerjoin -key \"a\"",
    "leftouterjoin -key \"a\"",
    "rightouterjoin -key \"a\"",
    "fullouterjoin -key \"a\"",
    "merge -key \"a\" -keepbad -reject",
    "lookup -key \"a\" -missing \"drop\"",
    "lookup -key \"a\" -missing \"reject\"",
    "changecapture -key \"a\" -values \"b,c\" -keepcopy",
    "funnel -sequence",
    "funnel -sort \"a\"",
];

// Each method, and each with each flag, as it is printed.
static METHODS: [&str; 14] = [
    "[same]",
    "[rr]",
    "[entire]",
    "[hash a,b]",
    "[modulus a]",
    "[any]",
    "[ordered]",
    "[merge a desc,b]",
    "[auto set]",
    "[auto clear]",
    "[same set]",
    "[hash a clear]",
    "[merge a set]",
    "",
];

fn reads_back(alloc: Global, text: &[u8]) -> Result<bool, Fail> {
    let flow = read_flow(alloc, text)?;
    let printed = print_flow(alloc, &flow)?;
    Ok(printed.as_slice() == text)
}

#[test]
fn options_read_back(rt: HostRuntime) -> Result<(), Fail> {
    let alloc = rt.alloc();
    for stage in &STAGES {
        let written = format!(in alloc; "{stage};\n")?;
        assert!(rt; reads_back(alloc, written.as_bytes())?, "{stage}");
    }
    for method in &METHODS {
        let written = format!(in alloc; "copy > k0.v;\ncopy < {method}k0.v;\n")?;
        assert!(rt; reads_back(alloc, written.as_bytes())?, "{method}");
    }
    Ok(())
}
