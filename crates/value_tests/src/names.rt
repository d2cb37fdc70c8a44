//! Names, and copies of names and of lists of them.

use ds_value::{Copied, Items, Name, Name0, copied_items};
use std::alloc::Global;
use std::test::Fail;

/// Bytes, whether they are a name, and whether they are one that may be empty.
static NAMES: [(&[u8], bool, bool); 12] = [
    (b"", false, true),
    (b"a", true, true),
    (b" ", true, true),
    (b"~", true, true),
    (b"a.b/c-d", true, true),
    (b"a\"b", false, false),
    (b"a'b", false, false),
    (b"a\tb", false, false),
    (b"a\nb", false, false),
    (b"\x1f", false, false),
    (b"\x7f", false, false),
    (b"caf\xc3\xa9", false, false),
];

/// Whether the bytes are a name, and are those of its copy.
fn is_name(alloc: Global, bytes: &[u8]) -> Result<bool, Fail> {
    match Name::from_bytes(alloc, bytes)? {
        Some(name) => Ok(name.copied()?.as_slice() == bytes),
        None => Ok(false),
    }
}

/// The same of a name that may be empty.
fn is_name0(alloc: Global, bytes: &[u8]) -> Result<bool, Fail> {
    match Name0::from_bytes(alloc, bytes)? {
        Some(name) => Ok(name.copied()?.as_slice() == bytes),
        None => Ok(false),
    }
}

#[test]
fn names(rt: HostRuntime) -> Result<(), Fail> {
    let alloc = rt.alloc();
    for (bytes, some, none) in &NAMES {
        assert!(rt; is_name(alloc, bytes)? == *some, "{bytes:?}");
        assert!(rt; is_name0(alloc, bytes)? == *none, "{bytes:?}");
    }
    let mut long = vec![in alloc; b'n'; 255]?;
    assert!(rt; is_name(alloc, &long)? && is_name0(alloc, &long)?);
    long.push(b'n')?;
    assert!(rt; !is_name(alloc, &long)? && !is_name0(alloc, &long)?);
    Ok(())
}

static LISTS: [&[&[u8]]; 4] = [&[], &[b"a"], &[b"b", b"a"], &[b"a", b"a", b"cd"]];

fn listed(alloc: Global, list: &[&[u8]]) -> Result<Items<Name>, Fail> {
    let mut names = Items::new(alloc);
    for bytes in list {
        names.push(Name::from_bytes(alloc, bytes)?.ok_or("no name")?)?;
    }
    Ok(names)
}

fn are_names(names: &Items<Name>, list: &[&[u8]]) -> bool {
    names
        .as_slice()
        .iter()
        .map(|name| name.as_slice())
        .eq(list.iter().copied())
}

#[test]
fn copies_of_lists(rt: HostRuntime) -> Result<(), Fail> {
    let alloc = rt.alloc();
    for list in &LISTS {
        let names = listed(alloc, list)?;
        assert!(rt; are_names(&copied_items(alloc, &names)?, list), "{list:?}");
        assert!(rt; are_names(&names.copied()?, list), "{list:?}");
    }
    Ok(())
}
