ghost use Rattle.std.specs.Prelude.{◌≡◌, ◌∷◌, [], IfOk, false, nat_lt};
ghost use Rattle.std.specs.List.{list_all};

use super::running::{Given, NULL, Table, are_given, by_first, emitted};
use ds_schema::KeyList;
use op_base::Emit;
use op_match::{capture, laws, merger};
use std::alloc::Global;
use std::test::Fail;

/// The number of columns of all rows.
const WIDTH: u32 = 2;

fn are_columns(cols: &[u32]) -> bool
    ensures { result ≡ list_all (λ c. nat_lt c 2) cols.now }
{
    cols.iter().all(|col| *col < WIDTH)
}

/// Changes between tables by the first column: the columns that are compared, whether copies
/// are kept, and the rows that come out.
struct Captured {
    desc: bool,
    values: &'static [u32],
    keep: bool,
    before: Table,
    after: Table,
    given: Given,
}

static CAPTURED: [Captured; 5] = [
    // edits, inserts and deletes, each key value apart
    Captured {
        desc: false,
        values: &[1],
        keep: false,
        before: &[&[NULL, 1], &[1, 10], &[2, 20], &[2, 21], &[4, 40]],
        after: &[&[NULL, 1], &[1, 11], &[2, 20], &[3, 30], &[5, 40]],
        given: &[
            (0, &[1, 11, 3]),
            (0, &[2, 21, 2]),
            (0, &[3, 30, 1]),
            (0, &[4, 40, 2]),
            (0, &[5, 40, 1]),
        ],
    },
    // copies are kept; rows of one key value in pairs, and then what is left over
    Captured {
        desc: false,
        values: &[1],
        keep: true,
        before: &[&[1, 10], &[1, 11]],
        after: &[&[1, 10], &[1, 12], &[1, 11], &[1, 13]],
        given: &[
            (0, &[1, 10, 0]),
            (0, &[1, 12, 3]),
            (0, &[1, 11, 1]),
            (0, &[1, 13, 1]),
        ],
    },
    // only the key is compared
    Captured {
        desc: false,
        values: &[0],
        keep: true,
        before: &[&[1, 10], &[2, 20]],
        after: &[&[1, 11]],
        given: &[(0, &[1, 11, 0]), (0, &[2, 20, 2])],
    },
    // nothing is compared, and keys descend
    Captured {
        desc: true,
        values: &[],
        keep: false,
        before: &[&[3, 30], &[2, 20]],
        after: &[&[2, 21], &[1, 10]],
        given: &[(0, &[3, 30, 2]), (0, &[1, 10, 1])],
    },
    // unsorted rows, run by run
    Captured {
        desc: false,
        values: &[1],
        keep: true,
        before: &[&[1, 10], &[2, 20], &[1, 11]],
        after: &[&[2, 20], &[1, 10]],
        given: &[(0, &[1, 10, 2]), (0, &[2, 20, 0]), (0, &[1, 10, 3])],
    },
];

#[test]
fn changes_are_captured(rt: HostRuntime) -> Result<(), Fail> {
    let alloc = rt.alloc();
    for (i, case) in CAPTURED.iter().enumerate() {
        let emit = capture_tables(alloc, case)?;
        assert!(rt; are_given(&emit, case.given), "case {i}");
    }
    laws::captures_match();
    Ok(())
}

fn capture_tables(alloc: Global, case: &Captured) -> Result<Emit, Fail> {
    let keys = by_first(alloc, case.desc)?;
    let values = case.values.to_vec(alloc)?;
    if !are_columns(values.as_slice()) {
        return Err(Fail::from("a column past the end"));
    }
    let op = capture(alloc, keys, values, case.keep)?;
    emitted(alloc, op, 2, WIDTH, &[case.before, case.after])
}

/// Two updates merged into a master by the first column: whether bad masters are kept and other
/// updates rejected, and the rows that come out.
struct Merged {
    keep: bool,
    reject: bool,
    given: Given,
}

const MASTERS: Table = &[&[1, 10], &[1, 11], &[2, 20], &[4, 40]];

const UPDATES: Table = &[&[1, 100], &[1, 101], &[3, 300]];

const MORE_UPDATES: Table = &[&[2, 200], &[2, 201]];

static MERGED: [Merged; 3] = [
    Merged {
        keep: false,
        reject: false,
        given: &[
            (0, &[1, 10, 100, NULL]),
            (0, &[1, 11, 100, NULL]),
            (0, &[2, 20, NULL, 200]),
        ],
    },
    Merged {
        keep: true,
        reject: false,
        given: &[
            (0, &[1, 10, 100, NULL]),
            (0, &[1, 11, 100, NULL]),
            (0, &[2, 20, NULL, 200]),
            (0, &[4, 40, NULL, NULL]),
        ],
    },
    Merged {
        keep: false,
        reject: true,
        given: &[
            (0, &[1, 10, 100, NULL]),
            (0, &[1, 11, 100, NULL]),
            (1, &[1, 101]),
            (0, &[2, 20, NULL, 200]),
            (2, &[2, 201]),
            (1, &[3, 300]),
        ],
    },
];

/// By the first column of each of three inputs.
fn three_keys(alloc: Global) -> Result<Vec<KeyList>, Fail>
    ensures { IfOk result (λ keys. keys.items ≡ (record { col = 0; desc = false } ∷ []) ∷ ((record { col = 0; desc = false } ∷ []) ∷ ((record { col = 0; desc = false } ∷ []) ∷ []))) }
{
    let mut keys = Vec::new(alloc);
    keys.push(by_first(alloc, false)?)?;
    keys.push(by_first(alloc, false)?)?;
    keys.push(by_first(alloc, false)?)?;
    Ok(keys)
}

fn merge_tables(alloc: Global, case: &Merged) -> Result<Emit, Fail> {
    let keys = three_keys(alloc)?;
    let widths = vec![in alloc; WIDTH, WIDTH, WIDTH]?;
    let op = merger(alloc, keys, widths, case.keep, case.reject)?;
    emitted(alloc, op, 3, WIDTH, &[MASTERS, UPDATES, MORE_UPDATES])
}

#[test]
fn updates_are_merged(rt: HostRuntime) -> Result<(), Fail> {
    let alloc = rt.alloc();
    for (i, case) in MERGED.iter().enumerate() {
        let emit = merge_tables(alloc, case)?;
        assert!(rt; are_given(&emit, case.given), "case {i}");
    }
    laws::merges_match();
    Ok(())
}
