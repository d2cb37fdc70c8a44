ghost use Rattle.std.specs.Prelude.{◌≡◌, ◌∷◌, [], IfOk, false, true};

use super::running::{Given, NULL, Table, are_given, by_first, emitted};
use ds_schema::{Key, KeyList};
use op_base::Emit;
use op_join::{JoinKind, join, laws};
use std::alloc::Global;
use std::test::Fail;

/// A join of two tables, and the rows that come out.
struct Joined {
    kind: JoinKind,
    desc: bool,
    left: Table,
    right: Table,
    given: Given,
}

const LEFT: Table = &[&[NULL, 10], &[1, 11], &[1, 12], &[2, 13]];

const RIGHT: Table = &[&[NULL, 20], &[1, 21], &[1, 22], &[3, 23]];

/// By the first column on both sides.
static BY_FIRST: [Joined; 9] = [
    Joined {
        kind: JoinKind::Inner,
        desc: false,
        left: LEFT,
        right: RIGHT,
        given: &[
            (0, &[NULL, 10, 20]),
            (0, &[1, 11, 21]),
            (0, &[1, 11, 22]),
            (0, &[1, 12, 21]),
            (0, &[1, 12, 22]),
        ],
    },
    Joined {
        kind: JoinKind::Left,
        desc: false,
        left: LEFT,
        right: RIGHT,
        given: &[
            (0, &[NULL, 10, 20]),
            (0, &[1, 11, 21]),
            (0, &[1, 11, 22]),
            (0, &[1, 12, 21]),
            (0, &[1, 12, 22]),
            (0, &[2, 13, NULL]),
        ],
    },
    Joined {
        kind: JoinKind::Right,
        desc: false,
        left: LEFT,
        right: RIGHT,
        given: &[
            (0, &[NULL, 10, 20]),
            (0, &[1, 11, 21]),
            (0, &[1, 11, 22]),
            (0, &[1, 12, 21]),
            (0, &[1, 12, 22]),
            (0, &[3, NULL, 23]),
        ],
    },
    Joined {
        kind: JoinKind::Full,
        desc: false,
        left: LEFT,
        right: RIGHT,
        given: &[
            (0, &[NULL, 10, 20]),
            (0, &[1, 11, 21]),
            (0, &[1, 11, 22]),
            (0, &[1, 12, 21]),
            (0, &[1, 12, 22]),
            (0, &[2, 13, NULL]),
            (0, &[3, NULL, 23]),
        ],
    },
    // keys descend, nulls last
    Joined {
        kind: JoinKind::Full,
        desc: true,
        left: &[&[2, 10], &[1, 11], &[NULL, 12]],
        right: &[&[3, 20], &[2, 21], &[NULL, 22]],
        given: &[
            (0, &[3, NULL, 20]),
            (0, &[2, 10, 21]),
            (0, &[1, 11, NULL]),
            (0, &[NULL, 12, 22]),
        ],
    },
    // unsorted rows, run by run
    Joined {
        kind: JoinKind::Full,
        desc: false,
        left: &[&[1, 10], &[2, 11], &[1, 12]],
        right: &[&[1, 20], &[1, 21], &[2, 22]],
        given: &[
            (0, &[1, 10, 20]),
            (0, &[1, 10, 21]),
            (0, &[2, 11, 22]),
            (0, &[1, 12, NULL]),
        ],
    },
    // an input without rows
    Joined {
        kind: JoinKind::Left,
        desc: false,
        left: &[&[1, 10], &[2, 11]],
        right: &[],
        given: &[(0, &[1, 10, NULL]), (0, &[2, 11, NULL])],
    },
    Joined {
        kind: JoinKind::Right,
        desc: false,
        left: &[],
        right: &[&[1, 10], &[2, 11]],
        given: &[(0, &[1, NULL, 10]), (0, &[2, NULL, 11])],
    },
    Joined {
        kind: JoinKind::Inner,
        desc: false,
        left: &[&[1, 10], &[2, 11]],
        right: &[],
        given: &[],
    },
];

fn joined_by_first(alloc: Global, case: &Joined) -> Result<Emit, Fail> {
    let lefts = by_first(alloc, case.desc)?;
    let rights = by_first(alloc, case.desc)?;
    let op = join(alloc, case.kind, lefts, rights, (2, 2))?;
    emitted(alloc, op, 2, 2, &[case.left, case.right])
}

#[test]
fn rows_are_joined(rt: HostRuntime) -> Result<(), Fail> {
    let alloc = rt.alloc();
    for (i, case) in BY_FIRST.iter().enumerate() {
        let emit = joined_by_first(alloc, case)?;
        assert!(rt; are_given(&emit, case.given), "case {i}");
    }
    laws::joins_match();
    Ok(())
}

/// The first ascends, the second descends.
fn two_keys(alloc: Global, first: u32, second: u32) -> Result<KeyList, Fail>
    requires { first ≡ second → ⊥ }
    ensures { IfOk result (λ keys. keys ≡ record { col = first; desc = false } ∷ (record { col = second; desc = true } ∷ [])) }
{
    let mut keys = Vec::new(alloc);
    keys.push(Key {
        col: first,
        desc: false,
    })?;
    keys.push(Key {
        col: second,
        desc: true,
    })?;
    Ok(KeyList::from_vec(keys))
}

/// By the first column and the last, on the right the other way round.
static BY_TWO: Joined = Joined {
    kind: JoinKind::Full,
    desc: false,
    left: &[&[1, 10, 6], &[1, 11, 5], &[2, 12, 5]],
    right: &[&[6, 20, 1], &[4, 21, 1], &[5, 22, 2]],
    given: &[
        (0, &[1, 6, 10, 20]),
        (0, &[1, 5, 11, NULL]),
        (0, &[1, 4, NULL, 21]),
        (0, &[2, 5, 12, 22]),
    ],
};

fn joined_by_two(alloc: Global, case: &Joined) -> Result<Emit, Fail> {
    let lefts = two_keys(alloc, 0, 2)?;
    let rights = two_keys(alloc, 2, 0)?;
    let op = join(alloc, case.kind, lefts, rights, (3, 3))?;
    emitted(alloc, op, 2, 3, &[case.left, case.right])
}

#[test]
fn keys_lie_in_other_columns(rt: HostRuntime) -> Result<(), Fail> {
    let emit = joined_by_two(rt.alloc(), &BY_TWO)?;
    assert!(rt; are_given(&emit, BY_TWO.given));
    Ok(())
}
