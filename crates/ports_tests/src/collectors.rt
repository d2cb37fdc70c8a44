ghost use Rattle.std.specs.Prelude.{◌≡◌, ◌<◌, ◌≤◌, ◌^◌, IfOk, length, []};
ghost use Rattle.run_ports.specs.PortLists.{SuitsLists, list_of};

use ds_schema::{Key, KeyList, Row};
use ds_value::{Items, Value};
use op_base::{Emit, Operator};
use op_collect::{gather, ordered, round, sequence, sort_merge};
use run_collect::{merge_lists, take_turns};
use run_ports::run_ports;
use std::alloc::Global;
use std::test::Fail;

/// The rows of each input, as numbers, and those that are given for them.
struct Case {
    lists: &'static [&'static [i64]],
    given: &'static [i64],
}

static JOINED: [Case; 3] = [
    Case {
        lists: &[&[11, 12], &[], &[21], &[32, 31]],
        given: &[11, 12, 21, 32, 31],
    },
    Case {
        lists: &[&[], &[5]],
        given: &[5],
    },
    Case {
        lists: &[&[]],
        given: &[],
    },
];

static IN_TURN: [Case; 3] = [
    Case {
        lists: &[&[1, 2, 3], &[4], &[], &[5, 6]],
        given: &[1, 4, 5, 2, 6, 3],
    },
    Case {
        lists: &[&[], &[1], &[2, 3]],
        given: &[1, 2, 3],
    },
    Case {
        lists: &[&[]],
        given: &[],
    },
];

/// By the tens.
static MERGED: [Case; 4] = [
    Case {
        lists: &[&[11, 31], &[12, 21], &[13]],
        given: &[11, 12, 13, 21, 31],
    },
    Case {
        lists: &[&[], &[22, 23], &[21]],
        given: &[22, 23, 21],
    },
    Case {
        lists: &[&[31, 11], &[21]],
        given: &[21, 31, 11],
    },
    Case {
        lists: &[&[], &[]],
        given: &[],
    },
];

/// By the tens, the greatest first.
static MERGED_DOWN: [Case; 1] = [Case {
    lists: &[&[31, 11], &[32, 21], &[12]],
    given: &[31, 32, 21, 11, 12],
}];

/// A row for each number: its tens, and itself.
fn rows(alloc: Global, numbers: &[i64]) -> Result<Items<Row>, Fail> {
    let mut rows = Items::new(alloc);
    for number in numbers {
        let mut values = Vec::new(alloc);
        values.push(Value::Int(*number / 10))?;
        values.push(Value::Int(*number))?;
        rows.push(Row::from_vec(values))?;
    }
    Ok(rows)
}

fn lists_of(alloc: Global, case: &Case) -> Result<Vec<Items<Row>>, Fail> {
    let mut lists = Vec::new(alloc);
    for numbers in case.lists {
        lists.push(rows(alloc, numbers)?)?;
    }
    Ok(lists)
}

/// How many inputs there are.
fn count(lists: &Vec<Items<Row>>) -> Result<u32, Fail>
    ensures count { IfOk result (λ n. n ≡ length lists.now.items) }
    ensures some { IfOk result (λ n. 0 < n) }
{
    let count = u32::try_from(lists.len())?;
    if count == 0 {
        return Err(Fail::from("no input"));
    }
    Ok(count)
}

/// The numbers of the rows that were sent.
fn sent(alloc: Global, emit: &Emit) -> Result<Vec<i64>, Fail> {
    let mut numbers = Vec::new(alloc);
    for sent in emit.sent.as_slice() {
        if let [_, Value::Int(number)] = sent.row.as_slice() {
            numbers.push(*number)?;
        }
    }
    Ok(numbers)
}

/// Whether an operator gives what a case says.
fn gives<O: Operator + Drop>(
    alloc: Global,
    op: O,
    lists: Vec<Items<Row>>,
    case: &Case,
) -> Result<bool, Fail>
    requires stands { O.Stands op [] }
    requires ports { (O.stream op).ports ≡ length lists.items }
    requires few { length lists.items ≤ 2 ^ 32 }
    requires suits { SuitsLists (O.stream op) (O.suits op) (list_of lists.items) }
{
    let mut op = op;
    let emit = run_ports(alloc, &mut op, lists)?;
    Ok(sent(alloc, &emit)?.as_slice() == case.given)
}

fn ordered_gives(alloc: Global, case: &Case) -> Result<bool, Fail> {
    let lists = lists_of(alloc, case)?;
    let n = count(&lists)?;
    let op = ordered(alloc, n)?;
    gives(alloc, op, lists, case)
}

fn sequence_gives(alloc: Global, case: &Case) -> Result<bool, Fail> {
    let lists = lists_of(alloc, case)?;
    let n = count(&lists)?;
    let op = sequence(alloc, n)?;
    gives(alloc, op, lists, case)
}

fn gather_gives(alloc: Global, case: &Case) -> Result<bool, Fail> {
    let lists = lists_of(alloc, case)?;
    let n = count(&lists)?;
    let op = gather(alloc, n)?;
    gives(alloc, op, lists, case)
}

fn round_gives(alloc: Global, case: &Case) -> Result<bool, Fail> {
    let lists = lists_of(alloc, case)?;
    let n = count(&lists)?;
    let op = round(alloc, n)?;
    gives(alloc, op, lists, case)
}

fn sort_merge_gives(alloc: Global, desc: bool, case: &Case) -> Result<bool, Fail> {
    let lists = lists_of(alloc, case)?;
    let mut keys = Vec::new(alloc);
    keys.push(Key { col: 0, desc })?;
    let n = count(&lists)?;
    let op = sort_merge(alloc, n, KeyList::from_vec(keys))?;
    gives(alloc, op, lists, case)
}

/// The numbers of rows.
fn numbers(alloc: Global, rows: &[Row]) -> Result<Vec<i64>, Fail> {
    let mut numbers = Vec::new(alloc);
    for row in rows {
        if let [_, Value::Int(number)] = row.as_slice() {
            numbers.push(*number)?;
        }
    }
    Ok(numbers)
}

/// Whether whole lists are merged to what a case says.
fn lists_merge(alloc: Global, desc: bool, case: &Case) -> Result<bool, Fail> {
    let lists = lists_of(alloc, case)?;
    let mut keys = Vec::new(alloc);
    keys.push(Key { col: 0, desc })?;
    let _count = count(&lists)?;
    let rows = merge_lists(alloc, KeyList::from_vec(keys), Items::from_vec(lists))?;
    Ok(numbers(alloc, rows.as_slice())?.as_slice() == case.given)
}

/// Whether whole lists have their turns as a case says.
fn lists_take_turns(alloc: Global, case: &Case) -> Result<bool, Fail> {
    let lists = lists_of(alloc, case)?;
    let _count = count(&lists)?;
    let rows = take_turns(alloc, Items::from_vec(lists))?;
    Ok(numbers(alloc, rows.as_slice())?.as_slice() == case.given)
}

/// Where any input is wanted, the first that hasn't ended is fed.
#[test]
fn inputs_are_joined(rt: HostRuntime) -> Result<(), Fail> {
    let alloc = rt.alloc();
    for case in &JOINED {
        let ordered = ordered_gives(alloc, case)?;
        let sequence = sequence_gives(alloc, case)?;
        let gather = gather_gives(alloc, case)?;
        assert!(rt; ordered && sequence && gather);
    }
    Ok(())
}

#[test]
fn inputs_have_their_turns(rt: HostRuntime) -> Result<(), Fail> {
    let alloc = rt.alloc();
    for case in &IN_TURN {
        let round = round_gives(alloc, case)?;
        assert!(rt; round && lists_take_turns(alloc, case)?);
    }
    Ok(())
}

#[test]
fn inputs_are_merged(rt: HostRuntime) -> Result<(), Fail> {
    let alloc = rt.alloc();
    for case in &MERGED {
        let merged = sort_merge_gives(alloc, false, case)?;
        assert!(rt; merged && lists_merge(alloc, false, case)?);
    }
    for case in &MERGED_DOWN {
        let merged = sort_merge_gives(alloc, true, case)?;
        assert!(rt; merged && lists_merge(alloc, true, case)?);
    }
    Ok(())
}
