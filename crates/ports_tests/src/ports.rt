ghost use Rattle.std.specs.Prelude.{◌≡◌, length, IfOk};

use ds_schema::Row;
use ds_value::{Items, NoMemory, Value};
use op_base::{Emit, Operator, Want};
use run_ports::run_ports;
use std::alloc::Global;
use std::test::Fail;

/// Passes on what comes at its two ports, in any order.
#[derive(Drop)]
struct Funnel {
    left_over: bool,
    right_over: bool,
}

impl Operator for Funnel {
    ghost use Rattle.std.specs.Prelude.{◌≡◌, true};
    ghost use Rattle.streams.specs.Streams.{ended};
    ghost use Rattle.streams.specs.Operators.{any_stream};
    ghost use Rattle.streams.proofs.Collectors.{any_is};
    ghost use Rattle.std.proofs.Common.{rules};

    ghost stream = { λ s. any_stream 2 };

    ghost suits = { λ s feeds. true };

    ghost Stands = { λ s feeds. (s.left_over ≡ ended 0 feeds) × (s.right_over ≡ ended 1 feeds) };

    ghost is_stream = { λ s. any_is 2 (Prim.search rules) };

    fn wants(&self) -> Want {
        if self.left_over && self.right_over {
            Want::Nothing
        } else {
            Want::Any
        }
    }

    fn feed(&mut self, _port: u32, row: Row, emit: &mut Emit) -> Result<(), NoMemory> {
        emit.send(0, row)?;
        Ok(())
    }

    fn end(&mut self, port: u32, _emit: &mut Emit) -> Result<(), NoMemory> {
        if port == 0 {
            self.left_over = true;
        } else {
            self.right_over = true;
        }
        Ok(())
    }

    fn finish(&mut self, _emit: &mut Emit) -> Result<(), NoMemory> {
        Ok(())
    }
}

/// Rows of one number each.
fn list(alloc: Global, numbers: &[i64]) -> Result<Items<Row>, Fail> {
    let mut rows = Items::new(alloc);
    for number in numbers {
        let mut values = Vec::new(alloc);
        values.push(Value::Int(*number))?;
        rows.push(Row::from_vec(values))?;
    }
    Ok(rows)
}

fn two(alloc: Global, left: Items<Row>, right: Items<Row>) -> Result<Vec<Items<Row>>, Fail>
    ensures { IfOk result (λ lists. length lists.items ≡ 2) }
{
    let mut lists = Vec::new(alloc);
    lists.push(left)?;
    lists.push(right)?;
    Ok(lists)
}

/// The numbers of the rows that were sent.
fn sent(alloc: Global, emit: &Emit) -> Result<Vec<i64>, Fail> {
    let mut numbers = Vec::new(alloc);
    for sent in emit.sent.as_slice() {
        for value in sent.row.as_slice() {
            if let Value::Int(number) = value {
                numbers.push(*number)?;
            }
        }
    }
    Ok(numbers)
}

#[test]
fn lists_are_fed_to_their_ends(rt: HostRuntime) -> Result<(), Fail> {
    let alloc = rt.alloc();
    let lists = two(alloc, list(alloc, &[1, 2])?, list(alloc, &[3, 4, 5])?)?;
    let mut op = Funnel {
        left_over: false,
        right_over: false,
    };
    let emit = run_ports(alloc, &mut op, lists)?;
    let numbers = sent(alloc, &emit)?;
    assert!(rt; numbers.as_slice() == [1, 2, 3, 4, 5].as_slice());
    assert!(rt; op.left_over && op.right_over);
    Ok(())
}
