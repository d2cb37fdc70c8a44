ghost use Rattle.std.specs.Prelude.{◌≡◌, ◌<◌, ◌≤◌, ◌^◌, List, [], ◌∷◌, length, map, position, not, false, OnOk, IfOk, IfSome};
ghost use Rattle.streams.specs.Lists.{is_empty};
ghost use Rattle.streams.specs.Streams.{Item, whole};
ghost use Rattle.op_base.specs.Columns.{Row as Cells};
ghost use Rattle.op_base.specs.Standing.{MayFeed};
ghost use Rattle.run_ports.specs.Driving.{FeedsFirst, HasFed, PicksNext, feed_of};
ghost use Rattle.run_ports.specs.PortLists.{HasRun, SuitsLists, list_of};

use crate::input::Input;
use ds_schema::Row;
use ds_value::{Items, NoMemory};
use op_base::{Emit, Operator, Want};
use std::alloc::Global;

fn inputs_of(alloc: Global, lists: Vec<Items<Row>>) -> Result<Vec<Input>, NoMemory>
    ensures { IfOk result (λ inputs. inputs.items ≡ map whole lists.items) }
{
    let mut inputs = Vec::new(alloc);
    for list in lists {
        inputs.push(Input::new(list))?;
    }
    Ok(inputs)
}

fn first_open(inputs: &[Input]) -> Option<usize>
    ensures place { result ≡ position (λ items. not (is_empty items)) inputs.now }
    ensures within { IfSome result (λ i. i < length inputs.now) }
{
    inputs.iter().position(|input| !input.is_over())
}

/// The port that is fed next: the one that is wanted, or of several the least.
fn next_port<O: Operator>(op: &O, inputs: &[Input]) -> Option<u32>
    requires few { length inputs.now ≤ 2 ^ 32 }
    ensures { PicksNext (O.stream op.now) (O.Stands op.now) inputs.now result }
{
    match op.wants() {
        Want::Port(port) => Some(port),
        Want::Any => Some(first_open(inputs)? as u32),
        Want::Nothing => None,
    }
}

/// Feeds a port the next row of its input, or its end.
fn feed_next<O: Operator>(
    op: &mut O,
    port: u32,
    input: &mut Input,
    emit: &mut Emit,
) -> Result<(), NoMemory>
    requires open { is_empty input.old ≡ false }
    requires may { (item : Item Cells) (rest : List (Item Cells)) → input.old ≡ item ∷ rest → MayFeed (O.stream op.old) (O.suits op.old) (O.Stands op.old) (feed_of port item) }
    ensures stream { OnOk result (O.stream op.new ≡ O.stream op.old) }
    ensures suits { OnOk result (O.suits op.new ≡ O.suits op.old) }
    ensures fed { OnOk result (FeedsFirst (O.stream op.old) (O.Stands op.old) (O.Stands op.new) port input.old input.new emit.old emit.new) }
{
    match input.next() {
        Some(row) => {
            op.feed(port, row, emit)?;
            Ok(())
        }
        None => {
            op.end(port, emit)?;
            Ok(())
        }
    }
}

/// Feeds each port its list and its end.
fn feed_lists<O: Operator>(
    alloc: Global,
    op: &mut O,
    lists: Vec<Items<Row>>,
    emit: &mut Emit,
) -> Result<(), NoMemory>
    requires stands { O.Stands op.old [] }
    requires ports { (O.stream op.old).ports ≡ length lists.items }
    requires few { length lists.items ≤ 2 ^ 32 }
    requires suits { SuitsLists (O.stream op.old) (O.suits op.old) (list_of lists.items) }
    ensures stream { OnOk result (O.stream op.new ≡ O.stream op.old) }
    ensures fed { OnOk result (HasFed (O.stream op.old) (O.Stands op.new) (list_of lists.items) emit.old emit.new) }
{
    let mut inputs = inputs_of(alloc, lists)?;
    while let Some(port) = next_port(op, &inputs) {
        feed_next(op, port, &mut inputs[port as usize], emit)?;
    }
    Ok(())
}

/// What an operator emits for the rows of each port's list and the ends of all. It was fed
/// nothing before, and isn't fed again. Where it wants any port, the least goes first.
pub fn run_ports<O: Operator>(
    alloc: Global,
    op: &mut O,
    lists: Vec<Items<Row>>,
) -> Result<Emit, NoMemory>
    requires stands { O.Stands op.old [] }
    requires ports { (O.stream op.old).ports ≡ length lists.items }
    requires few { length lists.items ≤ 2 ^ 32 }
    requires suits { SuitsLists (O.stream op.old) (O.suits op.old) (list_of lists.items) }
    ensures { IfOk result (λ emit. HasRun (O.stream op.old) (list_of lists.items) emit) }
{
    let mut emit = Emit::new(alloc);
    feed_lists(alloc, op, lists, &mut emit)?;
    op.finish(&mut emit)?;
    Ok(emit)
}
