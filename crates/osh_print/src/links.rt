//! Printing the inputs and outputs of an operator.

ghost use Rattle.std.specs.Prelude.{◌≡◌, ◌++◌, ◌==◌, OnOk, length, filter, position};
ghost use Rattle.flow_graph.specs.declared.flow.LinkSpec.{LinkSpec};
ghost use Rattle.osh_print.specs.LinkText.{input_text, inputs_text, leaves, output_text, outputs_from, outputs_text};

use crate::method::{append_link, append_method};
use ds_value::{Bytes, NoMemory};
use flow_graph::LinkSpec;
use std::alloc::Global;

/// The link as an input of this operator, where it is one.
fn append_input(
    alloc: Global,
    text: &mut Bytes,
    to: usize,
    number: usize,
    link: &LinkSpec,
) -> Result<(), NoMemory>
    ensures { OnOk result (text.new ≡ text.old ++ input_text to number link.now) }
{
    if link.to as usize == to {
        text.append(b" < ")?;
        append_method(alloc, text, &link.method, link.flag)?;
        append_link(alloc, text, number)?;
    }
    Ok(())
}

/// The inputs of an operator.
pub fn append_inputs(
    alloc: Global,
    text: &mut Bytes,
    to: usize,
    links: &[LinkSpec],
) -> Result<(), NoMemory>
    ensures { OnOk result (text.new ≡ text.old ++ inputs_text to 0 links.now) }
{
    for (number, link) in links.iter().enumerate() {
        append_input(alloc, text, to, number, link)?;
    }
    Ok(())
}

fn leaves(from: usize, out: usize, link: &LinkSpec) -> bool
    ensures { result ≡ leaves from out link.now }
{
    link.from as usize == from && link.out as usize == out
}

fn link_at(links: &[LinkSpec], from: usize, out: usize) -> Option<usize>
    ensures { result ≡ position (leaves from out) links.now }
{
    links.iter().position(|link| leaves(from, out, link))
}

fn append_output(alloc: Global, text: &mut Bytes, number: Option<usize>) -> Result<(), NoMemory>
    ensures { OnOk result (text.new ≡ text.old ++ output_text number) }
{
    match number {
        None => Ok(()),
        Some(number) => {
            text.append(b" > ")?;
            append_link(alloc, text, number)
        }
    }
}

fn output_count(links: &[LinkSpec], from: usize) -> usize
    ensures { result ≡ length (filter (λ (l : LinkSpec). l.from == from) links.now) }
{
    links
        .iter()
        .filter(|link| link.from as usize == from)
        .count()
}

/// The outputs of an operator.
pub fn append_outputs(
    alloc: Global,
    text: &mut Bytes,
    from: usize,
    links: &[LinkSpec],
) -> Result<(), NoMemory>
    ensures { OnOk result (text.new ≡ text.old ++ outputs_text from links.now) }
{
    let count = output_count(links, from);
    for out in 0..count {
        append_output(alloc, text, link_at(links, from, out))?;
    }
    Ok(())
}
