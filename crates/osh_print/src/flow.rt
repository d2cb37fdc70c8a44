//! Printing a whole flow.

ghost use Rattle.std.specs.Prelude.{◌≡◌, ◌++◌, IfOk, OnOk, codes};
ghost use Rattle.osh_print.specs.FlowText.{directive_text, flow_text, line, lines, mark_text};

use crate::links::{append_inputs, append_outputs};
use crate::options::{append_options, name_of};
use ds_value::{Bytes, NoMemory};
use flow_graph::{Flow, LinkSpec, Mark, OpSpec};
use osh_read::plain_mark;
use osh_table::operator_word;
use std::alloc::Global;

fn mark_text(plain: Mark, mark: Mark) -> &'static [u8]
    ensures { result.now ≡ mark_text plain mark }
{
    match (plain, mark) {
        (Mark::Par, Mark::Seq) => b" [seq]",
        (Mark::Seq, Mark::Par) => b" [par]",
        _ => b"",
    }
}

fn append_line(
    alloc: Global,
    text: &mut Bytes,
    links: &[LinkSpec],
    number: usize,
    op: &OpSpec,
) -> Result<(), NoMemory>
    ensures { OnOk result (text.new ≡ text.old ++ line links.now number op.now) }
{
    let name = name_of(&op.kind);
    text.append(operator_word(name))?;
    append_options(alloc, text, &op.kind)?;
    text.append(mark_text(plain_mark(name), op.mark))?;
    append_inputs(alloc, text, number, links)?;
    append_outputs(alloc, text, number, links)?;
    text.append(b";\n")
}

fn append_lines(
    alloc: Global,
    text: &mut Bytes,
    links: &[LinkSpec],
    ops: &[OpSpec],
) -> Result<(), NoMemory>
    ensures { OnOk result (text.new ≡ text.old ++ lines links.now 0 ops.now) }
{
    for (number, op) in ops.iter().enumerate() {
        append_line(alloc, text, links, number, op)?;
    }
    Ok(())
}

fn append_directive(text: &mut Bytes, stands: bool, word: &[u8]) -> Result<(), NoMemory>
    ensures { OnOk result (text.new ≡ text.old ++ directive_text stands word.now) }
{
    if stands {
        text.append(word)?;
        text.append(b";\n")?;
    }
    Ok(())
}

/// The one text of a flow.
pub fn print_flow(alloc: Global, flow: &Flow) -> Result<Bytes, NoMemory>
    ensures { IfOk result (λ text. text ≡ flow_text flow.now) }
{
    let mut text = Bytes::new(alloc);
    append_directive(&mut text, flow.nopart, b"nopart")?;
    append_directive(&mut text, flow.nosort, b"nosort")?;
    append_lines(alloc, &mut text, flow.links.as_slice(), flow.ops.as_slice())?;
    Ok(text)
}
