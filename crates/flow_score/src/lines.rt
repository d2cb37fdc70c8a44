//! The text of a verdict.

ghost use Rattle.std.specs.Prelude.{◌≡◌, ◌<◌, ◌++◌, OnOk, IfOk, string_bytes, codes, length, get_or, ◌^◌};
ghost use Rattle.std.specs.Fmt.{decimal};
ghost use Rattle.op_base.specs.Columns.{all_columns, lies};
ghost use Rattle.flow_graph.specs.Grades.{grade};
ghost use Rattle.flow_score.specs.Texts.{agree_text, grade_text, state_text, need_text};
ghost use Rattle.flow_score.specs.VerdictText.{state_line, sink_line, missed_text, refused, refusal_text};

use crate::columns::{put, put_columns, put_named_columns, put_named_keys};
use crate::states::{put_need, put_spot};
use ds_schema::Field;
use ds_value::{Bytes, NoMemory};
use flow_graph::{ColSet, State};
use flow_rules::Need;
use std::alloc::{AllocError, Global};

/// Whether the set has all columns of a link.
#[tactic(auto, using(crate::proofs::Widths::all_step, crate::proofs::Widths::all_kept))]
fn has_all(set: &ColSet, width: u32) -> bool
    ensures { result ≡ lies (all_columns width) set.now }
{
    for column in 0..width {
        if !set.contains(column) {
            return false;
        }
    }
    true
}

/// The number of columns, of which there are at most 256.
fn width(fields: &[Field]) -> u32
    requires { length fields.now < 2 ^ 32 }
    ensures { result ≡ length fields.now }
{
    fields.len() as u32
}

fn put_agree(text: &mut Bytes, fields: &[Field], agree: &Option<ColSet>) -> Result<(), NoMemory>
    requires { length fields.now < 2 ^ 32 }
    ensures { OnOk result (text.new ≡ text.old ++ agree_text fields.now agree.now) }
{
    let Some(set) = agree else {
        return put(text, "bag");
    };
    if has_all(set, width(fields)) {
        return put(text, "bag");
    }
    put_named_columns(text, "agree", fields, set.as_slice())
}

pub fn put_state(text: &mut Bytes, fields: &[Field], state: &State) -> Result<(), NoMemory>
    requires { length fields.now < 2 ^ 32 }
    ensures { OnOk result (text.new ≡ text.old ++ state_text fields.now state.now) }
{
    put_agree(text, fields, &state.agree)?;
    put(text, " ")?;
    put_spot(text, fields, &state.place)?;
    put(text, " ")?;
    put_named_keys(text, "sort", fields, state.sort.as_slice())
}

/// The grade of a sink whose link has this state.
fn put_grade(text: &mut Bytes, fields: &[Field], state: &State) -> Result<(), NoMemory>
    requires { length fields.now < 2 ^ 32 }
    ensures { OnOk result (text.new ≡ text.old ++ grade_text fields.now (grade (length fields.now) state.now)) }
{
    let Some(set) = &state.agree else {
        return put(text, "bag");
    };
    if set.as_slice().is_empty() {
        return put(text, "exact");
    }
    if has_all(set, width(fields)) {
        return put(text, "bag");
    }
    put(text, "by ")?;
    put_columns(text, fields, set.as_slice())
}

/// A word, a number and a space.
fn head(alloc: Global, word: &str, number: u32) -> Result<String, AllocError>
    ensures { IfOk result (λ text. string_bytes text ≡ word.now ++ (codes " " ++ (decimal number ++ codes " "))) }
{
    format!(in alloc; "{word} {number} ")
}

pub fn put_state_line(
    alloc: Global,
    text: &mut Bytes,
    link: u32,
    fields: &[Field],
    state: &State,
) -> Result<(), NoMemory>
    requires { length fields.now < 2 ^ 32 }
    ensures { OnOk result (text.new ≡ text.old ++ state_line link fields.now state.now) }
{
    put(text, head(alloc, "link", link)?.as_str())?;
    put_state(text, fields, state)?;
    put(text, "\n")
}

pub fn put_sink_line(
    alloc: Global,
    text: &mut Bytes,
    op: u32,
    fields: &[Field],
    state: &State,
) -> Result<(), NoMemory>
    requires { length fields.now < 2 ^ 32 }
    ensures { OnOk result (text.new ≡ text.old ++ sink_line op fields.now state.now) }
{
    put(text, head(alloc, "sink", op)?.as_str())?;
    put_grade(text, fields, state)?;
    put(text, "\n")
}

#[tactic(auto, unfolding(crate::specs::VerdictText::missed_text))]
fn put_missed(text: &mut Bytes, fields: &[Field], need: &Need, have: &State) -> Result<(), NoMemory>
    requires { length fields.now < 2 ^ 32 }
    ensures { OnOk result (text.new ≡ text.old ++ missed_text fields.now need.now have.now) }
{
    put(text, "need ")?;
    put_need(text, fields, need)?;
    put(text, " have ")?;
    put_state(text, fields, have)?;
    put(text, "\n")
}

#[tactic(auto, unfolding(crate::specs::VerdictText::refused))]
fn put_refused(text: &mut Bytes) -> Result<(), NoMemory>
    ensures { OnOk result (text.new ≡ text.old ++ refused) }
{
    put(text, "verdict refused ")
}

pub fn put_refusal(
    alloc: Global,
    text: &mut Bytes,
    link: u32,
    fields: &[Field],
    need: &Need,
    have: &State,
) -> Result<(), NoMemory>
    requires { length fields.now < 2 ^ 32 }
    ensures { OnOk result (text.new ≡ text.old ++ refusal_text link fields.now need.now have.now) }
{
    put_refused(text)?;
    put(text, head(alloc, "link", link)?.as_str())?;
    put_missed(text, fields, need, have)
}
