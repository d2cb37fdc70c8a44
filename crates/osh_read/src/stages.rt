//! Reading stages.

ghost use Rattle.std.specs.Prelude.{◌≡◌, length, [], if◌then◌else◌, Ok, Err};
ghost use Rattle.ds_lex.specs.Lexemes.{lexeme};
ghost use Rattle.ds_lex.specs.Reading.{Moves, Gives};
ghost use Rattle.osh_read.specs.declared.stage.Joint.TheVariants as joint;
ghost use Rattle.osh_read.specs.Stages.{apart_at, bears, behind_stage_at, directed, directed_at, directive_at, directives_at, ended_at, input_at, joint_at, mark_at, mark_named, mark_of, marked_at, maybe_output_at, nosort_at, output_at, over_at, piped_at, plain_mark, redirect_at, redirects_at, stage_at, stages_at};

use crate::fault::OshWhy;
use crate::method::method;
use crate::options::head;
use crate::stage::{Directive, Directives, Joint, Redirect, Stage};
use crate::token::{next_sign, refuse};
use ds_lex::{Cursor, Lexeme, Refusal, Sort, Stop};
use ds_value::{Bytes, Items};
use flow_graph::Mark;
use osh_table::OpName;
use osh_value::push;
use std::alloc::Global;

/// How an operator runs without a mark.
pub fn plain_mark(op: OpName) -> Mark
    ensures { result ≡ plain_mark op }
{
    match op {
        OpName::Import | OpName::Export => Mark::Seq,
        OpName::Dsread => Mark::Stored,
        _ => Mark::Par,
    }
}

/// Whether an operator that runs so without a mark can have this one.
fn bears(plain: Mark, mark: Mark) -> bool
    ensures { result ≡ bears plain mark }
{
    match plain {
        Mark::Par => true,
        Mark::Seq => match mark {
            Mark::Seq => true,
            _ => false,
        },
        Mark::Stored => false,
    }
}

fn mark_of(word: Lexeme<'_>) -> Result<Mark, Stop<OshWhy>>
    ensures { Gives result (mark_of (mark_named word.entry.bytes.now) (lexeme word.entry)) }
{
    if word.bytes == b"seq".as_slice() {
        Ok(Mark::Seq)
    } else if word.bytes == b"par".as_slice() {
        Ok(Mark::Par)
    } else {
        Err(refuse(word, OshWhy::Syntax))
    }
}

/// The mark behind its bracket.
#[tactic(auto, unfolding(crate::specs::Stages::marked_at))]
fn marked(op: OpName, bracket: Lexeme<'_>, cursor: &mut Cursor<'_>) -> Result<Mark, Stop<OshWhy>>
    ensures { Moves result cursor.new (marked_at op (lexeme bracket.entry) cursor.old) }
{
    let word = cursor.token()?;
    let mark = mark_of(word)?;
    cursor.expect(b"]", OshWhy::Syntax)?;
    if bears(plain_mark(op), mark) {
        return Ok(mark);
    }
    Err(refuse(bracket, OshWhy::Constraint))
}

fn mark(op: OpName, cursor: &mut Cursor<'_>) -> Result<Mark, Stop<OshWhy>>
    ensures { Moves result cursor.new (mark_at op cursor.old) }
{
    match next_sign(cursor, b"[") {
        Some(bracket) => marked(op, bracket, cursor),
        None => Ok(plain_mark(op)),
    }
}

fn owned(alloc: Global, word: Lexeme<'_>) -> Result<Bytes, Stop<OshWhy>>
    ensures { Gives result (Ok word.entry.bytes.now) }
{
    Ok(Bytes::from_vec(word.bytes.to_vec(alloc)?))
}

/// Behind a `<` at this place.
#[tactic(auto, unfolding(crate::specs::Stages::input_at))]
fn input(
    alloc: Global,
    at: usize,
    cursor: &mut Cursor<'_>,
) -> Result<Option<Redirect>, Stop<OshWhy>>
    ensures { Moves result cursor.new (input_at at cursor.old) }
{
    let (method, flag) = method(alloc, cursor)?;
    let word = cursor.expect_sort(Sort::Word, OshWhy::Syntax)?;
    let name = owned(alloc, word)?;
    Ok(Some(Redirect::In {
        at,
        name,
        method,
        flag,
    }))
}

/// Behind a `>` at this place.
#[tactic(auto, unfolding(crate::specs::Stages::output_at))]
fn output(
    alloc: Global,
    at: usize,
    cursor: &mut Cursor<'_>,
) -> Result<Option<Redirect>, Stop<OshWhy>>
    ensures { Moves result cursor.new (output_at at cursor.old) }
{
    let word = cursor.expect_sort(Sort::Word, OshWhy::Syntax)?;
    let name = owned(alloc, word)?;
    Ok(Some(Redirect::Out { at, name }))
}

fn maybe_output(alloc: Global, cursor: &mut Cursor<'_>) -> Result<Option<Redirect>, Stop<OshWhy>>
    ensures { Moves result cursor.new (maybe_output_at cursor.old) }
{
    match next_sign(cursor, b">") {
        Some(sign) => output(alloc, sign.at, cursor),
        None => Ok(None),
    }
}

/// A redirect, where one comes.
fn redirect(alloc: Global, cursor: &mut Cursor<'_>) -> Result<Option<Redirect>, Stop<OshWhy>>
    ensures { Moves result cursor.new (redirect_at cursor.old) }
{
    match next_sign(cursor, b"<") {
        Some(sign) => input(alloc, sign.at, cursor),
        None => maybe_output(alloc, cursor),
    }
}

fn redirects(alloc: Global, cursor: &mut Cursor<'_>) -> Result<Items<Redirect>, Stop<OshWhy>>
    ensures { Moves result cursor.new (redirects_at cursor.old) }
{
    let count = cursor.len();
    let mut found = Items::new(alloc);
    for _count in 0..count {
        let redirect = match redirect(alloc, cursor) {
            Ok(Some(redirect)) => redirect,
            Ok(None) => return Ok(found),
            Err(stop) => return Err(stop),
        };
        push(&mut found, redirect)?;
    }
    Ok(found)
}

/// A stage; so many operators stand before it.
#[tactic(auto, unfolding(crate::specs::Stages::stage_at))]
fn stage(
    alloc: Global,
    before: usize,
    cut: bool,
    joined: Joint,
    cursor: &mut Cursor<'_>,
) -> Result<Stage, Stop<OshWhy>>
    ensures { Moves result cursor.new (stage_at before cut joined cursor.old) }
{
    let (op, kind) = head(alloc, before, cut, cursor)?;
    let mark = mark(op, cursor)?;
    let redirects = redirects(alloc, cursor)?;
    Ok(Stage {
        kind,
        mark,
        joined,
        redirects,
    })
}

/// The end of the text, which isn't come where the text is cut off.
fn over(cut: bool) -> Result<Option<Joint>, Stop<OshWhy>>
    ensures { Gives result (if cut then Err Refusal.AtEnd else Ok None) }
{
    if cut {
        Err(Stop::Refused(Refusal::AtEnd))
    } else {
        Ok(None)
    }
}

#[tactic(auto, unfolding(crate::specs::Stages::piped_at))]
fn piped(alloc: Global, cursor: &mut Cursor<'_>) -> Result<Option<Joint>, Stop<OshWhy>>
    ensures { Moves result cursor.new (piped_at cursor.old) }
{
    let (method, flag) = method(alloc, cursor)?;
    Ok(Some(Joint::Piped(method, flag)))
}

/// Behind a `;`.
fn apart(cut: bool, cursor: &Cursor<'_>) -> Result<Option<Joint>, Stop<OshWhy>>
    ensures { Moves result cursor.now (apart_at cut cursor.now) }
{
    if cursor.is_empty() {
        return over(cut);
    }
    Ok(Some(Joint::Apart))
}

#[tactic(auto, unfolding(crate::specs::Stages::ended_at))]
fn ended(cut: bool, cursor: &Cursor<'_>) -> Result<Option<Joint>, Stop<OshWhy>>
    ensures { Moves result cursor.now (ended_at cut cursor.now) }
{
    cursor.finish(OshWhy::Syntax)?;
    over(cut)
}

fn behind_stage(cut: bool, cursor: &mut Cursor<'_>) -> Result<Option<Joint>, Stop<OshWhy>>
    ensures { Moves result cursor.new (behind_stage_at cut cursor.old) }
{
    if cursor.accept(b";") {
        return apart(cut, cursor);
    }
    ended(cut, cursor)
}

/// What joins the next stage, where one comes.
fn joint(alloc: Global, cut: bool, cursor: &mut Cursor<'_>) -> Result<Option<Joint>, Stop<OshWhy>>
    ensures { Moves result cursor.new (joint_at cut cursor.old) }
{
    if cursor.accept(b"|") {
        return piped(alloc, cursor);
    }
    behind_stage(cut, cursor)
}

/// All stages.
pub fn stages(
    alloc: Global,
    cut: bool,
    cursor: &mut Cursor<'_>,
) -> Result<Items<Stage>, Stop<OshWhy>>
    ensures { Moves result cursor.new (stages_at (length cursor.old) cut joint.Apart [] cursor.old) }
{
    let count = cursor.len();
    let mut found = Items::new(alloc);
    let mut joined = Joint::Apart;
    for _count in 0..count {
        let stage = match stage(alloc, found.as_slice().len(), cut, joined, cursor) {
            Ok(stage) => stage,
            Err(stop) => return Err(stop),
        };
        push(&mut found, stage)?;
        joined = match joint(alloc, cut, cursor) {
            Ok(Some(next)) => next,
            Ok(None) => return Ok(found),
            Err(stop) => return Err(stop),
        };
    }
    Err(Stop::Refused(Refusal::AtEnd))
}

#[tactic(auto, unfolding(crate::specs::Stages::directed_at))]
fn directed_by(
    directive: Directive,
    cursor: &mut Cursor<'_>,
) -> Result<Option<Directive>, Stop<OshWhy>>
    ensures { Moves result cursor.new (directed_at directive cursor.old) }
{
    cursor.expect(b";", OshWhy::Syntax)?;
    Ok(Some(directive))
}

fn nosort(cursor: &mut Cursor<'_>) -> Result<Option<Directive>, Stop<OshWhy>>
    ensures { Moves result cursor.new (nosort_at cursor.old) }
{
    if cursor.accept(b"nosort") {
        return directed_by(Directive::NoSort, cursor);
    }
    Ok(None)
}

fn directive(cursor: &mut Cursor<'_>) -> Result<Option<Directive>, Stop<OshWhy>>
    ensures { Moves result cursor.new (directive_at cursor.old) }
{
    if cursor.accept(b"nopart") {
        return directed_by(Directive::NoPart, cursor);
    }
    nosort(cursor)
}

fn directed(found: Directives, directive: Directive) -> Directives
    ensures { result ≡ directed found directive }
{
    match directive {
        Directive::NoPart => Directives {
            nopart: true,
            nosort: found.nosort,
        },
        Directive::NoSort => Directives {
            nopart: found.nopart,
            nosort: true,
        },
    }
}

/// The words before the first statement.
pub fn directives(cursor: &mut Cursor<'_>) -> Result<Directives, Stop<OshWhy>>
    ensures { Moves result cursor.new (directives_at cursor.old) }
{
    let count = cursor.len();
    let mut found = Directives {
        nopart: false,
        nosort: false,
    };
    for _count in 0..count {
        let next = match directive(cursor) {
            Ok(Some(next)) => next,
            Ok(None) => return Ok(found),
            Err(stop) => return Err(stop),
        };
        found = directed(found, next);
    }
    Ok(found)
}
