//! Reading an operator with its options.

ghost use Rattle.std.specs.Prelude.{◌≡◌, ◌&&◌, ◌||◌, not, ◌==◌, length, nat_le, false, []};
ghost use Rattle.std.specs.List.{list_any, list_all};
ghost use Rattle.std.specs.Option.{option_map};
ghost use Rattle.std.specs.Str.{bytes_eq};
ghost use Rattle.ds_lex.specs.Lexemes.{lexeme, lexemes};
ghost use Rattle.ds_lex.specs.Reading.{Gives, Moves, first_of};
ghost use Rattle.osh_table.specs.Options.{options_of};
ghost use Rattle.osh_value.specs.Kinds.{kind_of};
ghost use Rattle.osh_read.specs.Options.{clashes, complete, ends_ahead, has_group, head_at, is_absent, is_flag, is_lacking, is_missing, lacks_option, lacks_value, needs_any, next_setting_at, setting_at, settings_at, stands_ahead, taken_at, value_comes};

use crate::fault::OshWhy;
use crate::token::{is_opt, is_value, next_opt, next_value, refuse};
use ds_lex::{Cursor, Lexeme, Refusal, Sort, Stop};
use ds_value::{Items, NoMemory};
use flow_graph::OpKind;
use osh_table::{Form, OpName, OptRow, operator_named, option_word, options_of, row_named};
use osh_value::{OptValue, Setting, content, kind_of, push, value_of};
use std::alloc::Global;

/// How many operators a flow may have.
const OPERATORS: usize = 200;

fn is_flag(form: Form) -> bool
    ensures { result ≡ is_flag form }
{
    match form {
        Form::Flag => true,
        _ => false,
    }
}

fn value_comes(next: Option<Lexeme<'_>>) -> bool
    ensures { result ≡ value_comes (option_map lexeme next.entry) }
{
    match next {
        Some(token) => is_value(token.sort),
        None => false,
    }
}

/// Whether an option needs a value, and none follows.
fn lacks_value(row: OptRow, cut: bool, next: Option<Lexeme<'_>>) -> bool
    ensures { result ≡ lacks_value row cut (option_map lexeme next.entry) }
{
    !is_flag(row.form) && (!value_comes(next) && !(cut && next.is_none()))
}

fn has_group(found: &Items<Setting>, group: u8) -> bool
    ensures { result ≡ has_group found.now group }
{
    found
        .as_slice()
        .iter()
        .any(|setting| setting.group == group)
}

fn clashes(found: &Items<Setting>, group: u8) -> bool
    ensures { result ≡ clashes found.now group }
{
    group != 0 && has_group(found, group)
}

/// The value behind an option of this form.
fn taken(alloc: Global, form: Form, cursor: &mut Cursor<'_>) -> Result<OptValue, Stop<OshWhy>>
    ensures { Moves result cursor.new (taken_at form cursor.old) }
{
    match next_value(cursor) {
        Some(token) => match value_of(alloc, form, content(token)) {
            Ok(Some(value)) => Ok(value),
            Ok(None) => Err(refuse(token, OshWhy::BadValue)),
            Err(NoMemory) => Err(Stop::Memory),
        },
        None => if is_flag(form) {
            Ok(OptValue::Flag)
        } else {
            Err(Stop::Refused(Refusal::AtEnd))
        },
    }
}

/// The option with its value, behind those that were found.
#[tactic(auto, unfolding(crate::specs::Options::setting_at))]
fn setting(
    alloc: Global,
    op: OpName,
    cut: bool,
    found: &Items<Setting>,
    option: Lexeme<'_>,
    cursor: &mut Cursor<'_>,
) -> Result<Option<Setting>, Stop<OshWhy>>
    ensures { Moves result cursor.new (setting_at op cut found.now (lexeme option.entry) cursor.old) }
{
    let row = match row_named(op, option.bytes) {
        Some(row) => row,
        None => return Err(refuse(option, OshWhy::UnknownOption)),
    };
    if lacks_value(row, cut, cursor.peek()) {
        return Err(refuse(option, OshWhy::BadValue));
    }
    if clashes(found, row.group) {
        return Err(refuse(option, OshWhy::DoubleOption));
    }
    let value = taken(alloc, row.form, cursor)?;
    Ok(Some(Setting {
        opt: row.opt,
        group: row.group,
        value,
    }))
}

/// An option, where one comes.
fn next_setting(
    alloc: Global,
    op: OpName,
    cut: bool,
    found: &Items<Setting>,
    cursor: &mut Cursor<'_>,
) -> Result<Option<Setting>, Stop<OshWhy>>
    ensures { Moves result cursor.new (next_setting_at op cut found.now cursor.old) }
{
    match next_opt(cursor) {
        Some(option) => setting(alloc, op, cut, found, option, cursor),
        None => Ok(None),
    }
}

fn settings(
    alloc: Global,
    op: OpName,
    cut: bool,
    cursor: &mut Cursor<'_>,
) -> Result<Items<Setting>, Stop<OshWhy>>
    ensures { Moves result cursor.new (settings_at op cut cursor.old) }
{
    let count = cursor.len();
    let mut found = Items::new(alloc);
    for _count in 0..count {
        let setting = match next_setting(alloc, op, cut, &found, cursor) {
            Ok(Some(setting)) => setting,
            Ok(None) => return Ok(found),
            Err(stop) => return Err(stop),
        };
        push(&mut found, setting)?;
    }
    Ok(found)
}

/// Whether an option of this word stands among those at the front.
fn stands_ahead(word: &[u8], tokens: &[Lexeme<'_>]) -> bool
    ensures { result ≡ stands_ahead false word.now (lexemes tokens.now) }
{
    let mut may = false;
    for token in tokens {
        if is_opt(token.sort) {
            if token.bytes == word {
                return true;
            }
            may = true;
        } else {
            if !may || !is_value(token.sort) {
                return false;
            }
            may = false;
        }
    }
    false
}

/// Whether the tokens end inside the options at the front, or directly behind them.
fn ends_ahead(tokens: &[Lexeme<'_>]) -> bool
    ensures { result ≡ ends_ahead false (lexemes tokens.now) }
{
    let mut may = false;
    for token in tokens {
        if is_opt(token.sort) {
            may = true;
        } else {
            if !may || !is_value(token.sort) {
                return false;
            }
            may = false;
        }
    }
    true
}

fn needs_any(op: OpName) -> bool
    ensures { result ≡ needs_any op }
{
    match op {
        OpName::Modify => true,
        _ => false,
    }
}

fn is_absent(tokens: &[Lexeme<'_>], row: OptRow) -> bool
    ensures { result ≡ is_absent (lexemes tokens.now) row }
{
    !stands_ahead(option_word(row.opt), tokens)
}

fn is_lacking(tokens: &[Lexeme<'_>], row: OptRow) -> bool
    ensures { result ≡ is_lacking (lexemes tokens.now) row }
{
    row.required && is_absent(tokens, row)
}

fn any_lacking(op: OpName, tokens: &[Lexeme<'_>]) -> bool
    ensures { result ≡ list_any (is_lacking (lexemes tokens.now)) (options_of op) }
{
    options_of(op).iter().any(|row| is_lacking(tokens, *row))
}

fn all_absent(op: OpName, tokens: &[Lexeme<'_>]) -> bool
    ensures { result ≡ list_all (is_absent (lexemes tokens.now)) (options_of op) }
{
    options_of(op).iter().all(|row| is_absent(tokens, *row))
}

fn lacks_option(op: OpName, tokens: &[Lexeme<'_>]) -> bool
    ensures { result ≡ lacks_option op (lexemes tokens.now) }
{
    any_lacking(op, tokens) || (needs_any(op) && all_absent(op, tokens))
}

fn is_missing(op: OpName, cut: bool, tokens: &[Lexeme<'_>]) -> bool
    ensures { result ≡ is_missing op cut (lexemes tokens.now) }
{
    lacks_option(op, tokens) && !(ends_ahead(tokens) && cut)
}

/// The operator that options say. It can lack one only where the text is cut off behind them.
fn complete(alloc: Global, op: OpName, settings: &Items<Setting>) -> Result<OpKind, Stop<OshWhy>>
    ensures { Gives result (complete (kind_of op settings.now)) }
{
    match kind_of(alloc, op, settings.as_slice()) {
        Ok(Some(kind)) => Ok(kind),
        Ok(None) => Err(Stop::Refused(Refusal::AtEnd)),
        Err(NoMemory) => Err(Stop::Memory),
    }
}

/// The word of an operator and its options; so many operators stand before it.
#[tactic(auto, unfolding(crate::specs::Options::head_at))]
pub fn head(
    alloc: Global,
    before: usize,
    cut: bool,
    cursor: &mut Cursor<'_>,
) -> Result<(OpName, OpKind), Stop<OshWhy>>
    ensures { Moves result cursor.new (head_at before cut cursor.old) }
{
    let word = cursor.expect_sort(Sort::Word, OshWhy::Syntax)?;
    let op = match operator_named(word.bytes) {
        Some(op) => op,
        None => return Err(refuse(word, OshWhy::UnknownOperator)),
    };
    if is_missing(op, cut, cursor.rest()) {
        return Err(refuse(word, OshWhy::MissingOption));
    }
    if OPERATORS <= before {
        return Err(refuse(word, OshWhy::TooMany));
    }
    let settings = settings(alloc, op, cut, cursor)?;
    let kind = complete(alloc, op, &settings)?;
    Ok((op, kind))
}
