//! Whole texts.

ghost use Rattle.std.specs.Prelude.{◌≡◌, IfOk, IfErr};
ghost use Rattle.expr_read.specs.First.{Refuses};
ghost use Rattle.expr_read.specs.Grammar.{IsSpelled, SpellsNone};
ghost use Rattle.expr_read.specs.Reading.{Answers, Ends, end_place, expr_of, whole_at};

use crate::fault::ExprFault;
use crate::halt::Halt;
use crate::operand::chain;
use crate::tree::Expr;
use crate::what::Level;
use ds_lex::{Cursor, LexedText, Mode, lex};
use std::alloc::Global;

/// How many brackets and signs may be open at an atom.
const MOST_OPEN: u8 = 64;

fn end_place(bad: Option<usize>, len: usize) -> usize
    ensures { result ≡ end_place bad len }
{
    match bad {
        None => len,
        Some(at) => at,
    }
}

#[tactic(auto, unfolding(crate::specs::Reading::whole_at))]
fn whole(alloc: Global, depth: u8, cursor: &mut Cursor<'_>) -> Result<Expr, Halt>
    ensures { Ends result cursor.new (whole_at depth cursor.old) }
{
    let expr = chain(alloc, depth, Level::Or, cursor)?;
    match cursor.rest() {
        [] => Ok(expr),
        _ => Err(Halt::Stuck),
    }
}

#[tactic(auto, unfolding(crate::specs::Reading::expr_of))]
fn read(alloc: Global, text: &[u8]) -> Result<Expr, ExprFault>
    ensures { Answers result (expr_of text.now) }
{
    let LexedText { lexemes, bad } = lex(alloc, Mode::Inner, text)?;
    let mut cursor = Cursor::new(&lexemes);
    match whole(alloc, MOST_OPEN, &mut cursor) {
        Ok(expr) => match bad {
            None => Ok(expr),
            Some(at) => Err(ExprFault::Syntax { at }),
        },
        Err(Halt::Stuck) => Err(ExprFault::Syntax {
            at: cursor.place(end_place(bad, text.len())),
        }),
        Err(Halt::Memory) => Err(ExprFault::Memory),
    }
}

/// The expression that the text spells, all of it, or the first place from which none goes on.
pub fn parse(alloc: Global, text: &[u8]) -> Result<Expr, ExprFault>
    ensures answers { Answers result (expr_of text.now) }
    ensures spelled { IfOk result (λ e. IsSpelled text.now e) }
    ensures first_fault { IfErr result (λ fault. Refuses fault text.now) }
    ensures none { IfErr result (λ fault. SpellsNone fault text.now) }
{
    read(alloc, text)
}
