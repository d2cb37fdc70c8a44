//! Single tokens.

ghost use Rattle.std.specs.Prelude.{◌≡◌, drop};
ghost use Rattle.std.specs.Option.{option_map};
ghost use Rattle.ds_lex.specs.Lexemes.{lexeme};
ghost use Rattle.ds_lex.specs.Reading.{first_of};
ghost use Rattle.ds_lex.specs.declared.refusal.Stop.TheVariants as stop;
ghost use Rattle.osh_read.specs.Reading.{sign_at};
ghost use Rattle.osh_read.specs.Options.{is_opt, is_value, opt_at, value_at};

use crate::fault::OshWhy;
use ds_lex::{Cursor, Lexeme, Refusal, Sort, Stop};

pub fn refuse(token: Lexeme<'_>, why: OshWhy) -> Stop<OshWhy>
    ensures { result ≡ stop.Refused (Refusal.At token.entry.at why) }
{
    Stop::Refused(Refusal::At { at: token.at, why })
}

pub fn is_opt(sort: Sort) -> bool
    ensures { result ≡ is_opt sort }
{
    match sort {
        Sort::Opt => true,
        _ => false,
    }
}

pub fn is_value(sort: Sort) -> bool
    ensures { result ≡ is_value sort }
{
    match sort {
        Sort::Word | Sort::Number | Sort::Quoted => true,
        _ => false,
    }
}

/// This word or sign, where it comes.
#[tactic(auto, unfolding(crate::specs::Reading::sign_at, ds_lex::specs::Reading::expect_at))]
pub fn next_sign<'a>(cursor: &mut Cursor<'a>, sign: &[u8]) -> Option<Lexeme<'a>>
    ensures { (option_map lexeme result, cursor.new) ≡ sign_at sign.now cursor.old }
{
    cursor.expect(sign, OshWhy::Syntax).ok()
}

/// An option's word, where one comes.
#[tactic(auto, unfolding(crate::specs::Options::opt_at, ds_lex::specs::Reading::sort_at))]
pub fn next_opt<'a>(cursor: &mut Cursor<'a>) -> Option<Lexeme<'a>>
    ensures { (option_map lexeme result, cursor.new) ≡ opt_at cursor.old }
{
    cursor.expect_sort(Sort::Opt, OshWhy::Syntax).ok()
}

/// Passes over a token, where one comes.
fn pass(cursor: &mut Cursor<'_>)
    ensures { cursor.new ≡ drop 1 cursor.old }
{
    let _passed = cursor.token::<OshWhy>();
}

/// A token that can be a value, where one comes.
pub fn next_value<'a>(cursor: &mut Cursor<'a>) -> Option<Lexeme<'a>>
    ensures { (option_map lexeme result, cursor.new) ≡ value_at cursor.old }
{
    match cursor.peek() {
        Some(token) => {
            if is_value(token.sort) {
                pass(cursor);
                return Some(token);
            }
            None
        }
        None => None,
    }
}
