//! Reading tokens from left to right.

ghost use Rattle.std.specs.Prelude.{◌≡◌, ◌==◌, length, OnErr};
ghost use Rattle.std.specs.Option.{option_map};
ghost use Rattle.ds_lex.specs.Lexemes.{lexeme, lexemes};
ghost use Rattle.ds_lex.specs.Reading.{accept_at, expect_at, finish_at, first_of, is_sort, moved_token, next_place, sort_at, token_at};

use crate::lexeme::Lexeme;
use crate::refusal::Refusal;
use crate::token::Sort;
use std::marker::Model;

/// The tokens that are left to read.
#[derive(Drop)]
pub struct Cursor<'a> {
    rest: &'a [Lexeme<'a>],
}

impl<'a> Model for Cursor<'a> {
    ghost use Rattle.std.specs.Prelude.{List};
    ghost use Rattle.ds_lex.specs.Lexemes.{Lexeme, lexemes};

    ghost Value = { List Lexeme };

    ghost view = { λ c. lexemes c.rest.now };
}

fn is_sort(wanted: Sort, sort: Sort) -> bool
    ensures { result ≡ is_sort wanted sort }
{
    wanted == sort
}

fn refuse<W>(token: Lexeme<'_>, why: W) -> Refusal<W>
    ensures { result ≡ Refusal.At token.entry.at why }
{
    Refusal::At { at: token.at, why }
}

impl<'a> Cursor<'a> {
    pub fn new(rest: &'a [Lexeme<'a>]) -> Cursor<'a>
        ensures { result ≡ lexemes rest.now }
    {
        Cursor { rest }
    }

    pub fn len(&self) -> usize
        ensures { result ≡ length self.now }
    {
        self.rest.len()
    }

    pub fn is_empty(&self) -> bool
        ensures { result ≡ (length self.now == 0) }
    {
        self.rest.is_empty()
    }

    /// The tokens that are left.
    pub fn rest(&self) -> &'a [Lexeme<'a>]
        ensures { lexemes result.now ≡ self.now }
    {
        self.rest
    }

    /// The next token.
    pub fn peek(&self) -> Option<Lexeme<'a>>
        ensures { option_map lexeme result ≡ first_of self.now }
    {
        match self.rest {
            [] => None,
            [token, ..] => Some(*token),
        }
    }

    /// The place of the next token, or else of the end.
    pub fn place(&self, end: usize) -> usize
        ensures { result ≡ next_place end self.now }
    {
        match self.rest {
            [] => end,
            [token, ..] => token.at,
        }
    }

    /// Passes over the next token.
    #[tactic(auto, unfolding(crate::specs::Reading::token_at))]
    pub fn token<W>(&mut self) -> Result<Lexeme<'a>, Refusal<W>>
        ensures read { moved_token result self.new ≡ token_at W self.old }
        ensures unchanged { OnErr result (self.new ≡ self.old) }
    {
        match self.rest {
            [] => Err(Refusal::AtEnd),
            [token, more @ ..] => {
                self.rest = more;
                Ok(*token)
            }
        }
    }

    /// Passes over this word or sign; another token is refused for this cause.
    #[tactic(auto, unfolding(crate::specs::Reading::expect_at))]
    pub fn expect<W: Copy>(&mut self, word: &[u8], why: W) -> Result<Lexeme<'a>, Refusal<W>>
        ensures read { moved_token result self.new ≡ expect_at word.now why self.old }
        ensures unchanged { OnErr result (self.new ≡ self.old) }
    {
        match self.rest {
            [] => Err(Refusal::AtEnd),
            [token, more @ ..] => {
                if token.bytes == word {
                    self.rest = more;
                    Ok(*token)
                } else {
                    Err(refuse(*token, why))
                }
            }
        }
    }

    /// Passes over a token of this sort; another token is refused for this cause.
    #[tactic(auto, unfolding(crate::specs::Reading::sort_at))]
    pub fn expect_sort<W: Copy>(&mut self, wanted: Sort, why: W) -> Result<Lexeme<'a>, Refusal<W>>
        ensures read { moved_token result self.new ≡ sort_at wanted why self.old }
        ensures unchanged { OnErr result (self.new ≡ self.old) }
    {
        match self.rest {
            [] => Err(Refusal::AtEnd),
            [token, more @ ..] => {
                if is_sort(wanted, token.sort) {
                    self.rest = more;
                    Ok(*token)
                } else {
                    Err(refuse(*token, why))
                }
            }
        }
    }

    /// Passes over this word or sign where it comes.
    #[tactic(auto, unfolding(crate::specs::Reading::accept_at))]
    pub fn accept(&mut self, word: &[u8]) -> bool
        ensures { (result, self.new) ≡ accept_at word.now self.old }
    {
        match self.rest {
            [] => false,
            [token, more @ ..] => {
                if token.bytes == word {
                    self.rest = more;
                    true
                } else {
                    false
                }
            }
        }
    }

    /// Refuses a further token for this cause.
    #[tactic(auto, unfolding(crate::specs::Reading::finish_at))]
    pub fn finish<W: Copy>(&self, why: W) -> Result<(), Refusal<W>>
        ensures { result ≡ finish_at why self.now }
    {
        match self.rest {
            [] => Ok(()),
            [token, ..] => Err(refuse(*token, why)),
        }
    }
}
