//! Tokens with their bytes.

ghost use Rattle.std.specs.Prelude.{◌≡◌, IfOk, map, take};
ghost use Rattle.ds_lex.specs.Lexemes.{end_of, front_text, lexed_text, lexeme_of, lexemes, limited_text, part, place_of, seen_limited, seen_text};

use crate::scanning::{Scanned, scan};
use crate::token::{Mode, Sort, Token};
use std::alloc::{AllocError, Global};

/// How many bytes of a long text are made into tokens.
pub const TEXT_LIMIT: usize = 1_048_576;

/// A token with its place and its bytes; those of a Quoted have their quotes.
#[derive(Clone, Copy, Debug)]
pub struct Lexeme<'a> {
    pub at: usize,
    pub sort: Sort,
    pub bytes: &'a [u8],
}

/// What stands behind the last token, by its place: the end of the text, bytes with
/// which no token begins, or the limit behind which no tokens are made.
#[derive(Clone, Copy, Debug, PartialEq, Eq)]
pub enum End {
    Text(usize),
    NoToken(usize),
    Limit(usize),
}

impl End {
    pub fn place(self) -> usize
        ensures { result ≡ place_of self }
    {
        match self {
            End::Text(at) | End::NoToken(at) | End::Limit(at) => at,
        }
    }
}

/// The tokens of a text up to its end, or to the first place where none begins.
#[derive(Drop)]
pub struct LexedText<'a> {
    pub lexemes: Vec<Lexeme<'a>>,
    pub bad: Option<usize>,
}

/// The tokens of a text's first `TEXT_LIMIT` bytes, and what stands behind the last of them.
#[derive(Drop)]
pub struct LimitedText<'a> {
    pub lexemes: Vec<Lexeme<'a>>,
    pub end: End,
}

/// The bytes from one place up to another, as far as they are there.
fn part(text: &[u8], from: usize, to: usize) -> &[u8]
    ensures { result.now ≡ part text.now from to }
{
    if to <= from || text.len() <= from {
        return &[];
    }
    if text.len() <= to {
        return &text[from..];
    }
    &text[from..to]
}

fn with_bytes<'a>(
    alloc: Global,
    text: &'a [u8],
    tokens: &[Token],
) -> Result<Vec<Lexeme<'a>>, AllocError>
    ensures { IfOk result (λ ts. lexemes ts.items ≡ map (lexeme_of text.now) tokens.now) }
{
    let mut found = Vec::with_capacity(alloc, tokens.len())?;
    for token in tokens {
        found.push(Lexeme {
            at: token.from,
            sort: token.sort,
            bytes: part(text, token.from, token.to),
        })?;
    }
    Ok(found)
}

fn end_of(limit: usize, len: usize, bad: Option<usize>) -> End
    ensures { result ≡ end_of limit len bad }
{
    match bad {
        Some(at) => End::NoToken(at),
        None => if limit < len {
            End::Limit(limit)
        } else {
            End::Text(len)
        },
    }
}

/// The tokens of a whole text.
pub fn lex<'a>(alloc: Global, mode: Mode, text: &'a [u8]) -> Result<LexedText<'a>, AllocError>
    ensures { IfOk result (λ t. seen_text t ≡ lexed_text mode text.now) }
{
    let Scanned { tokens, bad } = scan(alloc, mode, text)?;
    let lexemes = with_bytes(alloc, text, tokens.as_slice())?;
    Ok(LexedText { lexemes, bad })
}

fn front(text: &[u8], limit: usize) -> &[u8]
    ensures { result.now ≡ take limit text.now }
{
    if text.len() <= limit {
        return text;
    }
    &text[..limit]
}

fn lex_front<'a>(
    alloc: Global,
    mode: Mode,
    limit: usize,
    text: &'a [u8],
) -> Result<LimitedText<'a>, AllocError>
    ensures { IfOk result (λ t. seen_limited t ≡ front_text mode limit text.now) }
{
    let LexedText { lexemes, bad } = lex(alloc, mode, front(text, limit))?;
    Ok(LimitedText {
        lexemes,
        end: end_of(limit, text.len(), bad),
    })
}

/// The tokens of a text's first `TEXT_LIMIT` bytes. A token that goes on behind them is cut.
#[tactic(auto, unfolding(crate::specs::Lexemes::limited_text))]
pub fn lex_limited<'a>(
    alloc: Global,
    mode: Mode,
    text: &'a [u8],
) -> Result<LimitedText<'a>, AllocError>
    ensures { IfOk result (λ t. seen_limited t ≡ limited_text mode text.now) }
{
    lex_front(alloc, mode, TEXT_LIMIT, text)
}
