//! All tokens of a text.

ghost use Rattle.std.specs.Prelude.{◌≡◌, IfOk, IfErr, Some, None, ◌⊎◌};
ghost use Rattle.ds_lex.specs.Lexed.{lexed, Lexed};
ghost use Rattle.ds_lex.specs.Seen.{seen, Refuses};

use crate::piece::piece_at;
use crate::token::{LexFault, Mode, Piece, Token};
use std::alloc::{AllocError, Global};

/// The tokens up to the first place where none begins.
#[derive(Drop)]
pub struct Scanned {
    pub tokens: Vec<Token>,
    pub bad: Option<usize>,
}

/// The tokens of a text up to its end, or to the first place where neither a separator nor a token begins.
pub fn scan(alloc: Global, mode: Mode, text: &[u8]) -> Result<Scanned, AllocError>
    ensures { IfOk result (λ s. seen s ≡ lexed mode text.now) }
{
    let mut tokens = Vec::new(alloc);
    let mut at = 0;
    while at < text.len() {
        match piece_at(mode, &text[at..]) {
            None => {
                return Ok(Scanned {
                    tokens,
                    bad: Some(at),
                });
            }
            Some(Piece::Gap(n)) => at += n,
            Some(Piece::Part(sort, n)) => {
                tokens.push(Token {
                    sort,
                    from: at,
                    to: at + n,
                })?;
                at += n;
            }
        }
    }
    Ok(Scanned { tokens, bad: None })
}

/// The tokens of a text, or the first place where none begins.
pub fn tokens(alloc: Global, mode: Mode, text: &[u8]) -> Result<Vec<Token>, LexFault>
    ensures ok { IfOk result (λ ts. record { tokens = ts.items; bad = None } ≡ lexed mode text.now) }
    ensures err { IfErr result (λ e. Refuses e (lexed mode text.now)) }
{
    match scan(alloc, mode, text) {
        Ok(Scanned { tokens, bad: None }) => Ok(tokens),
        Ok(
            Scanned {
                tokens: _,
                bad: Some(at),
            },
        ) => Err(LexFault::BadToken { at }),
        Err(_) => Err(LexFault::Memory),
    }
}
