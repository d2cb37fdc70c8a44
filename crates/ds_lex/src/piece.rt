//! What begins at a place.

ghost use Rattle.std.specs.Prelude.{◌≡◌, ◌∷◌, ◌+◌, ◌≤◌, ◌<◌, length, not, position, ◌==◌, IfSome, IsTrue, ◌↔◌, true};
ghost use Rattle.std.specs.List.{list_all};
ghost use Rattle.ds_lex.specs.Pieces.{is_blank, is_digit, is_letter, is_opt_byte, is_word_byte, is_text_byte, is_sign_byte, is_double_sign, comment_len, number_len, quoted_of, sign_of, piece_from, piece_at, size_of, IsWithin, gap_of, opens_comment, opens_word, opens_quoted, opens_option, count_front, begins_with};

use crate::token::{Mode, Piece, Sort};

fn is_blank(b: u8) -> bool
    ensures { result ≡ is_blank b }
{
    b == b'\t' || b == b'\n' || b == b'\r' || b == b' '
}

/// '0' to '9'.
pub fn is_digit(b: u8) -> bool
    ensures { result ≡ is_digit b }
{
    b'0' <= b && b <= b'9'
}

fn is_letter(b: u8) -> bool
    ensures { result ≡ is_letter b }
{
    (b'A' <= b && b <= b'Z') || (b'a' <= b && b <= b'z')
}

/// A letter, a digit or '_'.
pub fn is_opt_byte(b: u8) -> bool
    ensures { result ≡ is_opt_byte b }
{
    is_letter(b) || is_digit(b) || b == b'_'
}

fn is_word_byte(b: u8) -> bool
    ensures { result ≡ is_word_byte b }
{
    is_opt_byte(b) || b == b'.'
}

fn is_text_byte(b: u8) -> bool
    ensures { result ≡ is_text_byte b }
{
    b >= 32 || b == 9
}

fn is_sign_byte(b: u8) -> bool
    ensures { result ≡ is_sign_byte b }
{
    b"()[]{},;:|<>=+-*/%!".iter().any(|s| *s == b)
}

fn is_double_sign(b: u8, c: u8) -> bool
    ensures { result ≡ is_double_sign b c }
{
    (c == b'=' && (b == b'=' || b == b'!' || b == b'<' || b == b'>'))
        || (b == b'&' && c == b'&')
        || (b == b'|' && c == b'|')
}

fn word_len(bytes: &[u8]) -> usize
    ensures { result ≡ count_front is_word_byte bytes.now }
{
    bytes.iter().take_while(|b| is_word_byte(**b)).count()
}

fn opt_len(bytes: &[u8]) -> usize
    ensures { result ≡ count_front is_opt_byte bytes.now }
{
    bytes.iter().take_while(|b| is_opt_byte(**b)).count()
}

fn digits_len(bytes: &[u8]) -> usize
    ensures { result ≡ count_front is_digit bytes.now }
{
    bytes.iter().take_while(|b| is_digit(**b)).count()
}

/// A comment's bytes behind its opening, up to the next `*/`, with it.
fn comment_len(bytes: &[u8]) -> Option<usize>
    ensures value { result ≡ comment_len bytes.now }
    ensures within { IfSome result (λ n. n ≤ length bytes.now) }
{
    let mut rest = bytes;
    let mut passed = 0;
    while let [b, more @ ..] = rest {
        if *b == b'*' && begins_with_slash(more) {
            return Some(passed + 2);
        }
        rest = more;
        passed += 1;
    }
    None
}

fn begins_with_slash(bytes: &[u8]) -> bool
    ensures { result ≡ begins_with (λ c. c == 47) bytes.now }
{
    match bytes {
        [] => false,
        [b, ..] => *b == b'/',
    }
}

fn begins_with_star(bytes: &[u8]) -> bool
    ensures { result ≡ begins_with (λ c. c == 42) bytes.now }
{
    match bytes {
        [] => false,
        [b, ..] => *b == b'*',
    }
}

fn begins_with_letter(bytes: &[u8]) -> bool
    ensures { result ≡ begins_with is_letter bytes.now }
{
    match bytes {
        [] => false,
        [b, ..] => is_letter(*b),
    }
}

fn begins_with_digit(bytes: &[u8]) -> bool
    ensures { result ≡ begins_with is_digit bytes.now }
{
    match bytes {
        [] => false,
        [b, ..] => is_digit(*b),
    }
}

fn number_len(bytes: &[u8]) -> usize
    ensures value { result ≡ number_len bytes.now }
    ensures within { result ≤ length bytes.now }
{
    let whole = digits_len(bytes);
    let rest = &bytes[whole..];
    match rest {
        [b'.', fraction @ ..] if begins_with_digit(fraction) => whole + 1 + digits_len(fraction),
        _ => whole,
    }
}

fn quote_place(quote: u8, bytes: &[u8]) -> Option<usize>
    ensures value { result ≡ position (λ c. c == quote) bytes.now }
    ensures within { IfSome result (λ n. n < length bytes.now) }
{
    bytes.iter().position(|c| *c == quote)
}

fn is_text(bytes: &[u8]) -> bool
    ensures { result ≡ list_all is_text_byte bytes.now }
{
    bytes.iter().all(|c| is_text_byte(*c))
}

fn line_len(bytes: &[u8]) -> usize
    ensures { result ≡ count_front (λ c. not (c == 10)) bytes.now }
{
    bytes.iter().take_while(|c| **c != b'\n').count()
}

/// Behind an opening quote: up to the closing one, where no control byte stands before it.
fn quoted(quote: u8, bytes: &[u8]) -> Option<Piece>
    ensures value { result ≡ quoted_of (position (λ c. c == quote) bytes.now) bytes.now }
    ensures within { IfSome result (λ p. IsWithin p (length bytes.now + 1)) }
{
    match quote_place(quote, bytes) {
        Some(n) => if is_text(&bytes[..n]) {
            Some(Piece::Part(Sort::Quoted, n + 2))
        } else {
            None
        },
        None => None,
    }
}

fn sign(b: u8, bytes: &[u8]) -> Option<Piece>
    ensures value { result ≡ sign_of b bytes.now }
    ensures within { IfSome result (λ p. IsWithin p (length bytes.now + 1)) }
{
    if let [c, ..] = bytes
        && is_double_sign(b, *c)
    {
        return Some(Piece::Part(Sort::Sign, 2));
    }
    if is_sign_byte(b) {
        Some(Piece::Part(Sort::Sign, 1))
    } else {
        None
    }
}

fn opens_comment(b: u8, rest: &[u8]) -> bool
    ensures value { result ≡ opens_comment b rest.now }
    ensures within { IsTrue result → 0 < length rest.now }
{
    b == b'/' && begins_with_star(rest)
}

/// A letter or '_'.
pub fn opens_word(b: u8) -> bool
    ensures { result ≡ opens_word b }
{
    is_letter(b) || b == b'_'
}

fn opens_quoted(b: u8) -> bool
    ensures { result ≡ opens_quoted b }
{
    b == b'"' || b == b'\''
}

fn opens_option(mode: Mode, b: u8, rest: &[u8]) -> bool
    ensures { result ≡ opens_option mode b rest.now }
{
    mode == Mode::Osh && b == b'-' && begins_with_letter(rest)
}

fn comment(rest: &[u8]) -> Option<Piece>
    ensures value { result ≡ gap_of 2 (comment_len rest.now) }
    ensures within { IfSome result (λ p. IsWithin p (length rest.now + 2)) }
{
    match comment_len(rest) {
        Some(n) => Some(Piece::Gap(n + 2)),
        None => None,
    }
}

/// What begins at the front of the bytes.
pub fn piece_at(mode: Mode, bytes: &[u8]) -> Option<Piece>
    ensures value { result ≡ piece_at mode bytes.now }
    ensures within { IfSome result (λ p. IsWithin p (length bytes.now)) }
{
    let [b, rest @ ..] = bytes else {
        return None;
    };
    let b = *b;
    if is_blank(b) {
        return Some(Piece::Gap(1));
    }
    if b == b'#' {
        return Some(Piece::Gap(line_len(rest) + 1));
    }
    if opens_comment(b, rest) {
        return comment(&rest[1..]);
    }
    if opens_word(b) {
        return Some(Piece::Part(Sort::Word, word_len(rest) + 1));
    }
    if is_digit(b) {
        return Some(Piece::Part(Sort::Number, number_len(bytes)));
    }
    if opens_quoted(b) {
        return quoted(b, rest);
    }
    if opens_option(mode, b, rest) {
        return Some(Piece::Part(Sort::Opt, opt_len(rest) + 1));
    }
    sign(b, rest)
}
