//! Names and numbers.

ghost use Rattle.std.specs.Prelude.{◌≡◌, ◌≤◌, IfSome, not};
ghost use Rattle.std.specs.List.{list_all};
ghost use Rattle.ds_value.specs.Names.{IsName};
ghost use Rattle.osh_words.specs.Spelled.{begins_with_dash};
ghost use Rattle.osh_words.specs.Read.{number_of, file_of, Reads, is_digit};

use crate::command::WordFault;
use ds_value::Name;
use std::alloc::Global;

fn begins_with_dash(word: &[u8]) -> bool
    ensures { result ≡ begins_with_dash word.now }
{
    match word {
        [] => false,
        [b, ..] => *b == b'-',
    }
}

/// The name of a file, which doesn't begin with `-`.
pub fn file(alloc: Global, word: &[u8]) -> Result<Name, WordFault>
    ensures { Reads result (file_of word.now) }
{
    if begins_with_dash(word) {
        return Err(WordFault::Usage);
    }
    match Name::from_bytes(alloc, word)? {
        Some(name) => Ok(name),
        None => Err(WordFault::Usage),
    }
}

fn is_digit(b: u8) -> bool
    ensures { result ≡ is_digit b }
{
    b'0' <= b && b <= b'9'
}

fn is_all_digits(word: &[u8]) -> bool
    ensures { result ≡ list_all is_digit word.now }
{
    word.iter().all(|b| is_digit(*b))
}

/// A number of 1 to 19 digits, from low to high.
pub fn number(word: &str, low: u64, high: u64) -> Option<u64>
    ensures value { result ≡ number_of low high word.now }
    ensures most { IfSome result (λ n. n ≤ high) }
{
    if word.len() > 19 || !is_all_digits(word.as_bytes()) {
        return None;
    }
    match word.parse::<u64>() {
        Ok(n) => { if low <= n && n <= high { Some(n) } else { None } }
        Err(_) => None,
    }
}
