use ds_lex::Sort::{Number, Opt, Quoted, Sign, Word};
use ds_lex::{
    End, LexFault, LexedText, Lexeme, LimitedText, Mode, Scanned, Sort, TEXT_LIMIT, Token, lex,
    lex_limited, scan, tokens,
};
use std::alloc::Global;
use std::test::Fail;

/// A mode and a text, its tokens by sort, beginning and end, and the first place where none begins.
type Row = (Mode, &'static str, Wanted, Option<usize>);

static ROWS: [Row; 28] = [
    (Mode::Inner, "", &[], None),
    (Mode::Osh, " \t\r\n", &[], None),
    (
        Mode::Inner,
        "a_1.b _ Z9",
        &[(Word, 0, 5), (Word, 6, 7), (Word, 8, 10)],
        None,
    ),
    (
        Mode::Osh,
        "-key -k9_.x",
        &[(Opt, 0, 4), (Opt, 5, 9)],
        Some(9),
    ),
    (Mode::Inner, "-key", &[(Sign, 0, 1), (Word, 1, 4)], None),
    (
        Mode::Osh,
        "- -1 -_a",
        &[
            (Sign, 0, 1),
            (Sign, 2, 3),
            (Number, 3, 4),
            (Sign, 5, 6),
            (Word, 6, 8),
        ],
        None,
    ),
    (
        Mode::Inner,
        "0 12.50 1.",
        &[(Number, 0, 1), (Number, 2, 7), (Number, 8, 9)],
        Some(9),
    ),
    (Mode::Inner, "1.x", &[(Number, 0, 1)], Some(1)),
    (
        Mode::Inner,
        "\"a'b\" 'c\"d' \"\t\" ''",
        &[
            (Quoted, 0, 5),
            (Quoted, 6, 11),
            (Quoted, 12, 15),
            (Quoted, 16, 18),
        ],
        None,
    ),
    (Mode::Inner, "'é' é", &[(Quoted, 0, 4)], Some(5)),
    (Mode::Inner, "x 'a", &[(Word, 0, 1)], Some(2)),
    (Mode::Inner, "x \"a\nb\"", &[(Word, 0, 1)], Some(2)),
    (
        Mode::Inner,
        "== != <= >= && ||",
        &[
            (Sign, 0, 2),
            (Sign, 3, 5),
            (Sign, 6, 8),
            (Sign, 9, 11),
            (Sign, 12, 14),
            (Sign, 15, 17),
        ],
        None,
    ),
    (Mode::Inner, "<==", &[(Sign, 0, 2), (Sign, 2, 3)], None),
    (
        Mode::Inner,
        "=()[]{},;:",
        &[
            (Sign, 0, 1),
            (Sign, 1, 2),
            (Sign, 2, 3),
            (Sign, 3, 4),
            (Sign, 4, 5),
            (Sign, 5, 6),
            (Sign, 6, 7),
            (Sign, 7, 8),
            (Sign, 8, 9),
            (Sign, 9, 10),
        ],
        None,
    ),
    (
        Mode::Osh,
        "|<>+-*%/!",
        &[
            (Sign, 0, 1),
            (Sign, 1, 2),
            (Sign, 2, 3),
            (Sign, 3, 4),
            (Sign, 4, 5),
            (Sign, 5, 6),
            (Sign, 6, 7),
            (Sign, 7, 8),
            (Sign, 8, 9),
        ],
        None,
    ),
    (Mode::Inner, "a & b", &[(Word, 0, 1)], Some(2)),
    (Mode::Inner, "a # b", &[(Word, 0, 1)], None),
    (Mode::Inner, "#\rx\ny", &[(Word, 4, 5)], None),
    (Mode::Inner, "a/* b */", &[(Word, 0, 1)], None),
    (Mode::Inner, "/**/b", &[(Word, 4, 5)], None),
    (Mode::Inner, "/*/", &[], Some(0)),
    (Mode::Inner, "/*/ */c", &[(Word, 6, 7)], None),
    (Mode::Inner, "a /* b *", &[(Word, 0, 1)], Some(2)),
    (Mode::Inner, "/ * # */", &[(Sign, 0, 1), (Sign, 2, 3)], None),
    (Mode::Inner, "$", &[], Some(0)),
    (
        Mode::Inner,
        "a.b:c",
        &[(Word, 0, 3), (Sign, 3, 4), (Word, 4, 5)],
        None,
    ),
    (Mode::Osh, "a-b", &[(Word, 0, 1), (Opt, 1, 3)], None),
];

fn is_token(token: &Token, row: &(Sort, usize, usize)) -> bool {
    let (sort, from, to) = *row;
    *token == Token { sort, from, to }
}

fn are_tokens(tokens: &[Token], row: &[(Sort, usize, usize)]) -> bool {
    tokens.len() == row.len()
        && tokens
            .iter()
            .zip(row)
            .all(|(token, wanted)| is_token(token, wanted))
}

/// The sort, beginning and end of each token.
type Wanted = &'static [(Sort, usize, usize)];

fn is_scanned(
    alloc: Global,
    mode: Mode,
    text: &[u8],
    wanted: Wanted,
    place: Option<usize>,
) -> Result<bool, Fail> {
    let Scanned { tokens, bad } = scan(alloc, mode, text)?;
    Ok(bad == place && are_tokens(tokens.as_slice(), wanted))
}

fn has_tokens(
    alloc: Global,
    mode: Mode,
    text: &[u8],
    wanted: Wanted,
    place: Option<usize>,
) -> Result<bool, Fail> {
    match tokens(alloc, mode, text) {
        Ok(tokens) => Ok(place.is_none() && are_tokens(tokens.as_slice(), wanted)),
        Err(LexFault::BadToken { at }) => Ok(Some(at) == place),
        Err(LexFault::Memory) => Err(Fail::from("memory")),
    }
}

fn is_lexed(
    alloc: Global,
    mode: Mode,
    text: &[u8],
    wanted: Wanted,
    place: Option<usize>,
) -> Result<bool, Fail> {
    let LexedText { lexemes, bad } = lex(alloc, mode, text)?;
    Ok(
        bad == place
            && lexemes.len() == wanted.len()
            && lexemes.iter().zip(wanted).all(|(lexeme, (_, from, to))| has_bytes(
                lexeme, text, *from, *to,
            )),
    )
}

fn has_bytes(lexeme: &Lexeme<'_>, text: &[u8], from: usize, to: usize) -> bool {
    match text.get(from..to) {
        Some(bytes) => lexeme.bytes == bytes,
        None => false,
    }
}

#[test]
fn texts(rt: HostRuntime) -> Result<(), Fail> {
    let alloc = rt.alloc();
    for (mode, text, wanted, place) in &ROWS {
        let bytes = text.as_bytes();
        assert!(rt; is_scanned(alloc, *mode, bytes, wanted, *place)?, "{text}");
        assert!(rt; has_tokens(alloc, *mode, bytes, wanted, *place)?, "{text}");
        assert!(rt; is_lexed(alloc, *mode, bytes, wanted, *place)?, "{text}");
    }
    Ok(())
}

/// Blanks up to two bytes before the limit, and a text behind them.
fn long(alloc: Global, text: &[u8]) -> Result<Vec<u8>, Fail> {
    let mut bytes = Vec::new(alloc);
    for _ in 2..TEXT_LIMIT {
        bytes.push(b' ')?;
    }
    bytes.extend_from_slice(text)?;
    Ok(bytes)
}

/// What stands two bytes before the limit, the token that is read of it, and the end.
static LIMITED: [(&str, &str, End); 5] = [
    ("co", "co", End::Text(TEXT_LIMIT)),
    ("copy", "co", End::Limit(TEXT_LIMIT)),
    ("'x'", "", End::NoToken(TEXT_LIMIT - 2)),
    ("/**/", "", End::NoToken(TEXT_LIMIT - 2)),
    ("= =", "=", End::Limit(TEXT_LIMIT)),
];

/// Whether a token of these bytes comes first, two bytes before the limit, or there is none.
fn is_word(lexemes: &[Lexeme<'_>], word: &[u8]) -> bool {
    match lexemes.first() {
        Some(lexeme) => lexeme.at == TEXT_LIMIT - 2 && lexeme.bytes == word,
        None => word.is_empty(),
    }
}

fn is_limited(alloc: Global, text: &str, word: &str, wanted: End) -> Result<bool, Fail> {
    let bytes = long(alloc, text.as_bytes())?;
    let LimitedText { lexemes, end } = lex_limited(alloc, Mode::Osh, &bytes)?;
    Ok(is_word(&lexemes, word.as_bytes()) && end == wanted)
}

#[test]
fn limit(rt: HostRuntime) -> Result<(), Fail> {
    let alloc = rt.alloc();
    for (text, word, end) in &LIMITED {
        assert!(rt; is_limited(alloc, text, word, *end)?, "{text}");
    }
    Ok(())
}
