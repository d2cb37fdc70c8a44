//! Laws that tie the lexer to the grammar of tokens.

ghost use Rattle.ds_lex.specs.LexLaws.{LexedAreTokens, LexedLies, TokensAreLexed};

/// The tokens that are found are those of the grammar, each the longest piece at its place, up to the first place where none stands.
pub fn tokens_are_found()
    ensures found { LexedAreTokens }
    ensures only { TokensAreLexed }
{}

/// Tokens are parts of the text, one behind the other.
pub fn tokens_lie_in_order()
    ensures { LexedLies }
{}
