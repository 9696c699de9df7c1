//! The tokens of a text.
ghost use Rattle.std.specs.Prelude.{◌≡◌, ◌≢◌, ◌<◌, ◌++◌, ◌∷◌, ℕ, [], length, slice_index, IfOk, IfErr, IfSome};
ghost use Rattle.std.specs.Prelude.{IfNone, MatchOption};
ghost use Rattle.expression_text.specs.Tokens.{is_blank, is_word_byte, IsAfterBlanks, IsSplitWord, IsToken};
ghost use Rattle.expression_text.specs.Tokens.{HasNoByte, LacksToken, BeginsWord, NoBlankFirst, lexeme_of};

use crate::fault::Reason;
use crate::operator::Operator;

/// A token of a text.
#[derive(Clone, Copy)]
pub enum Token<'a> {
    /// A name, without its quotes.
    Name(&'a [u8]),
    /// The sign of an operator.
    Sign(Operator),
    /// An opening parenthesis.
    Opening,
    /// A closing parenthesis.
    Closing,
}

/// Whether a byte separates tokens and is otherwise skipped.
fn is_blank(byte: u8) -> bool
    ensures { result ≡ is_blank byte }
{
    byte == b' ' || byte == b'\t' || byte == b'\n'
}

/// Whether a byte may be in a name without quotes.
fn is_word_byte(byte: u8) -> bool
    ensures { result ≡ is_word_byte byte }
{
    !(is_blank(byte)
        || byte == b'('
        || byte == b')'
        || byte == b'&'
        || byte == b'+'
        || byte == b'|'
        || byte == b'"')
}

/// The text after the blanks at its front.
pub fn skip_blanks(text: &[u8]) -> &[u8]
    ensures blanks { IsAfterBlanks text.now result.now }
    ensures trimmed { NoBlankFirst result.now }
{
    for (i, byte) in text.iter().enumerate() {
        if !is_blank(*byte) {
            let (_, rest) = text.split_at(i);
            return rest;
        }
    }
    &[]
}

/// The longest word at the front of a text, and the text after it.
fn split_word(text: &[u8]) -> (&[u8], &[u8])
    ensures { IsSplitWord text.now result.0.now result.1.now }
{
    for (i, byte) in text.iter().enumerate() {
        if !is_word_byte(*byte) {
            let (word, rest) = text.split_at(i);
            return (word, rest);
        }
    }
    (text, &[])
}

/// The text before the first quote, and the text after that quote; `None` if there is no quote.
fn split_quoted(text: &[u8]) -> Option<(&[u8], &[u8])>
    ensures before { IfSome result (λ x. (k : ℕ) → k < length x.0.now → slice_index x.0.now k ≢ 34) }
    ensures parts { IfSome result (λ x. text.now ≡ x.0.now ++ 34 ∷ x.1.now) }
    ensures none { IfNone result (HasNoByte 34 text.now) }
{
    for (i, byte) in text.iter().enumerate() {
        if *byte == b'"' {
            return Some((&text[..i], &text[i + 1..]));
        }
    }
    None
}

/// The token of a name in quotes, from the text after the first quote; and the text after the token.
fn quoted_name(text: &[u8]) -> Result<(Token<'_>, &[u8]), Reason>
    ensures token { IfOk result (λ x. IsToken (lexeme_of x.0) (34 ∷ text.now) x.1.now) }
    ensures refused { IfErr result (λ _. LacksToken (34 ∷ text.now)) }
{
    let Some((name, rest)) = split_quoted(text) else {
        return Err(Reason::OpenQuote);
    };
    if name.is_empty() {
        return Err(Reason::EmptyName);
    }
    Ok((Token::Name(name), rest))
}

/// The token of the word at the front of a text: the difference or a name; and the text after it.
fn word_token(text: &[u8]) -> Result<(Token<'_>, &[u8]), Reason>
    ensures token { IfOk result (λ x. IsToken (lexeme_of x.0) text.now x.1.now) }
    ensures refused { IfErr result (λ _. BeginsWord text.now → ⊥) }
{
    let (word, rest) = split_word(text);
    match word {
        [] => Err(Reason::EmptyName),
        [b'-'] => Ok((Token::Sign(Operator::Difference), rest)),
        [_, ..] => Ok((Token::Name(word), rest)),
    }
}

/// The token at the front of a text, which doesn't begin with a blank, and the text after it.
pub fn first_token(text: &[u8]) -> Result<Option<(Token<'_>, &[u8])>, Reason>
    ensures token { IfOk result (λ o. MatchOption o (text.now ≡ []) (λ x. IsToken (lexeme_of x.0) text.now x.1.now)) }
    ensures some { IfErr result (λ _. text.now ≢ []) }
    ensures refused { NoBlankFirst text.now → IfErr result (λ _. LacksToken text.now) }
{
    let Some((first, rest)) = text.split_first() else {
        return Ok(None);
    };
    match *first {
        b'(' => Ok(Some((Token::Opening, rest))),
        b')' => Ok(Some((Token::Closing, rest))),
        b'&' => Ok(Some((Token::Sign(Operator::Intersection), rest))),
        b'+' | b'|' => Ok(Some((Token::Sign(Operator::Union), rest))),
        b'"' => Ok(Some(quoted_name(rest)?)),
        _ => Ok(Some(word_token(text)?)),
    }
}
