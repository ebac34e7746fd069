//! Tokens of a line to tokens of the grammar.

ghost use Rattle.std.specs.Prelude.{◌≡◌, IfOk, false};
ghost use Rattle.std.specs.Str.{IsUtf8, chars};
ghost use Rattle.pipe_text.specs.Line.{AreUtf8, inside};
ghost use Rattle.pipe_text.specs.Token.{view, views};
ghost use Rattle.pipe_tokens.specs.Meaning.{all_meant, capped, escape_of, meant, unescaped, value_after};

use crate::words::{reserved, verb};
use par_laws::{Memory, Words};
use pipe_expr::Token;
use pipe_text::Lexeme;
use std::alloc::Global;

// The number that digits write, or 2^64 - 1 for each that is greater.
fn number(digits: &[u8]) -> u64
    ensures { result ≡ capped (value_after 0 digits.now) }
{
    let mut n = 0u64;
    for c in digits {
        n = n
            .saturating_mul(10)
            .saturating_add(u64::from(c.saturating_sub(b'0')));
    }
    n
}

// What a character behind a backslash stands for.
fn escape(c: char) -> char
    ensures { result ≡ escape_of c }
{
    match c {
        'n' => '\n',
        't' => '\t',
        other => other,
    }
}

// A text with its escapes read.
fn read_escapes(alloc: Global, text: &str) -> Result<Words, Memory>
    ensures { IfOk result (λ w. w ≡ unescaped false (chars text.now)) }
{
    let mut out = String::new(alloc);
    let mut escaped = false;
    for c in text.chars() {
        if escaped {
            out.push(escape(c))?;
            escaped = false;
        } else if c == '\\' {
            escaped = true;
        } else {
            out.push(c)?;
        }
    }
    Words::from_text(alloc, &out)
}

/// What a token means in a version, which is 1 or 2. Linear.
pub fn meaning(alloc: Global, version: u8, token: &Lexeme<'_>) -> Result<Token, Memory>
    requires { IsUtf8 (inside (view token.now)) }
    ensures { IfOk result (λ t. t ≡ meant version (view token.now)) }
{
    match token {
        Lexeme::Word(bytes) => {
            let text = str::from_utf8(bytes).unwrap_or("");
            match reserved(version, text) {
                Some(kept) => Ok(Token::Kept(kept)),
                None => Ok(Token::Word(verb(text), Words::from_text(alloc, text)?)),
            }
        }
        Lexeme::Quoted(bytes) => {
            let text = str::from_utf8(bytes).unwrap_or("");
            Ok(Token::Quoted(Words::from_text(alloc, text)?))
        }
        Lexeme::Digits(digits) => Ok(Token::Digits(number(digits))),
        Lexeme::Text(bytes) => {
            let text = str::from_utf8(bytes).unwrap_or("");
            Ok(Token::Quote(read_escapes(alloc, text)?))
        }
        Lexeme::Sign(symbol) => Ok(Token::Sign(*symbol)),
    }
}

/// What the tokens of a line mean in a version, which is 1 or 2. Linear.
pub fn meanings(alloc: Global, version: u8, tokens: &[Lexeme<'_>]) -> Result<Vec<Token>, Memory>
    requires { AreUtf8 (views tokens.now) }
    ensures { IfOk result (λ v. v.items ≡ all_meant version (views tokens.now)) }
{
    let mut all = Vec::with_capacity(alloc, tokens.len())?;
    for token in tokens {
        all.push(meaning(alloc, version, token)?)?;
    }
    Ok(all)
}
