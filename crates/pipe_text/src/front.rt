//! The token at the front of some bytes.

ghost use Rattle.std.specs.Prelude.{◌≡◌, ◌≤◌, ◌<◌, ◌+◌, ◌^◌, length, take, IfSome, Some, None, option_map, false, slice_get};
ghost use Rattle.std.specs.List.{list_all, prefix_len};
ghost use Rattle.pipe_text.specs.Token.{is_blank, is_break, is_digit, is_escape, is_letter, is_name, is_plain, is_word, is_word_text, spelled, step, symbol_text, view};
ghost use Rattle.pipe_text.specs.Reading.{body_at, first_symbol, front_of, is_next, quoted_at, symbols, texted};

use crate::lexeme::{Lexeme, Symbol};

pub(crate) fn blank(c: u8) -> bool
    ensures { result ≡ is_blank c }
{
    c == b' ' || c == b'\t'
}

fn digit(c: u8) -> bool
    ensures { result ≡ is_digit c }
{
    48 <= c && c <= 57
}

fn letter(c: u8) -> bool
    ensures { result ≡ is_letter c }
{
    (65 <= c && c <= 90) || (97 <= c && c <= 122) || c == 95
}

fn word(c: u8) -> bool
    ensures { result ≡ is_word c }
{
    letter(c) || digit(c)
}

fn breaks(c: u8) -> bool
    ensures { result ≡ is_break c }
{
    c == b'\r' || c == b'\n'
}

fn name(c: u8) -> bool
    ensures { result ≡ is_name c }
{
    !(c == b'`' || breaks(c))
}

fn escape(c: u8) -> bool
    ensures { result ≡ is_escape c }
{
    c == b'"' || c == b'\\' || c == b'n' || c == b't'
}

fn plain(c: u8) -> bool
    ensures { result ≡ is_plain c }
{
    !(c == b'"' || c == b'\\' || breaks(c))
}

fn all_words(bytes: &[u8]) -> bool
    ensures { result ≡ list_all is_word bytes.now }
{
    for c in bytes {
        if !word(*c) {
            return false;
        }
    }
    true
}

/// Whether bytes have the form of a word: an ASCII letter or `_`, then letters, digits and `_`. Linear, and takes no
/// memory.
pub fn is_word_text(bytes: &[u8]) -> bool
    ensures { result ≡ is_word_text bytes.now }
{
    match bytes {
        [first, rest @ ..] => letter(*first) && all_words(rest),
        [] => false,
    }
}

fn words(bytes: &[u8]) -> usize
    ensures { result ≡ prefix_len is_word bytes.now }
{
    bytes.iter().take_while(|c| word(**c)).count()
}

fn digits(bytes: &[u8]) -> usize
    ensures { result ≡ prefix_len is_digit bytes.now }
{
    bytes.iter().take_while(|c| digit(**c)).count()
}

fn names(bytes: &[u8]) -> usize
    ensures { result ≡ prefix_len is_name bytes.now }
{
    bytes.iter().take_while(|c| name(**c)).count()
}

// Whether what follows stands behind a backslash; nothing where c may not stand in a text.
fn next_place(escaped: bool, c: u8) -> Option<bool>
    ensures { result ≡ step escaped c }
{
    if escaped {
        return if escape(c) { Some(false) } else { None };
    }
    if c == b'\\' {
        Some(true)
    } else if plain(c) {
        Some(false)
    } else {
        None
    }
}

// How many bytes a text has before its end.
fn body(bytes: &[u8]) -> Option<usize>
    ensures inside { option_map (λ n. take n bytes.now) result ≡ body_at false bytes.now }
    ensures within { IfSome result (λ n. n < length bytes.now) }
{
    let mut escaped = false;
    for (n, c) in bytes.iter().enumerate() {
        if !escaped && *c == b'"' {
            return Some(n);
        }
        escaped = next_place(escaped, *c)?;
    }
    None
}

fn symbol(c: u8, next: Option<u8>) -> Option<Symbol>
    ensures { result ≡ first_symbol symbols c next }
{
    match (c, next) {
        (b'!', Some(b'=')) => Some(Symbol::Differ),
        (b'<', Some(b'=')) => Some(Symbol::AtMost),
        (b'>', Some(b'=')) => Some(Symbol::AtLeast),
        (b'+', Some(b'+')) => Some(Symbol::Join),
        (b'-', Some(b'>')) => Some(Symbol::Arrow),
        (b'(', _) => Some(Symbol::Open),
        (b')', _) => Some(Symbol::Close),
        (b',', _) => Some(Symbol::Comma),
        (b':', _) => Some(Symbol::Colon),
        (b'=', _) => Some(Symbol::Equal),
        (b'<', _) => Some(Symbol::Less),
        (b'>', _) => Some(Symbol::More),
        (b'+', _) => Some(Symbol::Plus),
        (b'-', _) => Some(Symbol::Minus),
        (b'*', _) => Some(Symbol::Times),
        (b'/', _) => Some(Symbol::Divide),
        (b'%', _) => Some(Symbol::Remainder),
        _ => None,
    }
}

fn symbol_len(symbol: Symbol) -> usize
    ensures { result ≡ length (symbol_text symbol) }
{
    match symbol {
        Symbol::Differ | Symbol::AtMost | Symbol::AtLeast | Symbol::Join | Symbol::Arrow => 2,
        _ => 1,
    }
}

// Whether a backquote comes next.
fn closed(rest: &[u8]) -> bool
    ensures { result ≡ is_next (slice_get rest.now 0) 96 }
{
    match rest {
        [b'`', ..] => true,
        _ => false,
    }
}

// The quoted name behind a backquote, and how many bytes it has with both.
fn quoted(rest: &[u8]) -> Option<(Lexeme<'_>, usize)>
    requires { length rest.now + 1 < 2 ^ 64 }
    ensures token { option_map (λ x. view x.0) result ≡ quoted_at rest.now }
    ensures count { IfSome result (λ x. x.1 ≡ length (spelled (view x.0))) }
{
    let n = names(rest);
    if n == 0 {
        return None;
    }
    if !closed(&rest[n..]) {
        return None;
    }
    Some((Lexeme::Quoted(&rest[..n]), n + 2))
}

// The text behind a quotation mark, and how many bytes it has with both.
fn text(rest: &[u8]) -> Option<(Lexeme<'_>, usize)>
    requires { length rest.now + 1 < 2 ^ 64 }
    ensures token { option_map (λ x. view x.0) result ≡ texted (body_at false rest.now) }
    ensures count { IfSome result (λ x. x.1 ≡ length (spelled (view x.0))) }
{
    let n = body(rest)?;
    Some((Lexeme::Text(&rest[..n]), n + 2))
}

/// The token at the front of bytes that begin with no blank, and how many bytes it has.
pub(crate) fn front(line: &[u8]) -> Option<(Lexeme<'_>, usize)>
    ensures token { option_map (λ x. view x.0) result ≡ front_of line.now }
    ensures count { IfSome result (λ x. x.1 ≡ length (spelled (view x.0))) }
{
    let (c, rest) = line.split_first()?;
    if letter(*c) {
        let text = &line[..words(rest) + 1];
        return Some((Lexeme::Word(text), text.len()));
    }
    if digit(*c) {
        let text = &line[..digits(rest) + 1];
        return Some((Lexeme::Digits(text), text.len()));
    }
    if *c == b'`' {
        return quoted(rest);
    }
    if *c == b'"' {
        return text(rest);
    }
    match symbol(*c, rest.first().copied()) {
        None => None,
        Some(sign) => Some((Lexeme::Sign(sign), symbol_len(sign))),
    }
}
