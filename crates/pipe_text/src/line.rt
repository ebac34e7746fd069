//! Lines and their tokens.

ghost use Rattle.std.specs.Prelude.{◌≡◌, ◌==◌, ◌≤◌, ◌<◌, ◌∷◌, [], length, IfErr, IfOk, IfSome, OnOk, MatchOption};
ghost use Rattle.std.specs.List.{position_or_len};
ghost use Rattle.std.specs.Str.Lines.{lines, strip_carriage_return};
ghost use Rattle.pipe_text.specs.Token.{Lexes, view, views};
ghost use Rattle.pipe_text.specs.Reading.{kept_more};
ghost use Rattle.pipe_text.specs.Line.{AreUtf8, HasNoTokens, IsRefused, IsSettled, IsUnique, ReadsAs, is_quiet};

use crate::front::{blank, front};
use crate::lexeme::Lexeme;
use std::alloc::Global;

/// Why a line has no tokens to judge.
#[derive(Clone, Copy, Debug, PartialEq, Eq)]
pub enum LineFault {
    /// The line isn't UTF-8.
    Utf8,
    /// Some of the line is no token.
    Token,
    /// The line has more than `MAX_TOKENS` tokens.
    Long,
    /// Want of memory, of which no clause says when it comes.
    Memory,
}

/// A line has at most so many tokens.
pub const MAX_TOKENS: usize = 512;

// Whether the line says nothing: a blank line or a comment.
fn quiet(line: &[u8]) -> bool
    ensures { result ≡ is_quiet line.now }
{
    for c in line {
        if !blank(*c) {
            return *c == b'#';
        }
    }
    true
}

// Adds a token to those that are kept, unless they are enough.
fn keep<'a>(kept: &mut Vec<Lexeme<'a>>, count: usize, token: Lexeme<'a>) -> Result<(), LineFault>
    ensures kept { OnOk result (views kept.new.items ≡ kept_more count (views kept.old.items) (view token.entry)) }
    ensures memory { IfErr result (λ e. e ≡ LineFault.Memory) }
{
    if count < MAX_TOKENS && kept.push(token).is_err() {
        return Err(LineFault::Memory);
    }
    Ok(())
}

// The tokens of a line that is no comment.
fn tokens(alloc: Global, line: &[u8]) -> Result<Vec<Lexeme<'_>>, LineFault>
    ensures found { IfOk result (λ v. Lexes line.now (views v.items) × (length (views v.items) ≤ 512)) }
    ensures fault { IfErr result (λ e. HasNoTokens line.now e) }
{
    let mut kept = Vec::new(alloc);
    let mut count = 0;
    let mut at = 0;
    while at < line.len() {
        if blank(line[at]) {
            at += 1;
            continue;
        }
        let Some((token, n)) = front(&line[at..]) else {
            return Err(LineFault::Token);
        };
        keep(&mut kept, count, token)?;
        count += 1;
        at += n;
    }
    if count > MAX_TOKENS {
        Err(LineFault::Long)
    } else {
        Ok(kept)
    }
}

/// The tokens of a line, which is passed without its line end: none on a blank line or a comment. Linear.
pub fn read_line(alloc: Global, line: &[u8]) -> Result<Vec<Lexeme<'_>>, LineFault>
    ensures ok { IfOk result (λ v. ReadsAs line.now (views v.items)) }
    ensures utf8 { IfOk result (λ v. AreUtf8 (views v.items)) }
    ensures err { IfErr result (λ e. IsRefused line.now e) }

    // Each line has tokens or a fault, and just one of them.
    ensures settled { IsSettled line.now }
    ensures unique { IsUnique line.now }
{
    if str::from_utf8(line).is_err() {
        return Err(LineFault::Utf8);
    }
    if quiet(line) {
        return Ok(Vec::new(alloc));
    }
    tokens(alloc, line)
}

// How many bytes stand before the first line feed, or in all.
fn line_len(text: &[u8]) -> usize
    ensures { result ≡ position_or_len (λ c. c == 10) text.now }
{
    text.iter().take_while(|c| **c != b'\n').count()
}

// A line without the one carriage return at its end, if it has one.
fn without_return(line: &[u8]) -> &[u8]
    ensures { result.now ≡ strip_carriage_return line.now }
{
    match line.split_last() {
        Some((b'\r', rest)) => rest,
        _ => line,
    }
}

/// The first line of a text, without its line end, and what follows it; nothing where no line is left. The lines of a
/// text are those of Rust's `str::lines`. Linear in the line, and takes no memory.
pub fn first_line(text: &[u8]) -> Option<(&[u8], &[u8])>
    ensures first { MatchOption result (lines text.now ≡ []) (λ x. lines text.now ≡ x.0.now ∷ lines x.1.now) }
    ensures shorter { IfSome result (λ x. length x.1.now < length text.now) }
{
    if text.is_empty() {
        return None;
    }
    let n = line_len(text);
    if n == text.len() {
        return Some((text, &text[n..]));
    }
    Some((without_return(&text[..n]), &text[n + 1..]))
}
