//! The texts of answers that are no rows: numbers, truths and words, each with its line feed.

ghost use Rattle.std.specs.Prelude.{◌≡◌, ◌++◌, IfOk, OnOk, Some, encode_utf8_all};
ghost use Rattle.pipe_answers.specs.Texts as texts;

use itoa::Buffer;
use par_laws::Memory;
use std::alloc::Global;

/// Adds how many there are, in decimal.
pub(crate) fn add_count(text: &mut Vec<u8>, count: u64) -> Result<(), Memory>
    ensures { OnOk result (text.new.items ≡ text.old.items ++ texts.count_text count) }
{
    let mut digits = Buffer::new();
    text.extend_from_slice(digits.format(count).as_bytes())?;
    text.push(b'\n')?;
    Ok(())
}

/// How many there are, in decimal.
pub(crate) fn count(alloc: Global, count: u64) -> Result<Vec<u8>, Memory>
    ensures { IfOk result (λ text. text.items ≡ texts.count_text count) }
{
    let mut text = Vec::new(alloc);
    add_count(&mut text, count)?;
    Ok(text)
}

/// A word alone.
pub(crate) fn word(alloc: Global, word: &str) -> Result<Vec<u8>, Memory>
    ensures { IfOk result (λ text. text.items ≡ texts.line word.now) }
{
    let mut text = Vec::from_slice(alloc, word.as_bytes())?;
    text.push(b'\n')?;
    Ok(text)
}

/// A number in decimal.
pub(crate) fn number(alloc: Global, number: i64) -> Result<Vec<u8>, Memory>
    ensures { IfOk result (λ text. text.items ≡ texts.number_text number) }
{
    let mut digits = Buffer::new();
    word(alloc, digits.format(number))
}

/// A number, or `none`.
pub(crate) fn number_or_none(alloc: Global, found: Option<i64>) -> Result<Vec<u8>, Memory>
    ensures { IfOk result (λ text. text.items ≡ texts.number_or_none found) }
{
    match found {
        Some(found) => number(alloc, found),
        None => word(alloc, "none"),
    }
}

/// `true` or `false`.
pub(crate) fn truth(alloc: Global, truth: bool) -> Result<Vec<u8>, Memory>
    ensures { IfOk result (λ text. text.items ≡ texts.truth_text truth) }
{
    match truth {
        true => word(alloc, "true"),
        false => word(alloc, "false"),
    }
}
