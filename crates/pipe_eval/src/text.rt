//! Bound texts.

ghost use Rattle.std.specs.Prelude.{◌≡◌, ◌++◌, length, OnOk, IfOk, encode_utf8_all, slice_get};
ghost use Rattle.std.specs.List.{fold};
ghost use Rattle.std.specs.Str.{chars};
ghost use Rattle.pipe_eval.specs.Answers.{size, text_held};
ghost use Rattle.pipe_eval.specs.Bound.{joinable_at, plain_at};
ghost use Rattle.pipe_eval.specs.Spelled.{next, spelled};

use crate::fault::Fault;
use crate::spelling::Spelling;
use par_laws::{Memory, Words};
use par_rows::{Row, Value};
use std::alloc::Global;

/// A text that a row lends.
#[derive(Debug, Drop)]
pub(crate) enum Plain {
    Fixed(Words),
    /// The text at a place of the row, or the empty text where no text is there.
    Column(usize),
}

/// Texts, one after the other.
#[derive(Debug, Drop)]
pub(crate) enum Joinable {
    One(Plain),
    Join(Box<Joinable>, Box<Joinable>),
}

fn text_held(row: &Row, place: usize) -> &str
    ensures bytes { result.now ≡ encode_utf8_all (text_held (slice_get row.now.values place)) }
    ensures characters { chars result.now ≡ text_held (slice_get row.now.values place) }
{
    match row.values.get(place) {
        Some(Value::Text(text)) => text.as_str(),
        _ => "",
    }
}

// How many characters a text has.
fn count(text: &str) -> usize
    ensures { result ≡ length (chars text.now) }
{
    text.chars().count()
}

impl Plain {
    /// The text at a row. Takes no memory.
    pub(crate) fn at<'t>(&'t self, row: &'t Row) -> &'t str
        ensures bytes { result.now ≡ encode_utf8_all (plain_at self.now row.now) }
        ensures characters { chars result.now ≡ plain_at self.now row.now }
    {
        match self {
            Plain::Fixed(text) => text.as_str(),
            Plain::Column(place) => text_held(row, *place),
        }
    }

    #[tactic(auto, using(crate::proofs::Numbers::size_is))]
    fn size(&self, row: &Row) -> i64
        ensures { result ≡ size (plain_at self.now row.now) }
    {
        (count(self.at(row)) as u64).cast_signed()
    }
}

impl Joinable {
    /// The number of characters at a row, in 64 bits. Takes no memory.
    #[tactic(auto, using(crate::proofs::Numbers::sizes))]
    pub(crate) fn size(&self, row: &Row) -> i64
        ensures { result ≡ size (joinable_at self.now row.now) }
    {
        match self {
            Joinable::One(text) => text.size(row),
            Joinable::Join(a, b) => a.size(row).wrapping_add(b.size(row)),
        }
    }

    #[tactic(auto, using(crate::proofs::Digits::pieces))]
    fn spelling(&self, row: &Row, before: Spelling) -> Spelling
        ensures { result ≡ fold next before (encode_utf8_all (joinable_at self.now row.now)) }
    {
        match self {
            Joinable::One(text) => before.after(text.at(row)),
            Joinable::Join(a, b) => b.spelling(row, a.spelling(row, before)),
        }
    }

    /// The number that the text spells at a row. Takes no memory.
    #[tactic(auto, using(crate::proofs::Digits::whole))]
    pub(crate) fn spelled(&self, row: &Row) -> Result<i64, Fault>
        ensures { result ≡ spelled (encode_utf8_all (joinable_at self.now row.now)) }
    {
        self.spelling(row, Spelling::Empty).number()
    }

    fn write(&self, row: &Row, out: &mut Words) -> Result<(), Memory>
        ensures { OnOk result (out.new ≡ out.old ++ joinable_at self.now row.now) }
    {
        match self {
            Joinable::One(text) => out.push(text.at(row)),
            Joinable::Join(a, b) => {
                a.write(row, out)?;
                b.write(row, out)
            }
        }
    }

    /// The text at a row. Takes memory for it.
    pub(crate) fn words(&self, alloc: Global, row: &Row) -> Result<Words, Memory>
        ensures { IfOk result (λ words. words ≡ joinable_at self.now row.now) }
    {
        if let Joinable::One(text) = self {
            return Words::from_text(alloc, text.at(row));
        }
        let mut words = Words::new(alloc);
        self.write(row, &mut words)?;
        Ok(words)
    }
}
