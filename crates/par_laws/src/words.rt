ghost use Rattle.std.specs.Prelude.{◌≡◌, ◌++◌, [], IfOk, is_ok, if◌then◌else◌, true, encode_utf8_all};
ghost use Rattle.std.specs.Str.{all_scalars, chars};

mod content;
mod order;

use crate::memory::Memory;
use content::Content;
use std::alloc::Global;
use std::marker::Model;

/// A text. Contracts see the list of its characters. Up to 16 bytes lie in the value itself; a longer text has an
/// allocation of its own.
#[derive(Debug, Drop)]
pub struct Words {
    alloc: Global,
    content: Content,
}

impl Model for Words {
    ghost use Rattle.std.specs.Prelude.{List, ℕ, IsUtf8};
    ghost use Rattle.std.specs.Str.{chars};
    ghost use Rattle.par_laws.specs.Content.{bytes_of};

    ghost Value = { List ℕ };

    ghost view = { λ w. chars (bytes_of w.content) };

    ghost invariant = { λ w. ∥ IsUtf8 (bytes_of w.content) ∥₁ };
}

impl Words {
    /// The empty text. Takes no memory.
    pub fn new(alloc: Global) -> Words
        ensures { result ≡ [] }
    {
        Words {
            alloc,
            content: Content::empty(),
        }
    }

    /// A copy of a text, in memory of exactly its length where it has more than 16 bytes. Linear.
    pub fn from_text(alloc: Global, text: &str) -> Result<Words, Memory>
        ensures { IfOk result (λ words. words ≡ chars text.now) }
    {
        let content = Content::of(alloc, text)?;
        Ok(Words { alloc, content })
    }

    /// The text, as Rust's `str`. Constant, and takes no memory.
    pub fn as_str(&self) -> &str
        ensures bytes { result.now ≡ encode_utf8_all self.now }
        ensures characters { chars result.now ≡ self.now }
        ensures scalars { all_scalars self.now ≡ true }
    {
        self.content.as_str()
    }

    /// Adds a text at the end. A refused push leaves the text as it was. Linear in what is added, over many pushes.
    pub fn push(&mut self, text: &str) -> Result<(), Memory>
        ensures { self.new ≡ (if is_ok result then self.old ++ chars text.now else self.old) }
    {
        self.content.push(self.alloc, text)
    }
}
