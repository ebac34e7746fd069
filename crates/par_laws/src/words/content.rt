// Where the bytes of a text lie: in the value itself while they fit, else in an allocation of their own.
ghost use Rattle.std.specs.Prelude.{◌≡◌, ◌++◌, [], IfOk, OnErr, is_ok, if◌then◌else◌};
ghost use Rattle.par_laws.specs.Content.{bytes_of};

use crate::memory::Memory;
use arrayvec::ArrayString;
use std::alloc::Global;

#[derive(Debug, Drop)]
pub(crate) enum Content {
    Inline(ArrayString<16>),
    Spilled(String),
}

impl Content {
    pub(crate) fn empty() -> Content
        ensures { bytes_of result ≡ [] }
    {
        Content::Inline(ArrayString::new())
    }

    pub(crate) fn of(alloc: Global, text: &str) -> Result<Content, Memory>
        ensures { IfOk result (λ content. bytes_of content ≡ text.now) }
    {
        match ArrayString::from(text) {
            Ok(inline) => Ok(Content::Inline(inline)),
            Err(_) => Ok(Content::Spilled(String::from_str(alloc, text)?)),
        }
    }

    pub(crate) fn as_str(&self) -> &str
        ensures { result.now ≡ bytes_of self.now }
    {
        match self {
            Content::Inline(text) => text.as_str(),
            Content::Spilled(text) => text.as_str(),
        }
    }

    /// Adds a text at the end. A refused push leaves the bytes as they were.
    pub(crate) fn push(&mut self, alloc: Global, text: &str) -> Result<(), Memory>
        ensures { bytes_of self.new ≡ (if is_ok result then bytes_of self.old ++ text.now else bytes_of self.old) }
    {
        if self.push_in_place(text)? {
            return Ok(());
        }
        *self = Content::joined(alloc, self.as_str(), text)?;
        Ok(())
    }

    /// Whether the text was added where the bytes lie: false where they lie in the value itself, with no room for it.
    fn push_in_place(&mut self, text: &str) -> Result<bool, Memory>
        ensures ok { IfOk result (λ added. bytes_of self.new ≡ (if added then bytes_of self.old ++ text.now else bytes_of self.old)) }
        ensures err { OnErr result (bytes_of self.new ≡ bytes_of self.old) }
    {
        match self {
            Content::Inline(inline) => Ok(inline.try_push_str(text).is_ok()),
            Content::Spilled(spilled) => {
                spilled.push_str(text)?;
                Ok(true)
            }
        }
    }

    fn joined(alloc: Global, front: &str, text: &str) -> Result<Content, Memory>
        ensures { IfOk result (λ content. bytes_of content ≡ front.now ++ text.now) }
    {
        let mut spilled = String::with_capacity(alloc, front.len() + text.len())?;
        spilled.push_str(front)?;
        spilled.push_str(text)?;
        Ok(Content::Spilled(spilled))
    }
}
