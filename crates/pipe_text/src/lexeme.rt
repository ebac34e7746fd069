//! The tokens of a line.

/// A symbol of one or two characters.
#[derive(Clone, Copy, Debug, PartialEq, Eq)]
pub enum Symbol {
    /// `(`
    Open,
    /// `)`
    Close,
    /// `,`
    Comma,
    /// `:`
    Colon,
    /// `=`
    Equal,
    /// `!=`
    Differ,
    /// `<`
    Less,
    /// `<=`
    AtMost,
    /// `>`
    More,
    /// `>=`
    AtLeast,
    /// `+`
    Plus,
    /// `++`
    Join,
    /// `-`
    Minus,
    /// `->`
    Arrow,
    /// `*`
    Times,
    /// `/`
    Divide,
    /// `%`
    Remainder,
}

/// A token, with its bytes where they stand in the line.
#[derive(Clone, Copy, Debug)]
pub enum Lexeme<'a> {
    /// A letter or `_`, then letters, digits and `_`, all of ASCII.
    Word(&'a [u8]),
    /// What stands between two backquotes: one byte or more.
    Quoted(&'a [u8]),
    /// One ASCII digit or more.
    Digits(&'a [u8]),
    /// What stands between two quotation marks, with its escapes as they are written.
    Text(&'a [u8]),
    /// A symbol.
    Sign(Symbol),
}
