//! The tokens of a line, by what they mean.

use par_laws::Words;
use pipe_text::Symbol;

/// A word that names no column.
#[derive(Clone, Copy, Debug, PartialEq, Eq)]
pub enum Reserved {
    And,
    Or,
    Not,
    Len,
    As,
    When,
    From,
    Until,
    By,
    Split,
    Range,
    Csv,
    Int,
    Text,
    /// In version 2 alone; in version 1 the word names a column.
    ToInt,
}

/// What another word may be at the front of a step; it may name a column too.
#[derive(Clone, Copy, Debug, PartialEq, Eq)]
pub enum Verb {
    Plain,
    Pipeline,
    Par,
    Array,
    Vector,
    Filter,
    FilterNot,
    Map,
    Collect,
    FlatMap,
    Take,
    Drop,
    Slice,
    TakeWhile,
    DropWhile,
    ZipWithIndex,
    Zip,
    Reverse,
    Scan,
    GroupBy,
    Distinct,
    Print,
    Size,
    Count,
    Sum,
    Product,
    Min,
    Max,
    MkString,
    Find,
    Exists,
    Forall,
    IndexWhere,
    LastIndexWhere,
    SegmentLength,
    Span,
    Partition,
    SplitAt,
    ToSet,
    ToMap,
}

/// A token.
#[derive(Debug, Drop)]
pub enum Token {
    /// A reserved word.
    Kept(Reserved),
    /// Another word: what step it may begin, and its characters.
    Word(Verb, Words),
    /// A name between backquotes.
    Quoted(Words),
    /// A number, where 2^64 - 1 stands for each that is greater.
    Digits(u64),
    /// A text, with its escapes read.
    Quote(Words),
    /// A symbol.
    Sign(Symbol),
}
