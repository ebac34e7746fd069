//! The words that the language knows.

ghost use Rattle.std.specs.Prelude.{◌≡◌};
ghost use Rattle.pipe_tokens.specs.Words.{reserved_of, verb_of};

use pipe_expr::{Reserved, Verb};

/// What a word is where it is reserved in a version, which is 1 or 2. Linear, and takes no memory.
pub fn reserved(version: u8, word: &str) -> Option<Reserved>
    ensures { result ≡ reserved_of version word.now }
{
    match word {
        "and" => Some(Reserved::And),
        "or" => Some(Reserved::Or),
        "not" => Some(Reserved::Not),
        "len" => Some(Reserved::Len),
        "as" => Some(Reserved::As),
        "when" => Some(Reserved::When),
        "from" => Some(Reserved::From),
        "until" => Some(Reserved::Until),
        "by" => Some(Reserved::By),
        "split" => Some(Reserved::Split),
        "range" => Some(Reserved::Range),
        "csv" => Some(Reserved::Csv),
        "int" => Some(Reserved::Int),
        "text" => Some(Reserved::Text),
        "toInt" => {
            if version == 2 {
                Some(Reserved::ToInt)
            } else {
                None
            }
        }
        _ => None,
    }
}

// Which step a word may begin.
pub(crate) fn verb(word: &str) -> Verb
    ensures { result ≡ verb_of word.now }
{
    match word {
        "pipeline" => Verb::Pipeline,
        "par" => Verb::Par,
        "array" => Verb::Array,
        "vector" => Verb::Vector,
        "filter" => Verb::Filter,
        "filterNot" => Verb::FilterNot,
        "map" => Verb::Map,
        "collect" => Verb::Collect,
        "flatMap" => Verb::FlatMap,
        "take" => Verb::Take,
        "drop" => Verb::Drop,
        "slice" => Verb::Slice,
        "takeWhile" => Verb::TakeWhile,
        "dropWhile" => Verb::DropWhile,
        "zipWithIndex" => Verb::ZipWithIndex,
        "zip" => Verb::Zip,
        "reverse" => Verb::Reverse,
        "scan" => Verb::Scan,
        "groupBy" => Verb::GroupBy,
        "distinct" => Verb::Distinct,
        "print" => Verb::Print,
        "size" => Verb::Size,
        "count" => Verb::Count,
        "sum" => Verb::Sum,
        "product" => Verb::Product,
        "min" => Verb::Min,
        "max" => Verb::Max,
        "mkString" => Verb::MkString,
        "find" => Verb::Find,
        "exists" => Verb::Exists,
        "forall" => Verb::Forall,
        "indexWhere" => Verb::IndexWhere,
        "lastIndexWhere" => Verb::LastIndexWhere,
        "segmentLength" => Verb::SegmentLength,
        "span" => Verb::Span,
        "partition" => Verb::Partition,
        "splitAt" => Verb::SplitAt,
        "toSet" => Verb::ToSet,
        "toMap" => Verb::ToMap,
        _ => Verb::Plain,
    }
}
