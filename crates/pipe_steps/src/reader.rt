//! Tokens to lines.

ghost use Rattle.std.specs.Prelude.{◌≡◌, ◌<◌, length, map, Some, None, IfOk};
ghost use Rattle.pipe_expr.specs.Reading.{Gives};
ghost use Rattle.pipe_expr.specs.declared.token.Verb.TheVariants.{FlatMap, Scan, Zip};
ghost use Rattle.pipe_steps.specs.Said.{Said, view};
ghost use Rattle.pipe_steps.specs.Forms.{Says, count_form, expr_form, last_form, line_form, source_form};
ghost use Rattle.pipe_steps.specs.Reading.{form_at, kind_at, part_at, running_at, said, stride_at, text_at};

use crate::entry::{Columns, Fields, Keys, Totals, many};
use crate::joint::{Joint, accept, expect};
use crate::{Kind, Last, Line, Running, Source, Step};
use par_laws::{Keep, Words};
use par_rows::Schema;
use pipe_expr::{ParseError, Reserved, Token, Verb, expression, int, name};
use std::alloc::Global;

#[tactic(auto, unfolding(crate::specs::Reading::stride_at))]
fn stride(tokens: &[Token]) -> Result<(i64, &[Token]), ParseError>
    ensures { Gives (λ x. (x.0, x.1.now)) result (stride_at tokens.now) }
{
    match accept(Joint::By, tokens) {
        Some(rest) => int(rest),
        None => Ok((1, tokens)),
    }
}

#[tactic(auto, unfolding(crate::specs::Reading::kind_at))]
fn kind(tokens: &[Token]) -> Result<(Kind, &[Token]), ParseError>
    ensures { Gives (λ x. (x.0, x.1.now)) result (kind_at tokens.now) }
{
    match tokens {
        [Token::Word(Verb::Array, _), rest @ ..] => Ok((Kind::Array, rest)),
        [Token::Word(Verb::Vector, _), rest @ ..] => Ok((Kind::Vector, rest)),
        _ => Err(ParseError::Shape),
    }
}

#[tactic(auto, unfolding(crate::specs::Reading::running_at))]
fn running(tokens: &[Token]) -> Result<(Running, &[Token]), ParseError>
    ensures { Gives (λ x. (x.0, x.1.now)) result (running_at tokens.now) }
{
    match tokens {
        [Token::Word(Verb::Sum, _), rest @ ..] => Ok((Running::Sum, rest)),
        [Token::Word(Verb::Product, _), rest @ ..] => Ok((Running::Product, rest)),
        _ => Err(ParseError::Shape),
    }
}

#[tactic(auto, unfolding(crate::specs::Reading::text_at))]
pub(crate) fn text(alloc: Global, tokens: &[Token]) -> Result<(Words, &[Token]), ParseError>
    ensures shorter { IfOk result (λ x. length x.1.now < length tokens.now) }
    ensures gives { Gives (λ x. (x.0, x.1.now)) result (text_at tokens.now) }
{
    match tokens {
        [Token::Quote(text), rest @ ..] => {
            match text.copy(alloc) {
                Ok(copy) => Ok((copy, rest)),
                Err(_) => Err(ParseError::Memory),
            }
        }
        _ => Err(ParseError::Shape),
    }
}

// A line of one expression, behind its first word.
fn behind_expr(alloc: Global, verb: Verb, rest: &[Token]) -> Result<(Line, &[Token]), ParseError>
    ensures { Gives (λ x. (view x.0, x.1.now)) result (form_at part_at (expr_form verb) rest.now) }
{
    let (e, rest) = expression(alloc, rest)?;
    match verb {
        Verb::Filter => Ok((Line::Step(Step::Filter(e)), rest)),
        Verb::FilterNot => Ok((Line::Step(Step::FilterNot(e)), rest)),
        Verb::TakeWhile => Ok((Line::Step(Step::TakeWhile(e)), rest)),
        Verb::DropWhile => Ok((Line::Step(Step::DropWhile(e)), rest)),
        Verb::Count => Ok((Line::Last(Last::Count(e)), rest)),
        Verb::Sum => Ok((Line::Last(Last::Sum(e)), rest)),
        Verb::Product => Ok((Line::Last(Last::Product(e)), rest)),
        Verb::Min => Ok((Line::Last(Last::Min(e)), rest)),
        Verb::Max => Ok((Line::Last(Last::Max(e)), rest)),
        Verb::Find => Ok((Line::Last(Last::Find(e)), rest)),
        Verb::Exists => Ok((Line::Last(Last::Exists(e)), rest)),
        Verb::Forall => Ok((Line::Last(Last::Forall(e)), rest)),
        Verb::IndexWhere => Ok((Line::Last(Last::IndexWhere(e)), rest)),
        Verb::LastIndexWhere => Ok((Line::Last(Last::LastIndexWhere(e)), rest)),
        Verb::Span => Ok((Line::Last(Last::Span(e)), rest)),
        Verb::Partition => Ok((Line::Last(Last::Partition(e)), rest)),
        Verb::ToSet => Ok((Line::Last(Last::ToSet(e)), rest)),
        _ => Err(ParseError::Shape),
    }
}

// A last step of more than one expression, or a line of one.
fn behind_last(alloc: Global, verb: Verb, rest: &[Token]) -> Result<(Line, &[Token]), ParseError>
    ensures { Gives (λ x. (view x.0, x.1.now)) result (form_at part_at (last_form verb) rest.now) }
{
    match verb {
        Verb::MkString => {
            let (of, rest) = expression(alloc, rest)?;
            let (sep, rest) = text(alloc, rest)?;
            Ok((Line::Last(Last::MkString(of, sep)), rest))
        }
        Verb::SegmentLength => {
            let (test, rest) = expression(alloc, rest)?;
            let rest = expect(Joint::From, rest)?;
            let (from, rest) = int(rest)?;
            Ok((Line::Last(Last::SegmentLength(test, from)), rest))
        }
        Verb::ToMap => {
            let (key, rest) = expression(alloc, rest)?;
            let rest = expect(Joint::Arrow, rest)?;
            let (of, rest) = expression(alloc, rest)?;
            Ok((Line::Last(Last::ToMap(key, of)), rest))
        }
        _ => behind_expr(alloc, verb, rest),
    }
}

// `range int until int by int as name`
fn zip(alloc: Global, rest: &[Token]) -> Result<(Line, &[Token]), ParseError>
    ensures { Gives (λ x. (view x.0, x.1.now)) result (form_at part_at (line_form Zip) rest.now) }
{
    let rest = expect(Joint::Range, rest)?;
    let (a, rest) = int(rest)?;
    let rest = expect(Joint::Until, rest)?;
    let (b, rest) = int(rest)?;
    let rest = expect(Joint::By, rest)?;
    let (c, rest) = int(rest)?;
    let rest = expect(Joint::As, rest)?;
    let (name, rest) = name(alloc, rest)?;
    Ok((Line::Step(Step::ZipRange { a, b, c, name }), rest))
}

// A line without an expression, or one of the lines with them.
fn behind_count(alloc: Global, verb: Verb, rest: &[Token]) -> Result<(Line, &[Token]), ParseError>
    ensures { Gives (λ x. (view x.0, x.1.now)) result (form_at part_at (count_form verb) rest.now) }
{
    match verb {
        Verb::Take => {
            let (count, rest) = int(rest)?;
            Ok((Line::Step(Step::Take(count)), rest))
        }
        Verb::Drop => {
            let (count, rest) = int(rest)?;
            Ok((Line::Step(Step::Drop(count)), rest))
        }
        Verb::Slice => {
            let (from, rest) = int(rest)?;
            let rest = expect(Joint::Until, rest)?;
            let (until, rest) = int(rest)?;
            Ok((Line::Step(Step::Slice(from, until)), rest))
        }
        Verb::Zip => zip(alloc, rest),
        Verb::Reverse => Ok((Line::Step(Step::Reverse), rest)),
        Verb::Distinct => Ok((Line::Step(Step::Distinct), rest)),
        Verb::SplitAt => {
            let (at, rest) = int(rest)?;
            Ok((Line::Last(Last::SplitAt(at)), rest))
        }
        Verb::Print => Ok((Line::Last(Last::Print), rest)),
        Verb::Size => Ok((Line::Last(Last::Size), rest)),
        _ => behind_last(alloc, verb, rest),
    }
}

// `split name text`
fn flat_map(alloc: Global, rest: &[Token]) -> Result<(Line, &[Token]), ParseError>
    ensures { Gives (λ x. (view x.0, x.1.now)) result (form_at part_at (line_form FlatMap) rest.now) }
{
    let rest = expect(Joint::Split, rest)?;
    let (column, rest) = name(alloc, rest)?;
    let (sep, rest) = text(alloc, rest)?;
    Ok((Line::Step(Step::FlatMap { column, sep }), rest))
}

// `sum I as name` and `product I as name`
fn scan(alloc: Global, rest: &[Token]) -> Result<(Line, &[Token]), ParseError>
    ensures { Gives (λ x. (view x.0, x.1.now)) result (form_at part_at (line_form Scan) rest.now) }
{
    let (how, rest) = running(rest)?;
    let (of, rest) = expression(alloc, rest)?;
    let rest = expect(Joint::As, rest)?;
    let (name, rest) = name(alloc, rest)?;
    Ok((Line::Step(Step::Scan { how, of, name }), rest))
}

// What a line says behind its first word.
fn behind_verb(alloc: Global, verb: Verb, rest: &[Token]) -> Result<(Line, &[Token]), ParseError>
    ensures { Gives (λ x. (view x.0, x.1.now)) result (form_at part_at (line_form verb) rest.now) }
{
    match verb {
        Verb::Pipeline => {
            let rest = expect(Joint::Two, rest)?;
            Ok((Line::Version, rest))
        }
        Verb::Par => {
            let (kind, rest) = kind(rest)?;
            Ok((Line::Par(kind), rest))
        }
        Verb::Map => {
            let (fields, rest) = many::<Fields>(alloc, rest)?;
            Ok((Line::Step(Step::Map(fields)), rest))
        }
        Verb::Collect => {
            let (fields, rest) = many::<Fields>(alloc, rest)?;
            let rest = expect(Joint::When, rest)?;
            let (test, rest) = expression(alloc, rest)?;
            Ok((Line::Step(Step::Collect(fields, test)), rest))
        }
        Verb::FlatMap => flat_map(alloc, rest),
        Verb::ZipWithIndex => {
            let rest = expect(Joint::As, rest)?;
            let (name, rest) = name(alloc, rest)?;
            Ok((Line::Step(Step::ZipWithIndex(name)), rest))
        }
        Verb::Scan => scan(alloc, rest),
        Verb::GroupBy => {
            let (keys, rest) = many::<Keys>(alloc, rest)?;
            let rest = expect(Joint::Colon, rest)?;
            let (aggs, rest) = many::<Totals>(alloc, rest)?;
            Ok((Line::Step(Step::GroupBy { keys, aggs }), rest))
        }
        _ => behind_count(alloc, verb, rest),
    }
}

// What a source line says behind `from` and its word.
fn behind_from(
    alloc: Global,
    word: Reserved,
    rest: &[Token],
) -> Result<(Line, &[Token]), ParseError>
    ensures { Gives (λ x. (view x.0, x.1.now)) result (form_at part_at (source_form word) rest.now) }
{
    match word {
        Reserved::Csv => {
            let (columns, rest) = many::<Columns>(alloc, rest)?;
            Ok((Line::Source(Source::Csv(Schema { columns })), rest))
        }
        Reserved::Range => {
            let (a, rest) = int(rest)?;
            let rest = expect(Joint::Until, rest)?;
            let (b, rest) = int(rest)?;
            let (c, rest) = stride(rest)?;
            Ok((Line::Source(Source::Range { a, b, c }), rest))
        }
        _ => Err(ParseError::Shape),
    }
}

// What a line says.
#[tactic(auto, unfolding(crate::specs::Reading::said))]
fn read_line(alloc: Global, tokens: &[Token]) -> Result<Line, ParseError>
    ensures { Gives view result (said tokens.now) }
{
    let (line, rest) = match tokens {
        [Token::Word(verb, _), rest @ ..] => behind_verb(alloc, *verb, rest)?,
        [Token::Kept(Reserved::From), Token::Kept(word), rest @ ..] => behind_from(
            alloc, *word, rest,
        )?,
        _ => return Err(ParseError::Shape),
    };
    if rest.is_empty() {
        Ok(line)
    } else {
        Err(ParseError::Shape)
    }
}

/// What the tokens of a line say; `Shape` where they say nothing. Linear, and goes as deep as the tokens nest.
pub fn line_of(alloc: Global, tokens: &[Token]) -> Result<Line, ParseError>
    // What is read stands there, and nothing else does.
    ensures found { IfOk result (λ x. Says (view x) tokens.now) }
    ensures one { (x y : Said) → Says x tokens.now → Says y tokens.now → x ≡ y }

    ensures read { Gives view result (said tokens.now) }

    // A refusal comes only where the tokens say nothing, or memory is wanting.
    ensures only { (x : Said) → Says x tokens.now → Gives view result (Some x) }
{
    read_line(alloc, tokens)
}
