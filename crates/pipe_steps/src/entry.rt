//! Lists of one or more entries, with commas between.

ghost use Rattle.std.specs.Prelude.{◌≡◌, ◌<◌, ◌≤◌, ◌∷◌, [], List, Option, length, map, IfOk};
ghost use Rattle.pipe_expr.specs.declared.token.Token.{Token};
ghost use Rattle.pipe_expr.specs.Reading.{Gives};
ghost use Rattle.pipe_steps.specs.declared.joint.Joint.TheVariants.{As as JointAs};
ghost use Rattle.pipe_steps.specs.Said.{agg_view, how_view};
ghost use Rattle.pipe_steps.specs.Forms.{A, AName, Fixed, total_form};
ghost use Rattle.pipe_steps.specs.Reading.{fill, form_at, many, simple_at, sort_at};

use crate::joint::{Joint, accept, expect};
use crate::reader::text;
use crate::{Agg, Aggregate, Named};
use par_laws::Words;
use par_rows::{Column, ColumnKind};
use pipe_expr::{Expr, ParseError, Reserved, Token, Verb, expression, name};
use std::alloc::Global;

/// How an entry of a list is read.
pub(crate) trait Entry {
    type Out: Drop;

    // an entry without where its parts lie in memory
    ghost Seen: { Type 0 };

    ghost seen: { Self.Out → Self.Seen };

    ghost at: { List Token → Option (Self.Seen × List Token) };

    // The entry at the front, and the tokens after it.
    fn read(alloc: Global, tokens: &[Token]) -> Result<(Self::Out, &[Token]), ParseError>
        ensures shorter { IfOk result (λ x. length x.1.now < length tokens.now) }
        ensures gives { Gives (λ x. (seen x.0, x.1.now)) result (at tokens.now) };
}

// One or more entries at the front, and the tokens after them.
pub(crate) fn many<E: Entry>(
    alloc: Global,
    tokens: &[Token],
) -> Result<(Vec<E::Out>, &[Token]), ParseError>
    ensures { Gives (λ x. (map E.seen x.0.items, x.1.now)) result (many E.at (length tokens.now) tokens.now) }
{
    let mut all = Vec::new(alloc);
    let mut rest = tokens;
    loop {
        let (one, after) = E::read(alloc, rest)?;
        all.push(one)?;
        match accept(Joint::Comma, after) {
            None => return Ok((all, after)),
            Some(next) => rest = next,
        }
    }
}

#[tactic(auto, unfolding(crate::specs::Reading::sort_at))]
fn sort(tokens: &[Token]) -> Result<(ColumnKind, &[Token]), ParseError>
    ensures shorter { IfOk result (λ x. length x.1.now < length tokens.now) }
    ensures gives { Gives (λ x. (x.0, x.1.now)) result (sort_at tokens.now) }
{
    match tokens {
        [Token::Kept(Reserved::Int), rest @ ..] => Ok((ColumnKind::Int, rest)),
        [Token::Kept(Reserved::Text), rest @ ..] => Ok((ColumnKind::Text, rest)),
        _ => Err(ParseError::Shape),
    }
}

/// `name:int`
pub(crate) struct Columns;

impl Entry for Columns {
    type Out = Column;

    ghost use Rattle.par_rows.specs.declared.schema.Column.{Column as OneColumn};
    ghost use Rattle.pipe_steps.specs.Reading.{column_at};

    ghost Seen = { OneColumn };

    ghost seen = { λ c. c };

    ghost at = { column_at };

    #[tactic(auto, unfolding(crate::specs::Reading::column_at))]
    fn read(alloc: Global, tokens: &[Token]) -> Result<(Column, &[Token]), ParseError> {
        let (name, rest) = name(alloc, tokens)?;
        let rest = expect(Joint::Colon, rest)?;
        let (kind, rest) = sort(rest)?;
        Ok((Column { name, kind }, rest))
    }
}

/// `name = E`
pub(crate) struct Fields;

impl Entry for Fields {
    type Out = Named;

    ghost use Rattle.pipe_steps.specs.Said.{Field, named_view};
    ghost use Rattle.pipe_steps.specs.Reading.{field_at};

    ghost Seen = { Field };

    ghost seen = { named_view };

    ghost at = { field_at };

    #[tactic(auto, unfolding(crate::specs::Reading::field_at))]
    fn read(alloc: Global, tokens: &[Token]) -> Result<(Named, &[Token]), ParseError> {
        let (name, rest) = name(alloc, tokens)?;
        let rest = expect(Joint::Equal, rest)?;
        let (of, rest) = expression(alloc, rest)?;
        Ok((Named { name, of }, rest))
    }
}

/// `E as name`
pub(crate) struct Keys;

impl Entry for Keys {
    type Out = Named;

    ghost use Rattle.pipe_steps.specs.Said.{Field, named_view};
    ghost use Rattle.pipe_steps.specs.Reading.{key_at};

    ghost Seen = { Field };

    ghost seen = { named_view };

    ghost at = { key_at };

    #[tactic(auto, unfolding(crate::specs::Reading::key_at))]
    fn read(alloc: Global, tokens: &[Token]) -> Result<(Named, &[Token]), ParseError> {
        let (of, rest) = expression(alloc, tokens)?;
        let rest = expect(Joint::As, rest)?;
        let (name, rest) = name(alloc, rest)?;
        Ok((Named { name, of }, rest))
    }
}

// An aggregate with the name behind it.
fn with_name(alloc: Global, how: Aggregate, tokens: &[Token]) -> Result<(Agg, &[Token]), ParseError>
    ensures shorter { IfOk result (λ x. length x.1.now < length tokens.now) }
    ensures gives { Gives (λ x. (agg_view x.0, x.1.now)) result (fill simple_at (Fixed JointAs ∷ A AName ∷ []) (λ n. (how_view how, n)) tokens.now) }
{
    let rest = expect(Joint::As, tokens)?;
    let (name, rest) = name(alloc, rest)?;
    Ok((Agg { how, name }, rest))
}

// An aggregate behind its first word.
fn behind_word(alloc: Global, verb: Verb, rest: &[Token]) -> Result<(Agg, &[Token]), ParseError>
    ensures shorter { IfOk result (λ x. length x.1.now < length rest.now) }
    ensures gives { Gives (λ x. (agg_view x.0, x.1.now)) result (form_at simple_at (total_form verb) rest.now) }
{
    match verb {
        Verb::Count => with_name(alloc, Aggregate::Count, rest),
        Verb::Sum => {
            let (of, rest) = expression(alloc, rest)?;
            with_name(alloc, Aggregate::Sum(of), rest)
        }
        Verb::Product => {
            let (of, rest) = expression(alloc, rest)?;
            with_name(alloc, Aggregate::Product(of), rest)
        }
        Verb::Min => {
            let (of, rest) = expression(alloc, rest)?;
            with_name(alloc, Aggregate::Min(of), rest)
        }
        Verb::Max => {
            let (of, rest) = expression(alloc, rest)?;
            with_name(alloc, Aggregate::Max(of), rest)
        }
        Verb::MkString => {
            let (of, rest) = expression(alloc, rest)?;
            let (sep, rest) = text(alloc, rest)?;
            with_name(alloc, Aggregate::MkString(of, sep), rest)
        }
        _ => Err(ParseError::Shape),
    }
}

/// `count as name`, `sum E as name` and their kin
pub(crate) struct Totals;

impl Entry for Totals {
    type Out = Agg;

    ghost use Rattle.pipe_steps.specs.Said.{Total, agg_view};
    ghost use Rattle.pipe_steps.specs.Reading.{total_at};

    ghost Seen = { Total };

    ghost seen = { agg_view };

    ghost at = { total_at };

    #[tactic(auto, unfolding(crate::specs::Reading::total_at))]
    fn read(alloc: Global, tokens: &[Token]) -> Result<(Agg, &[Token]), ParseError> {
        match tokens {
            [Token::Word(verb, _), rest @ ..] => behind_word(alloc, *verb, rest),
            _ => Err(ParseError::Shape),
        }
    }
}
