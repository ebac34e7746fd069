//! Tokens to expressions.

ghost use Rattle.std.specs.Prelude.{◌≡◌, ◌<◌, ◌≤◌, ◌+◌, ◌-◌, ◌*◌, ◌≢◌, ℕ, length, Some, None, IfOk};
ghost use Rattle.pipe_expr.specs.Grammar.{Reads, Tree, Joined, Inside, Length, Named, Negated, Texted, Valued, view, level, int_of};
ghost use Rattle.pipe_expr.specs.Reading.{Gives, atom, more, negation, read, op_of, op_at, seen, int_at, name_at, expr_at};

use crate::expr::{Expr, Op};
use crate::token::{Reserved, Token};
use par_laws::{Keep, Words};
use pipe_text::Symbol;
use std::alloc::{AllocError, AllocFailed, Global};

/// Why tokens gave no expression.
#[derive(Clone, Copy, Debug, PartialEq, Eq)]
pub enum ParseError {
    /// The tokens don't read as what was asked for.
    Shape,
    /// Want of memory, of which no clause says when it comes.
    Memory,
}

impl From<AllocError> for ParseError {
    ghost use Rattle.pipe_expr.specs.declared.parser.ParseError.TheVariants.{Memory};

    ghost from_gives = { λ _ e. e ≡ Memory };

    fn from(_e: AllocError) -> ParseError {
        ParseError::Memory
    }
}

impl<T: Drop> From<AllocFailed<T>> for ParseError {
    ghost use Rattle.pipe_expr.specs.declared.parser.ParseError.TheVariants.{Memory};

    ghost from_gives = { λ _ e. e ≡ Memory };

    fn from(_e: AllocFailed<T>) -> ParseError {
        ParseError::Memory
    }
}

fn operator(token: &Token) -> Option<Op>
    ensures { result ≡ op_of token.now }
{
    match token {
        Token::Sign(Symbol::Times) => Some(Op::Times),
        Token::Sign(Symbol::Plus) => Some(Op::Plus),
        Token::Sign(Symbol::Divide) => Some(Op::Divide),
        Token::Sign(Symbol::Remainder) => Some(Op::Remainder),
        Token::Sign(Symbol::Minus) => Some(Op::Minus),
        Token::Sign(Symbol::Join) => Some(Op::Join),
        Token::Sign(Symbol::Equal) => Some(Op::Equal),
        Token::Sign(Symbol::Differ) => Some(Op::Differ),
        Token::Sign(Symbol::Less) => Some(Op::Less),
        Token::Sign(Symbol::AtMost) => Some(Op::AtMost),
        Token::Sign(Symbol::More) => Some(Op::More),
        Token::Sign(Symbol::AtLeast) => Some(Op::AtLeast),
        Token::Kept(Reserved::And) => Some(Op::And),
        Token::Kept(Reserved::Or) => Some(Op::Or),
        _ => None,
    }
}

fn level_of(op: Op) -> u8
    ensures { result ≡ level op }
{
    match op {
        Op::Times | Op::Divide | Op::Remainder => 1,
        Op::Plus | Op::Minus | Op::Join => 2,
        Op::Equal | Op::Differ | Op::Less | Op::AtMost | Op::More | Op::AtLeast => 3,
        Op::And => 5,
        Op::Or => 6,
    }
}

// The operator that a token is at a level.
#[tactic(auto, unfolding(crate::specs::Reading::op_at))]
fn operator_at(wanted: u8, token: &Token) -> Option<Op>
    ensures { result ≡ op_at wanted token.now }
{
    match operator(token) {
        None => None,
        Some(op) => {
            if level_of(op) == wanted {
                Some(op)
            } else {
                None
            }
        }
    }
}

#[tactic(auto, unfolding(crate::specs::Grammar::int_of))]
fn number(negative: bool, n: u64) -> Option<i64>
    ensures { result ≡ int_of negative n }
{
    if negative {
        if n < 1 << 63 {
            Some(-(n as i64))
        } else if n == 1 << 63 {
            Some(i64::MIN)
        } else {
            None
        }
    } else if n < 1 << 63 {
        Some(n as i64)
    } else {
        None
    }
}

/// The int at the front, and the tokens after it: digits, perhaps behind a minus, within 64 bits. Takes no memory.
#[tactic(auto, unfolding(crate::specs::Reading::int_at))]
pub fn int(tokens: &[Token]) -> Result<(i64, &[Token]), ParseError>
    ensures shorter { IfOk result (λ x. length x.1.now < length tokens.now) }
    ensures gives { Gives (λ x. (x.0, x.1.now)) result (int_at tokens.now) }
{
    match tokens {
        [Token::Digits(n), rest @ ..] => {
            match number(false, *n) {
                Some(z) => Ok((z, rest)),
                None => Err(ParseError::Shape),
            }
        }
        [Token::Sign(Symbol::Minus), Token::Digits(n), rest @ ..] => {
            match number(true, *n) {
                Some(z) => Ok((z, rest)),
                None => Err(ParseError::Shape),
            }
        }
        _ => Err(ParseError::Shape),
    }
}

/// The name at the front, and the tokens after it: a word that is not reserved, or a quoted name.
#[tactic(auto, unfolding(crate::specs::Reading::name_at))]
pub fn name(alloc: Global, tokens: &[Token]) -> Result<(Words, &[Token]), ParseError>
    ensures shorter { IfOk result (λ x. length x.1.now < length tokens.now) }
    ensures gives { Gives (λ x. (x.0, x.1.now)) result (name_at tokens.now) }
{
    match tokens {
        [Token::Word(_, w), rest @ ..] => Ok((second(alloc, w)?, rest)),
        [Token::Quoted(w), rest @ ..] => Ok((second(alloc, w)?, rest)),
        _ => Err(ParseError::Shape),
    }
}

fn second(alloc: Global, words: &Words) -> Result<Words, ParseError>
    ensures { Gives (λ x. x) result (Some words.now) }
{
    match words.copy(alloc) {
        Ok(copy) => Ok(copy),
        Err(_) => Err(ParseError::Memory),
    }
}

fn column(alloc: Global, name: &Words) -> Result<Expr, ParseError>
    ensures { Gives view result (Some (Named name.now)) }
{
    Ok(Expr::Column(second(alloc, name)?))
}

fn text(alloc: Global, text: &Words) -> Result<Expr, ParseError>
    ensures { Gives view result (Some (Texted text.now)) }
{
    Ok(Expr::Text(second(alloc, text)?))
}

fn pair(alloc: Global, op: Op, left: Expr, right: Expr) -> Result<Expr, ParseError>
    ensures { Gives view result (Some (Joined op (view left) (view right))) }
{
    let left = Box::new(alloc, left)?;
    let right = Box::new(alloc, right)?;
    Ok(Expr::Pair(op, left, right))
}

fn group(alloc: Global, inner: Expr) -> Result<Expr, ParseError>
    ensures { Gives view result (Some (Inside (view inner))) }
{
    Ok(Expr::Group(Box::new(alloc, inner)?))
}

fn length_of(alloc: Global, inner: Expr) -> Result<Expr, ParseError>
    ensures { Gives view result (Some (Length (view inner))) }
{
    Ok(Expr::Len(Box::new(alloc, inner)?))
}

fn number_of(alloc: Global, inner: Expr) -> Result<Expr, ParseError>
    ensures { Gives view result (Some (Valued (view inner))) }
{
    Ok(Expr::ToInt(Box::new(alloc, inner)?))
}

fn negated(alloc: Global, inner: Expr) -> Result<Expr, ParseError>
    ensures { Gives view result (Some (Negated (view inner))) }
{
    Ok(Expr::Not(Box::new(alloc, inner)?))
}

// An int, a text, a name, a length or a pair of parentheses.
#[cycle(parser)]
fn operand(alloc: Global, tokens: &[Token]) -> Result<(Expr, &[Token]), ParseError>
    ensures shorter { IfOk result (λ x. length x.1.now < length tokens.now) }
    ensures gives { (n : ℕ) → 8 * length tokens.now ≤ n → Gives seen result (atom (read n 6) tokens.now) }
{
    match tokens {
        [
            Token::Kept(Reserved::Len),
            Token::Sign(Symbol::Open),
            rest @ ..,
        ] => {
            let (inner, rest) = at_level(alloc, 6, rest)?;
            match rest {
                [Token::Sign(Symbol::Close), rest @ ..] => Ok((length_of(alloc, inner)?, rest)),
                _ => Err(ParseError::Shape),
            }
        }
        [
            Token::Kept(Reserved::ToInt),
            Token::Sign(Symbol::Open),
            rest @ ..,
        ] => {
            let (inner, rest) = at_level(alloc, 6, rest)?;
            match rest {
                [Token::Sign(Symbol::Close), rest @ ..] => Ok((number_of(alloc, inner)?, rest)),
                _ => Err(ParseError::Shape),
            }
        }
        [Token::Sign(Symbol::Open), rest @ ..] => {
            let (inner, rest) = at_level(alloc, 6, rest)?;
            match rest {
                [Token::Sign(Symbol::Close), rest @ ..] => Ok((group(alloc, inner)?, rest)),
                _ => Err(ParseError::Shape),
            }
        }
        [Token::Quote(s), rest @ ..] => Ok((text(alloc, s)?, rest)),
        [Token::Word(_, w), rest @ ..] => Ok((column(alloc, w)?, rest)),
        [Token::Quoted(w), rest @ ..] => Ok((column(alloc, w)?, rest)),
        [Token::Kept(Reserved::Len), ..] | [Token::Kept(Reserved::ToInt), ..] => Err(
            ParseError::Shape,
        ),
        _ => {
            let (n, rest) = int(tokens)?;
            Ok((Expr::Int(n), rest))
        }
    }
}

// Perhaps a `not` in front.
#[cycle(parser)]
fn negation(alloc: Global, tokens: &[Token]) -> Result<(Expr, &[Token]), ParseError>
    ensures shorter { IfOk result (λ x. length x.1.now < length tokens.now) }
    ensures gives { (n : ℕ) → 8 * length tokens.now + 3 < n → Gives seen result (negation (read n 4) (read n 3) tokens.now) }
{
    match tokens {
        [Token::Kept(Reserved::Not), rest @ ..] => {
            let (inner, rest) = at_level(alloc, 4, rest)?;
            Ok((negated(alloc, inner)?, rest))
        }
        _ => at_level(alloc, 3, tokens),
    }
}

// The longest expression of a level at the front.
#[cycle(parser)]
fn at_level(alloc: Global, level: u8, tokens: &[Token]) -> Result<(Expr, &[Token]), ParseError>
    requires { level ≤ 6 }
    ensures shorter { IfOk result (λ x. length x.1.now < length tokens.now) }
    ensures gives { (n : ℕ) → 8 * length tokens.now + level < n → Gives seen result (read n level tokens.now) }
{
    if level == 0 {
        return operand(alloc, tokens);
    }
    if level == 4 {
        return negation(alloc, tokens);
    }
    let (left, rest) = at_level(alloc, level - 1, tokens)?;
    go_on(alloc, level, left, rest)
}

// What follows a left side at a level.
#[cycle(parser)]
fn go_on(
    alloc: Global,
    level: u8,
    left: Expr,
    tokens: &[Token],
) -> Result<(Expr, &[Token]), ParseError>
    requires { (0 < level) × (level ≤ 6) }
    ensures shorter { IfOk result (λ x. length x.1.now ≤ length tokens.now) }
    ensures gives { (n m : ℕ) → 8 * length tokens.now ≤ n → length tokens.now < m → Gives seen result (more (read n (level - 1)) level m (view left) tokens.now) }
{
    let Some((token, rest)) = tokens.split_first() else {
        return Ok((left, tokens));
    };
    let Some(op) = operator_at(level, token) else {
        return Ok((left, tokens));
    };
    let (right, rest) = at_level(alloc, level - 1, rest)?;
    let both = pair(alloc, op, left, right)?;
    if level == 3 {
        return Ok((both, rest));
    }
    go_on(alloc, level, both, rest)
}

/// The longest expression at the front, and the tokens after it. It goes as deep as the tokens nest.
pub fn expression(alloc: Global, tokens: &[Token]) -> Result<(Expr, &[Token]), ParseError>
    ensures shorter { IfOk result (λ x. length x.1.now < length tokens.now) }
    ensures gives { Gives seen result (expr_at tokens.now) }
{
    at_level(alloc, 6, tokens)
}

/// The expression that all of the tokens read as.
pub fn whole_expression(alloc: Global, tokens: &[Token]) -> Result<Expr, ParseError>
    // What is read stands there, and nothing else does.
    ensures found { IfOk result (λ e. Reads 6 (view e) tokens.now) }
    ensures one { (d e : Tree) → Reads 6 d tokens.now → Reads 6 e tokens.now → d ≡ e }

    // A refusal comes only where the tokens read as no expression, or memory is wanting.
    ensures only { (e : Tree) → Reads 6 e tokens.now → Gives view result (Some e) }
{
    let (read, rest) = expression(alloc, tokens)?;
    if rest.is_empty() {
        Ok(read)
    } else {
        Err(ParseError::Shape)
    }
}
