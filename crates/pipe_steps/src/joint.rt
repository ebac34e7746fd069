//! What stands between the parts of a line.

ghost use Rattle.std.specs.Prelude.{◌≡◌, ◌<◌, length, Some, None, IfOk, IfSome, option_map};
ghost use Rattle.pipe_expr.specs.Reading.{Gives};
ghost use Rattle.pipe_steps.specs.Reading.{is_joint, joint_at};

use pipe_expr::{ParseError, Reserved, Token};
use pipe_text::Symbol;

/// A word, symbol or number that a form has between its parts.
#[derive(Clone, Copy, Debug)]
pub enum Joint {
    As,
    When,
    From,
    Until,
    By,
    Split,
    Range,
    Comma,
    Colon,
    Equal,
    Arrow,
    /// The number 2.
    Two,
}

fn is_joint(wanted: Joint, token: &Token) -> bool
    ensures { result ≡ is_joint wanted token.now }
{
    match (wanted, token) {
        (Joint::As, Token::Kept(Reserved::As)) => true,
        (Joint::When, Token::Kept(Reserved::When)) => true,
        (Joint::From, Token::Kept(Reserved::From)) => true,
        (Joint::Until, Token::Kept(Reserved::Until)) => true,
        (Joint::By, Token::Kept(Reserved::By)) => true,
        (Joint::Split, Token::Kept(Reserved::Split)) => true,
        (Joint::Range, Token::Kept(Reserved::Range)) => true,
        (Joint::Comma, Token::Sign(Symbol::Comma)) => true,
        (Joint::Colon, Token::Sign(Symbol::Colon)) => true,
        (Joint::Equal, Token::Sign(Symbol::Equal)) => true,
        (Joint::Arrow, Token::Sign(Symbol::Arrow)) => true,
        (Joint::Two, Token::Digits(n)) => *n == 2,
        _ => false,
    }
}

// The tokens behind a joint, if it stands there.
#[tactic(auto, unfolding(crate::specs::Reading::joint_at))]
pub(crate) fn accept(wanted: Joint, tokens: &[Token]) -> Option<&[Token]>
    ensures shorter { IfSome result (λ x. length x.now < length tokens.now) }
    ensures gives { option_map (λ x. x.now) result ≡ joint_at wanted tokens.now }
{
    match tokens {
        [token, rest @ ..] if is_joint(wanted, token) => Some(rest),
        _ => None,
    }
}

// The tokens behind a joint.
pub(crate) fn expect(wanted: Joint, tokens: &[Token]) -> Result<&[Token], ParseError>
    ensures shorter { IfOk result (λ x. length x.now < length tokens.now) }
    ensures gives { Gives (λ x. x.now) result (joint_at wanted tokens.now) }
{
    match accept(wanted, tokens) {
        Some(rest) => Ok(rest),
        None => Err(ParseError::Shape),
    }
}
