//! What version 1 of the language asks of divisors.

ghost use Rattle.std.specs.Prelude.{◌≡◌};
ghost use Rattle.pipe_expr.specs.Divisor.{divides_by_ints, is_int, right_fits};
ghost use Rattle.pipe_expr.specs.Grammar.{view};

use crate::expr::{Expr, Op};

fn is_int(e: &Expr) -> bool
    ensures { result ≡ is_int (view e.now) }
{
    match e {
        Expr::Int(_) => true,
        _ => false,
    }
}

fn right_fits(op: Op, right: &Expr) -> bool
    ensures { result ≡ right_fits op (view right.now) }
{
    match op {
        Op::Divide | Op::Remainder => is_int(right),
        _ => true,
    }
}

/// Whether each divisor is an int, as version 1 asks; version 2 takes any number there. Linear, and takes no memory.
pub fn divides_by_ints(e: &Expr) -> bool
    ensures { result ≡ divides_by_ints (view e.now) }
{
    match e {
        Expr::Int(_) | Expr::Text(_) | Expr::Column(_) => true,
        Expr::Len(inner) => divides_by_ints(inner),
        Expr::ToInt(inner) => divides_by_ints(inner),
        Expr::Group(inner) => divides_by_ints(inner),
        Expr::Not(inner) => divides_by_ints(inner),
        Expr::Pair(op, a, b) => divides_by_ints(a) && divides_by_ints(b) && right_fits(*op, b),
    }
}
