//! How deep an expression is.

ghost use Rattle.std.specs.Prelude.{◌≡◌, ◌<◌, ◌↔◌, IsTrue};
ghost use Rattle.pipe_expr.specs.Depth.{depth, over};
ghost use Rattle.pipe_expr.specs.Grammar.{view};

use crate::expr::Expr;

#[tactic(auto, unfolding(crate::specs::Depth::over))]
fn over(room: u8, e: &Expr) -> bool
    ensures { result ≡ over room (view e.now) }
{
    if room == 0 {
        return true;
    }
    match e {
        Expr::Int(_) | Expr::Text(_) | Expr::Column(_) => false,
        Expr::Len(inner) => over(room - 1, inner),
        Expr::ToInt(inner) => over(room - 1, inner),
        Expr::Group(inner) => over(room - 1, inner),
        Expr::Not(inner) => over(room - 1, inner),
        Expr::Pair(_, a, b) => over(room - 1, a) || over(room - 1, b),
    }
}

/// Whether an expression is deeper than a bound. An int, a text and a name have depth 1, and each form around others
/// one more than the deepest of them. Looks no deeper than the bound, and takes no memory.
pub fn is_deeper(bound: u8, e: &Expr) -> bool
    ensures { IsTrue result ↔ (bound < depth (view e.now)) }
{
    over(bound, e)
}
