//! Laws of lines in their place, for the crates above.

ghost use Rattle.std.specs.Prelude.{List};
ghost use Rattle.pipe_expr.specs.declared.token.Token.{Token};
ghost use Rattle.pipe_checks.specs.Places.{Spot};
ghost use Rattle.pipe_checks.specs.Laws.{IsSettled, IsUnique};

/// The laws of lines in their place. It does nothing: the laws are its contract.
pub fn place_laws()
    // each line is accepted or refused, and just one of them
    ensures settled { (p : Spot) (ts : List Token) → IsSettled p ts }
    ensures unique { (p : Spot) (ts : List Token) → IsUnique p ts }
{}
