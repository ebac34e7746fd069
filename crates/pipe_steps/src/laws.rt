//! Laws of what a line says, for the crates above.

ghost use Rattle.std.specs.Prelude.{◌≡◌, List};
ghost use Rattle.pipe_expr.specs.declared.token.Token.{Token};
ghost use Rattle.pipe_steps.specs.Said.{Said};
ghost use Rattle.pipe_steps.specs.Forms.{Says};

/// The law of what lines say. It does nothing: the law is its contract.
pub fn saying_laws()
    // no tokens say two lines
    ensures one { (x y : Said) (ts : List Token) → Says x ts → Says y ts → x ≡ y }
{}
