//! Laws of lines, for the crates above.

ghost use Rattle.std.specs.Prelude.{◌≡◌, ◌∷◌, [], ℕ, List, true};
ghost use Rattle.pipe_text.specs.declared.lexeme.Symbol.TheVariants.{Minus};
ghost use Rattle.pipe_text.specs.Token.{IsLex, IsLongest, Lex, Sign, is_digit};
ghost use Rattle.pipe_text.specs.Line.{AreUtf8, IsSettled, IsUnique, ReadsAs};

/// The laws of lines. It does nothing: the laws are its contract.
pub fn line_laws()
    // each line has tokens or a fault, and just one of them
    ensures settled { (line : List ℕ) → IsSettled line }
    ensures unique { (line : List ℕ) → IsUnique line }
    // the tokens of a line are UTF-8
    ensures utf8 { (line : List ℕ) (ts : List Lex) → ReadsAs line ts → AreUtf8 ts }
    // a space stops every token, and so does the end of a line; digits behind a minus leave it alone
    ensures space { (t : Lex) (rest : List ℕ) → IsLex t → IsLongest t (32 ∷ rest) }
    ensures last { (t : Lex) → IsLex t → IsLongest t [] }
    ensures minus { (c : ℕ) (rest : List ℕ) → is_digit c ≡ true → IsLongest (Sign Minus) (c ∷ rest) }
{}
