//! Laws of texts, for the crates above.

ghost use Rattle.std.specs.Prelude.{◌≡◌, ℕ, ◌+◌, ◌≤◌, List, length, map};
ghost use Rattle.std.specs.Str.Lines.{lines};
ghost use Rattle.pipe_steps.specs.Said.{Said};
ghost use Rattle.pipe_program.specs.Plans.{AreOf, Plan};
ghost use Rattle.pipe_program.specs.Reading.{AreNumbered, AreSaid, IsSettled, IsSound, IsUnique, Reads};
ghost use Rattle.pipe_program.specs.Spelling.{AreSayable, AreSpelled, steps_of};

use pipe_checks::place_laws;
use pipe_steps::saying_laws;
use pipe_text::line_laws;

/// The laws of texts. It does nothing: the laws are its contract.
pub fn text_laws()
    // each text reads as a plan or is refused, and just one of them
    ensures settled { (text : List ℕ) → IsSettled text }
    ensures unique { (text : List ℕ) → IsUnique text }
    // what the numbered lines say is what the text says
    ensures numbered { (text : List ℕ) (ys : List Said) (zs : List (ℕ × Said)) → AreSaid text ys → AreNumbered text zs → map (λ z. z.1) zs ≡ ys }
    ensures one_numbering { (text : List ℕ) (zs ws : List (ℕ × Said)) → AreNumbered text zs → AreNumbered text ws → zs ≡ ws }
    // nothing of a plan that is read is wrong
    ensures sound { (text : List ℕ) (p : Plan) → Reads text p → IsSound p }
    // a text has at most one line more than bytes
    ensures few { (text : List ℕ) → length (lines text) ≤ length text + 1 }
{
    line_laws();
    place_laws();
}

/// The laws of other spellings. It does nothing: the laws are its contract.
pub fn spelling_laws()
    // some line says each step of a plan that is read
    ensures each { (text : List ℕ) (p : Plan) → Reads text p → AreSayable p.version (steps_of p) }
    // a plan that is read is read from any lines that say its lines
    ensures again { (text other : List ℕ) (p : Plan) (ys : List Said) → Reads text p → AreOf p ys → AreSpelled p.version (lines other) ys → Reads other p }
{
    saying_laws();
}
