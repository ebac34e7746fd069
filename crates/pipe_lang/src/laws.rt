//! Laws of the language.

ghost use Rattle.std.specs.Prelude.{ℕ, List, IfErr, IfOk, Result};
ghost use Rattle.pipe_program.specs.declared.pipeline.Pipeline.{Pipeline as Parsed};
ghost use Rattle.pipe_program.specs.declared.refusal.ParseStop.{ParseStop as Stopped};
ghost use Rattle.pipe_program.specs.Plans.{Plan, plan};
ghost use Rattle.pipe_program.specs.Reading.{Reads, Stops};
ghost use Rattle.pipe_lang.specs.Round.{Gives};

use pipe_program::text_laws;

/// The laws of the language. It does nothing: the laws are its contract.
pub fn language_laws()
    // what `parse` answers of a text that reads as a plan, as the text that `print` gives of a pipeline does, is that plan or want of memory
    ensures round { (text : List ℕ) (p : Plan) (r : Result Parsed Stopped) → Reads text p → IfOk r (λ q. Reads text (plan q)) → IfErr r (λ e. Stops text e) → Gives p r }
{
    text_laws();
}
