//! What a reader wants to know of the rule.
ghost use Rattle.std.specs.Prelude.{◌≡◌, IfSome, List, ℕ, None, Some, [], ◌∷◌, codes, false, true};
ghost use Rattle.pipe_words.specs.Commands.{Check, IsWithinLimits, Run, asked, command_of};
ghost use Rattle.pipe_words.specs.Parts.{Plain, look_of};

/// A run that is asked for has from 1 to 64 workers, and a level from 1 to 64. After a first `--` nothing is an option.
/// `run PIPE` has 4 workers and level 4. Some words that are written out.
pub fn word_laws()
    ensures limits { (words : List (List ℕ)) → IfSome (command_of words) IsWithinLimits }
    ensures separated { (words : List (List ℕ)) → command_of (codes "--" ∷ words) ≡ asked words None None false }
    ensures plain { (pipe : List ℕ) → look_of pipe ≡ Plain → command_of (codes "run" ∷ pipe ∷ []) ≡ Some (Run pipe None 4 4 false) }
    ensures level { command_of (codes "run" ∷ codes "p" ∷ codes "--workers" ∷ codes "07" ∷ codes "d" ∷ []) ≡ Some (Run (codes "p") (Some (codes "d")) 7 7 false) }
    ensures anywhere { command_of (codes "--audit" ∷ codes "--level=2" ∷ codes "run" ∷ codes "-" ∷ []) ≡ Some (Run (codes "-") None 4 2 true) }
    ensures late { command_of (codes "check" ∷ codes "--" ∷ codes "--audit" ∷ []) ≡ Some (Check (codes "--audit")) }
    ensures twice { command_of (codes "run" ∷ codes "p" ∷ codes "--level" ∷ codes "1" ∷ codes "--level=1" ∷ []) ≡ None }
    ensures short { command_of (codes "run" ∷ codes "-w" ∷ codes "4" ∷ codes "p" ∷ []) ≡ None }
{}
