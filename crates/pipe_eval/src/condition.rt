//! Expressions as tests.

ghost use Rattle.std.specs.Prelude.{◌≡◌, IfOk, true};
ghost use Rattle.pipe_checks.specs.Kinds.{fits};
ghost use Rattle.pipe_checks.specs.declared.uses.Want.TheVariants.{Truth as TruthWanted};
ghost use Rattle.pipe_expr.specs.Grammar.{view};
ghost use Rattle.pipe_eval.specs.Answers.{verdict_on};
ghost use Rattle.pipe_eval.specs.Mapped.{condition_on};

use crate::bind::bind_claim;
use crate::claim::Claim;
use par_laws::{Memory, Test, Verdict};
use par_rows::{Row, Schema};
use pipe_expr::Expr;
use std::alloc::Global;

/// An expression of truth kind as a test: a row passes where it holds, fails where it doesn't, and faults by the number
/// of the fault's kind where it has no value.
#[derive(Debug, Drop)]
pub struct Condition {
    claim: Claim,
}

impl Condition {
    /// The test of an expression over rows of these columns. Linear in the expression for each column.
    pub fn bind(alloc: Global, e: &Expr, schema: &Schema) -> Result<Condition, Memory>
        requires { fits schema.now.columns.items TruthWanted (view e.now) ≡ true }
        ensures { IfOk result (λ c. condition_on c ≡ verdict_on schema.now.columns.items (view e.now)) }
    {
        let claim = bind_claim(alloc, &schema.columns, e)?;
        Ok(Condition { claim })
    }
}

/// Takes no memory.
impl<'a> Test<&'a Row> for Condition {
    ghost verdict = { condition_on };

    fn test(&self, item: &&'a Row) -> Verdict {
        match self.claim.at(item) {
            Ok(true) => Verdict::Pass,
            Ok(false) => Verdict::Fail,
            Err(fault) => Verdict::Fault(fault.kind()),
        }
    }
}
