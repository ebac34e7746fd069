//! Expressions as numbers.

ghost use Rattle.std.specs.Prelude.{◌≡◌, IfOk, true};
ghost use Rattle.pipe_checks.specs.Kinds.{fits};
ghost use Rattle.pipe_checks.specs.declared.uses.Want.TheVariants.{Number as NumberWanted};
ghost use Rattle.pipe_expr.specs.Grammar.{view};
ghost use Rattle.pipe_eval.specs.Answers.{number_made};
ghost use Rattle.pipe_eval.specs.Mapped.{number_on};

use crate::amount::Amount;
use crate::bind::bind_amount;
use crate::fault::made;
use par_laws::{Made, Mapper, Memory};
use par_rows::{Row, Schema};
use pipe_expr::Expr;
use std::alloc::Global;

/// An expression of number kind as a mapper to its value or its fault.
#[derive(Debug, Drop)]
pub struct Number {
    amount: Amount,
}

impl Number {
    /// The mapper of an expression over rows of these columns. Linear in the expression for each column.
    pub fn bind(alloc: Global, e: &Expr, schema: &Schema) -> Result<Number, Memory>
        requires { fits schema.now.columns.items NumberWanted (view e.now) ≡ true }
        ensures { IfOk result (λ n. number_on n ≡ number_made schema.now.columns.items (view e.now)) }
    {
        let amount = bind_amount(alloc, &schema.columns, e)?;
        Ok(Number { amount })
    }
}

/// Takes no memory.
impl<'a> Mapper<&'a Row, Made<i64>> for Number {
    ghost mapped = { number_on };

    fn map(&self, _alloc: Global, item: &&'a Row) -> Result<Made<i64>, Memory> {
        Ok(made(self.amount.quick_at(item)))
    }
}
