ghost use Rattle.std.specs.Prelude.{◌≡◌, pos, refl};
ghost use Rattle.std.specs.Cmp.{eq_by_cmp_equiv, partial_equiv_from_equiv, po};
ghost use Rattle.std.specs.Ordering.{eq_by_cmp};
ghost use Rattle.std.specs.declared.option.Option.TheVariants.{Some};
ghost use Rattle.par_rows.specs.Order.{value_cmp, value_told, value_total};
ghost use Rattle.par_rows.specs.Hash.{value_hash};
ghost use Rattle.par_rows.specs.declared.value.Value.TheVariants.{Int};

use par_laws::{HashKey, Keep, Memory, Shown, Words};
use std::alloc::Global;
use std::cmp::Ordering;

/// What a row holds at a place.
#[derive(Debug, Drop)]
pub enum Value {
    /// A number of 64 bits.
    Int(i64),
    /// A text.
    Text(Words),
}

/// The number 0.
impl Default for Value {
    ghost is_default = { λ v. v ≡ Int (pos 0) };

    fn default() -> Value {
        Value::Int(0)
    }
}

impl Shown for Value {
    type Value = Value;

    ghost shown = { λ x. x };
}

impl PartialEq for Value {
    ghost eq = { eq_by_cmp value_cmp };

    ghost laws = { partial_equiv_from_equiv (eq_by_cmp_equiv value_total) };

    fn eq(&self, other: &Value) -> bool {
        self.cmp(other) == Ordering::Equal
    }
}

impl Eq for Value {
    ghost laws = { eq_by_cmp_equiv value_total };
}

impl PartialOrd for Value {
    ghost partial_cmp = { λ a b. Some (value_cmp a b) };

    ghost laws = { po value_total (λ _ _. refl) };

    fn partial_cmp(&self, other: &Value) -> Option<Ordering> {
        Some(self.cmp(other))
    }
}

/// Numbers by value and before texts, texts by their bytes.
impl Ord for Value {
    ghost cmp = { value_cmp };

    ghost total = { value_total };

    ghost matches_partial_cmp = { λ _ _. refl };

    ghost matches_eq = { λ _ _. refl };

    fn cmp(&self, other: &Value) -> Ordering {
        match (self, other) {
            (Value::Int(a), Value::Int(b)) => a.cmp(b),
            (Value::Text(a), Value::Text(b)) => a.cmp(b),
            (Value::Int(_), Value::Text(_)) => Ordering::Less,
            (Value::Text(_), Value::Int(_)) => Ordering::Greater,
        }
    }
}

/// Takes memory for a text alone.
impl Keep for Value {
    fn copy(&self, alloc: Global) -> Result<Value, Memory> {
        match self {
            Value::Int(number) => Ok(Value::Int(*number)),
            Value::Text(text) => Ok(Value::Text(text.copy(alloc)?)),
        }
    }
}

/// The hash of the number or of the text.
impl HashKey for Value {
    ghost order = { value_cmp };

    ghost hash = { value_hash };

    ghost ordered = { λ _ _. refl };

    ghost order_total = { value_total };

    ghost told = { value_told };

    fn hash32(&self) -> u32 {
        match self {
            Value::Int(number) => number.hash32(),
            Value::Text(text) => text.hash32(),
        }
    }
}
