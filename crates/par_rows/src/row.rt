ghost use Rattle.std.specs.Prelude.{◌≡◌, ◌∷◌, ◌++◌, [], refl, IfOk, is_ok, if◌then◌else◌, option_copied, slice_get};
ghost use Rattle.std.specs.Cmp.{eq_by_cmp_equiv, partial_equiv_from_equiv, po};
ghost use Rattle.std.specs.Ordering.{eq_by_cmp};
ghost use Rattle.std.specs.declared.option.Option.TheVariants.{Some};
ghost use Rattle.par_rows.specs.Order.{row_cmp, row_told, row_total};
ghost use Rattle.par_rows.specs.Hash.{row_hash};

use crate::value::Value;
use par_laws::{HashKey, Keep, Memory, Shown};
use smallvec::SmallVec;
use std::alloc::Global;
use std::cmp::Ordering;
use std::marker::Model;

/// The values of a row. Contracts see the list of them. One value lies in the row itself, more of them in an allocation.
#[derive(Debug, Drop)]
pub struct Values {
    items: SmallVec<Value, 1>,
}

impl Model for Values {
    ghost use Rattle.std.specs.Prelude.{List};
    ghost use Rattle.par_rows.specs.declared.value.Value.{Value as OneValue};

    ghost Value = { List OneValue };

    ghost view = { λ v. v.items.items };
}

impl Values {
    /// No values, with room for so many. Takes memory where `count` is above 1.
    pub fn with_room(alloc: Global, count: usize) -> Result<Values, Memory>
        ensures { IfOk result (λ values. values ≡ []) }
    {
        let items = SmallVec::with_capacity(alloc, count)?;
        Ok(Values { items })
    }

    /// Adds a value at the end; where memory is wanting, the value is dropped and the list stays as it was. Takes no
    /// memory within the room.
    pub fn push(&mut self, value: Value) -> Result<(), Memory>
        ensures { self.new ≡ (if is_ok result then self.old ++ value ∷ [] else self.old) }
    {
        self.items.push(value)?;
        Ok(())
    }

    /// The values, in order. Constant.
    pub fn as_slice(&self) -> &[Value]
        ensures { result.now ≡ self.now }
    {
        self.items.as_slice()
    }

    /// The value at a place, if there is one. Constant.
    pub fn get(&self, place: usize) -> Option<&Value>
        ensures { option_copied result ≡ slice_get self.now place }
    {
        self.items.as_slice().get(place)
    }
}

/// A row: a value for each column.
#[derive(Debug, Drop)]
pub struct Row {
    pub values: Values,
}

impl Shown for Row {
    type Value = Row;

    ghost shown = { λ x. x };
}

impl PartialEq for Row {
    ghost eq = { eq_by_cmp row_cmp };

    ghost laws = { partial_equiv_from_equiv (eq_by_cmp_equiv row_total) };

    fn eq(&self, other: &Row) -> bool {
        self.cmp(other) == Ordering::Equal
    }
}

impl Eq for Row {
    ghost laws = { eq_by_cmp_equiv row_total };
}

impl PartialOrd for Row {
    ghost partial_cmp = { λ a b. Some (row_cmp a b) };

    ghost laws = { po row_total (λ _ _. refl) };

    fn partial_cmp(&self, other: &Row) -> Option<Ordering> {
        Some(self.cmp(other))
    }
}

/// By the first place at which two rows differ; a row comes before one that it begins.
impl Ord for Row {
    ghost cmp = { row_cmp };

    ghost total = { row_total };

    ghost matches_partial_cmp = { λ _ _. refl };

    ghost matches_eq = { λ _ _. refl };

    fn cmp(&self, other: &Row) -> Ordering {
        self.values.as_slice().cmp(other.values.as_slice())
    }
}

/// Takes memory for just its values and their texts.
impl Keep for Row {
    fn copy(&self, alloc: Global) -> Result<Row, Memory> {
        let source = self.values.as_slice();
        let mut values = Values::with_room(alloc, source.len())?;
        for value in source {
            values.push(value.copy(alloc)?)?;
        }
        Ok(Row { values })
    }
}

/// From 0, each value makes it 31 times the hash and the value's hash, modulo 2^32.
impl HashKey for Row {
    ghost order = { row_cmp };

    ghost hash = { row_hash };

    ghost ordered = { λ _ _. refl };

    ghost order_total = { row_total };

    ghost told = { row_told };

    fn hash32(&self) -> u32 {
        let mut hash = 0u32;
        for value in self.values.as_slice() {
            hash = hash.wrapping_mul(31).wrapping_add(value.hash32());
        }
        hash
    }
}
