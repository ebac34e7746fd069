// Lists and texts, joined one after the other.
ghost use Rattle.std.specs.Prelude.{List, [], ◌∷◌, ◌++◌, Some, None, refl};
ghost use Rattle.std.proofs.Common.{append-nil, append_assoc, sym};
ghost use Rattle.par_laws.specs.Optional.{joined_options, separated};
ghost use Rattle.par_laws.specs.MonoidLaws.{joined_options-associative, joined_options-none_second, separated-associative};

use crate::keep::Keep;
use crate::memory::Memory;
use crate::monoid::{Gather, Monoid};
use crate::shown::Shown;
use crate::words::Words;
use std::alloc::Global;
use std::marker::PhantomData;

/// One list after the other.
#[derive(Clone, Copy, Debug)]
pub struct Concat<V> {
    of: PhantomData<V>,
}

impl<V> Default for Concat<V> {
    fn default() -> Concat<V> {
        Concat { of: PhantomData }
    }
}

impl<V: Shown + Drop> Monoid for Concat<V> {
    type T = Vec<V>;

    ghost is_value = { λ _ _. Unit {0} };

    ghost unit = { λ _. [] };

    ghost joined = { λ _ a b. a ++ b };

    ghost associative = { λ _. append_assoc };

    ghost unit_first = { λ _ _ _. refl };

    ghost unit_second = { λ _ a _. append-nil a };

    /// Takes no memory.
    fn zero(&self, alloc: Global) -> Result<Vec<V>, Memory> {
        Ok(Vec::new(alloc))
    }

    /// Linear in the second list. Its items move.
    fn op(&self, mut a: Vec<V>, mut b: Vec<V>) -> Result<Vec<V>, Memory> {
        a.append(&mut b)?;
        Ok(a)
    }

    fn known(&self, _a: &Vec<V>) {}
}

impl<V: Keep + Drop> Gather<V> for Concat<V> {
    ghost gathered = { λ _ a x. a ++ x ∷ [] };

    ghost adds = { λ _ a b x. append_assoc a b (x ∷ []) };

    /// The item is copied.
    fn add(&self, alloc: Global, mut acc: Vec<V>, item: &V) -> Result<Vec<V>, Memory> {
        acc.push(item.copy(alloc)?)?;
        Ok(acc)
    }
}

/// One text after the other with a separator between them, or None of none.
#[derive(Debug, Drop)]
pub struct Joined {
    pub sep: Words,
}

impl Monoid for Joined {
    type T = Option<Words>;

    ghost is_value = { λ _ _. Unit {0} };

    ghost unit = { λ _. None };

    ghost joined = { λ m. joined_options (separated m.sep) };

    ghost associative = { λ m. joined_options-associative (separated m.sep) (separated-associative m.sep) };

    ghost unit_first = { λ _ _ _. refl };

    ghost unit_second = { λ m a _. joined_options-none_second (separated m.sep) a };

    /// Takes no memory.
    fn zero(&self, _alloc: Global) -> Result<Option<Words>, Memory> {
        Ok(None)
    }

    /// Linear in the second text.
    fn op(&self, a: Option<Words>, b: Option<Words>) -> Result<Option<Words>, Memory> {
        match (a, b) {
            (Some(mut a), Some(b)) => {
                a.push(self.sep.as_str())?;
                a.push(b.as_str())?;
                Ok(Some(a))
            }
            (None, b) => Ok(b),
            (a, None) => Ok(a),
        }
    }

    fn known(&self, _a: &Option<Words>) {}
}

impl Gather<Words> for Joined {
    ghost gathered = { λ m a x. joined_options (separated m.sep) a (Some x) };

    ghost adds = { λ m a b x. joined_options-associative (separated m.sep) (separated-associative m.sep) a b (Some x) };

    /// The item is copied.
    fn add(
        &self,
        alloc: Global,
        acc: Option<Words>,
        item: &Words,
    ) -> Result<Option<Words>, Memory> {
        let item = item.copy(alloc)?;
        self.op(acc, Some(item))
    }
}
