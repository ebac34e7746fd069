//! What is made of each item as a list, joined in a combiner.
ghost use Rattle.std.specs.Prelude.{◌≡◌, ◌≤◌, List, ◌++◌, length, map, IfOk};
ghost use Rattle.par_transform.specs.Flattening.{IsFlat, flat_shown};

use par_combiner::Combiner;
use par_jobs::Builder;
use par_laws::{MAX_ITEMS, Mapper, Memory, Shown};
use std::alloc::Global;
use std::marker::PhantomData;

/// What was gathered of lists; or that there are more items than a collection has.
#[derive(Drop)]
pub enum Flat<C> {
    Kept(C),
    Over,
}

impl<C: Shown> Shown for Flat<C> {
    ghost use Rattle.par_transform.specs.Flattening.{flat_shown};

    type Value = Flat<C::Value>;

    ghost shown = { flat_shown C.shown };
}

/// Maps each item to a list and gathers the items of the lists in a combiner.
#[derive(Drop)]
pub(crate) struct Flattening<'a, F, C> {
    pub of: &'a F,
    pub out: PhantomData<C>,
}

// What was gathered with the items of a list more, as far as a collection has room for them.
fn add_list<C: Combiner>(made: C, more: Vec<C::Item>) -> Result<Flat<C>, Memory>
    requires { (xs : List C.Item.Value) × C.has (C.shown made) xs × (length xs ≤ 4194304) }
    ensures { IfOk result (λ flat. (xs : List C.Item.Value) → C.has (C.shown made) xs → IsFlat C.has (flat_shown C.shown flat) (xs ++ map C.Item.shown more.items)) }
{
    let room = MAX_ITEMS - made.len();
    if more.len() > room as usize {
        return Ok(Flat::Over);
    }
    let mut all = made;
    for item in more {
        all.add(item)?;
    }
    Ok(Flat::Kept(all))
}

impl<'a, I: Shown, C: Combiner, F: Mapper<I, Vec<C::Item>>> Builder<I> for Flattening<'a, F, C> {
    ghost use Rattle.std.specs.List.{flat_map};
    ghost use Rattle.par_transform.specs.Flattening.{FlatJoins, IsFlat, flattened_join, one_flat};

    type Built = Flat<C>;

    ghost built = { λ b xs v. IsFlat C.has v (flat_map (F.mapped b.of.now) xs) };

    ghost joined = { λ _ v w c. FlatJoins C.count C.joined v w c };

    fn start(&self, alloc: Global) -> Result<Flat<C>, Memory> {
        Ok(Flat::Kept(C::empty(alloc)?))
    }

    fn add(&self, alloc: Global, value: Flat<C>, item: &I) -> Result<Flat<C>, Memory> {
        match value {
            Flat::Kept(made) => {
                let more = self.of.map(alloc, item)?;
                add_list(made, more)
            }
            Flat::Over => Ok(Flat::Over),
        }
    }

    fn join(&self, left: Flat<C>, right: Flat<C>) -> Result<Flat<C>, Memory> {
        match (left, right) {
            (Flat::Kept(a), Flat::Kept(b)) => {
                if u64::from(a.len()) + u64::from(b.len()) > u64::from(MAX_ITEMS) {
                    Ok(Flat::Over)
                } else {
                    Ok(Flat::Kept(a.combine(b)))
                }
            }
            (Flat::Kept(_), Flat::Over) => Ok(Flat::Over),
            (Flat::Over, _) => Ok(Flat::Over),
        }
    }

    ghost joins = { λ b xs ys v w c p q m. flattened_join C.has C.count C.joined C.counts C.joins (F.mapped b.of.now) xs ys v w c p q m };

    ghost one_join = { λ _ v w c d p q. one_flat C.count C.joined v w c d p q };
}
