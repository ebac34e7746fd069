// Sums, products and counts.
ghost use Rattle.std.specs.Prelude.{ℕ, ◌+◌, ◌%◌, ◌^◌, ◌<◌, pos, FitsSigned};
ghost use Rattle.std.specs.Int.{w64};
ghost use Rattle.par_laws.specs.Wrapping.{wrapped_count, wrapped_product, wrapped_sum};
ghost use Rattle.par_laws.specs.MonoidLaws.{wrapped_count-associative, wrapped_count-zero_first, wrapped_count-zero_second, wrapped_product-associative, wrapped_product-one_first, wrapped_product-one_second, wrapped_sum-associative, wrapped_sum-zero_first, wrapped_sum-zero_second};

use crate::memory::Memory;
use crate::monoid::{Gather, Monoid};
use crate::shown::Shown;
use std::alloc::Global;

/// The sum of numbers. It wraps at the ends of `i64`, and takes no memory.
#[derive(Clone, Copy, Debug, Default)]
pub struct Sum;

impl Monoid for Sum {
    type T = i64;

    ghost is_value = { λ _ a. FitsSigned w64 a };

    ghost unit = { λ _. pos 0 };

    ghost joined = { λ _. wrapped_sum };

    ghost associative = { λ _. wrapped_sum-associative };

    ghost unit_first = { λ _. wrapped_sum-zero_first };

    ghost unit_second = { λ _. wrapped_sum-zero_second };

    fn zero(&self, _alloc: Global) -> Result<i64, Memory> {
        Ok(0)
    }

    fn op(&self, a: i64, b: i64) -> Result<i64, Memory> {
        Ok(a.wrapping_add(b))
    }

    fn known(&self, a: &i64) {
        let _value = *a;
    }
}

impl Gather<i64> for Sum {
    ghost gathered = { λ _. wrapped_sum };

    ghost adds = { λ _. wrapped_sum-associative };

    fn add(&self, _alloc: Global, acc: i64, item: &i64) -> Result<i64, Memory> {
        Ok(acc.wrapping_add(*item))
    }
}

/// The product of numbers. It wraps at the ends of `i64`, and takes no memory.
#[derive(Clone, Copy, Debug, Default)]
pub struct Product;

impl Monoid for Product {
    type T = i64;

    ghost is_value = { λ _ a. FitsSigned w64 a };

    ghost unit = { λ _. pos 1 };

    ghost joined = { λ _. wrapped_product };

    ghost associative = { λ _. wrapped_product-associative };

    ghost unit_first = { λ _. wrapped_product-one_first };

    ghost unit_second = { λ _. wrapped_product-one_second };

    fn zero(&self, _alloc: Global) -> Result<i64, Memory> {
        Ok(1)
    }

    fn op(&self, a: i64, b: i64) -> Result<i64, Memory> {
        Ok(a.wrapping_mul(b))
    }

    fn known(&self, a: &i64) {
        let _value = *a;
    }
}

impl Gather<i64> for Product {
    ghost gathered = { λ _. wrapped_product };

    ghost adds = { λ _. wrapped_product-associative };

    fn add(&self, _alloc: Global, acc: i64, item: &i64) -> Result<i64, Memory> {
        Ok(acc.wrapping_mul(*item))
    }
}

/// The number of items. It wraps at 2^64, and takes no memory.
#[derive(Clone, Copy, Debug, Default)]
pub struct Count;

impl Monoid for Count {
    type T = u64;

    ghost is_value = { λ _ a. a < 2 ^ 64 };

    ghost unit = { λ _. 0 };

    ghost joined = { λ _. wrapped_count };

    ghost associative = { λ _. wrapped_count-associative };

    ghost unit_first = { λ _. wrapped_count-zero_first };

    ghost unit_second = { λ _. wrapped_count-zero_second };

    fn zero(&self, _alloc: Global) -> Result<u64, Memory> {
        Ok(0)
    }

    fn op(&self, a: u64, b: u64) -> Result<u64, Memory> {
        Ok(a.wrapping_add(b))
    }

    fn known(&self, a: &u64) {
        let _value = *a;
    }
}

impl<I: Shown> Gather<I> for Count {
    ghost gathered = { λ _ a _. wrapped_count a 1 };

    ghost adds = { λ _ a b _. wrapped_count-associative a b 1 };

    fn add(&self, _alloc: Global, acc: u64, _item: &I) -> Result<u64, Memory> {
        Ok(acc.wrapping_add(1))
    }
}
