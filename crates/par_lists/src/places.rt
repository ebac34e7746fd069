ghost use Rattle.std.specs.Prelude.{◌≡◌};
ghost use Rattle.par_lists.specs.Cuts.{place};
ghost use Rattle.par_lists.specs.Searches.{index_or_minus_one};

/// The place that a number names, as `take`, `drop`, `slice` and `segmentLength` are given one: a negative one names
/// the first.
pub fn place_of(n: i64) -> u64
    ensures { result ≡ place n }
{
    if n < 0 { 0 } else { n as u64 }
}

/// The index, or -1 where there is none, as `indexWhere` and `lastIndexWhere` answer it.
pub fn index_of(found: Option<u32>) -> i64
    ensures { result ≡ index_or_minus_one found }
{
    match found {
        Some(index) => index as i64,
        None => -1,
    }
}
