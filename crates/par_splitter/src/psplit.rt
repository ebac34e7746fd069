ghost use Rattle.std.specs.Prelude.{◌≡◌, IfOk, IfErr};
ghost use Rattle.par_splitter.specs.Sizes.{ArePartsBySize};

use crate::cut::{Parts, Precise};
use par_laws::Back;
use std::alloc::Global;

/// Cuts `whole` by the sizes. All memory is reserved before the first cut.
pub(crate) fn cut_by_sizes<S: Precise>(
    whole: S,
    alloc: Global,
    sizes: &[u32],
) -> Result<Parts<S>, Back<S>>
    ensures parts { IfOk result (λ parts. ArePartsBySize S.items S.lo whole sizes.now parts.items) }
    ensures back { IfErr result (λ refused. refused.item ≡ whole) }
{
    let Ok(mut parts) = Vec::with_capacity(alloc, sizes.len() + 1) else {
        return Err(Back { item: whole });
    };
    let mut rest = whole;
    for size in sizes {
        let (part, after) = rest.cut_at(*size);
        parts.push_reserved(part);
        rest = after;
    }
    if rest.remaining() > 0 {
        parts.push_reserved(rest);
    }
    Ok(parts)
}
