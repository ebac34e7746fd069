ghost use Rattle.std.specs.Prelude.{◌≡◌, encode_utf8_all, refl};
ghost use Rattle.std.proofs.Common.{sym};
ghost use Rattle.std.proofs.lemmas.Str.{encodes_same};
ghost use Rattle.std.specs.Ordering.{int_cmp};
ghost use Rattle.std.specs.Cmp.{int_cmp_total, on_total, signed_Decides};
ghost use Rattle.std.specs.Cmp.Lexicographic.{nat_list_cmp_total, same_text};
ghost use Rattle.par_laws.specs.Hash.{hash_step, int_hash, mixed, text_hash};
ghost use Rattle.par_laws.specs.Text.{text_cmp};

use crate::key::HashKey;
use crate::words::Words;

/// Mixes the bits of a hash, so that each bit of the answer depends on many of it. The trie and the table take their
/// bits from here. Takes no memory.
#[inline(always)]
pub fn mix(hash: u32) -> u32
    ensures { result ≡ mixed hash }
{
    let product = hash.wrapping_mul(2_654_435_761);
    product ^ (product >> 15)
}

/// The hash is the low half of the 64 bits and the high half, by exclusive or.
impl HashKey for i64 {
    ghost order = { int_cmp };

    ghost hash = { int_hash };

    ghost ordered = { λ _ _. refl };

    ghost order_total = { int_cmp_total };

    ghost told = { λ a b equal. (signed_Decides a b).0 equal };

    fn hash32(&self) -> u32 {
        let bits = self.cast_unsigned();
        (bits % 0x1_0000_0000) as u32 ^ (bits >> 32) as u32
    }
}

/// The hash begins with 0, and each byte makes it 31 times the hash and the byte, modulo 2^32.
impl HashKey for Words {
    ghost order = { text_cmp };

    ghost hash = { text_hash };

    ghost ordered = { λ _ _. refl };

    ghost order_total = { on_total encode_utf8_all nat_list_cmp_total };

    ghost told = { λ a b equal. encodes_same a b (same_text _ _ (sym equal)) };

    fn hash32(&self) -> u32 {
        let mut hash = 0u32;
        for byte in self.as_str().as_bytes() {
            hash = hash.wrapping_mul(31).wrapping_add(*byte as u32);
        }
        hash
    }
}
