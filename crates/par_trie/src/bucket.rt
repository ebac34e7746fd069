ghost use Rattle.std.specs.Prelude.{◌≡◌};
ghost use Rattle.par_trie.specs.Buckets.{bucket_of_hash};

use par_laws::mix;

/// The bucket of a hash, 0 to 31: the low five bits of the mixed hash, which are a trie's digit on level 0. Takes no memory.
pub fn trie_bucket(hash: u32) -> u32
    ensures { result ≡ bucket_of_hash hash }
{
    mix(hash) % 32
}
