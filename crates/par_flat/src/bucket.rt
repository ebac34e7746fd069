ghost use Rattle.std.specs.Prelude.{◌≡◌, ℕ, ◌+◌, ◌*◌, ◌<◌, ◌≤◌, ◌^◌};
ghost use Rattle.par_flat.specs.Rooms.{bucket_of_hash, IsRoomFor};

use par_laws::{MAX_ITEMS, mix};

/// The bucket of a hash, 0 to 31: the high five bits of the mixed hash. Takes no memory.
pub fn flat_bucket(hash: u32) -> u32
    ensures { result ≡ bucket_of_hash hash }
{
    mix(hash) / 134_217_728
}

/// The least room of a table for `n` keys, 0 to 18: a table of room m has `32 * 2^m` slots, and keys take at most half
/// of them.
pub fn room_for(n: u32) -> u32
    requires { n ≤ MAX_ITEMS }
    ensures room { IsRoomFor n result }
    ensures bound { result ≤ 18 }
{
    let mut half = 16;
    for room in 0..18 {
        if n <= half {
            return room;
        }
        half *= 2;
    }
    18
}
