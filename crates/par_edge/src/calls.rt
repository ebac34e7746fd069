//! The numbers of the calls that are to fail.

ghost use Rattle.std.specs.Prelude.{◌↔◌, ◌+◌, IsTrue, Contains};

/// Whether the call after so many calls is one of these. A call past the last value of a `u64` is none.
pub fn fails_next(failing: &[u64], calls: u64) -> bool
    ensures { IsTrue result ↔ Contains failing.now (calls + 1) }
{
    match calls.checked_add(1) {
        Some(number) => failing.contains(&number),
        None => false,
    }
}
