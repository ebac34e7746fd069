//! That threads may share the markets, and take their seats along.
use crate::deque::{DequeMarket, DequeSeat};
use crate::locked::{LockedMarket, LockedSeat};

fn sent<T: Send>(value: T) -> T {
    value
}

fn shared<T: Sync>(value: &T) -> &T {
    value
}

/// A seat of a locked market may be sent to another thread.
pub(crate) fn locked_seat_crosses(seat: LockedSeat) -> LockedSeat {
    sent(seat)
}

/// Threads may share a locked market.
pub(crate) fn locked_market_crosses(market: &LockedMarket) -> &LockedMarket {
    shared(market)
}

/// A seat of a market of deques may be sent to another thread.
pub(crate) fn deque_seat_crosses(seat: DequeSeat) -> DequeSeat {
    sent(seat)
}

/// Threads may share a market of deques.
pub(crate) fn deque_market_crosses(market: &DequeMarket) -> &DequeMarket {
    shared(market)
}
