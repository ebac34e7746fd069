use par_market::{DequeMarket, LockedMarket, Market, Ticket, find};
use std::sync::Wait;
use std::test::Fail;

// The tickets of three parts: what one seat finds after it posted two, of which a look took the first.
fn posted_and_found<M: Market, R: Wait>(
    rt: &R,
    market: &M,
    seat: &mut M::Seat,
) -> (bool, Option<Ticket>, Option<Ticket>, Option<Ticket>)
    requires { M.is_of market.now seat.old }
    ensures { M.is_of market.now seat.new }
{
    let before = find(rt, market, seat);
    let first = Ticket {
        node: 3,
        lo: 2,
        hi: 4,
    };
    let second = Ticket {
        node: 5,
        lo: 1,
        hi: 2,
    };
    let one = market.post(rt, seat, first);
    let two = market.post(rt, seat, second);
    let taken = find(rt, market, seat);
    let left = find(rt, market, seat);
    (one.is_ok() && two.is_ok(), before, taken, left)
}

// What another seat finds of what one posted.
fn found_by_another<M: Market, R: Wait>(
    rt: &R,
    market: &M,
    one: &mut M::Seat,
    other: &mut M::Seat,
) -> (Option<Ticket>, Option<Ticket>)
    requires { M.is_of market.now one.old × M.is_of market.now other.old }
{
    let ticket = Ticket {
        node: 2047,
        lo: 7,
        hi: 7,
    };
    let posted = market.post(rt, one, ticket);
    if posted.is_err() {
        return (None, None);
    }
    let stolen = find(rt, market, other);
    (stolen, find(rt, market, one))
}

#[test]
fn a_locked_market_gives_what_was_posted(rt: HostRuntime) -> Result<(), Fail> {
    let (market, mut seats) = LockedMarket::open(rt.alloc(), 2)?;
    let (Some(mut other), Some(mut one)) = (seats.pop(), seats.pop()) else {
        panic!(rt; "two seats")
    };
    assert_eq!(rt; (market.queues(), market.own(&one)), (1, 0));
    let (posted, before, taken, left) = posted_and_found(&rt, &market, &mut one);
    assert!(rt; posted && before.is_none());
    assert_eq!(rt; taken.map(|t| t.node), Some(3));
    assert_eq!(rt; left.map(|t| t.node), Some(5));
    let (stolen, rest) = found_by_another(&rt, &market, &mut one, &mut other);
    assert_eq!(rt; stolen.map(|t| (t.node, t.lo, t.hi)), Some((2047, 7, 7)));
    assert!(rt; rest.is_none());
    Ok(())
}

#[test]
fn a_market_of_deques_gives_what_was_posted(rt: HostRuntime) -> Result<(), Fail> {
    let (market, mut seats) = DequeMarket::open(rt.alloc(), 2)?;
    let (Some(mut other), Some(mut one)) = (seats.pop(), seats.pop()) else {
        panic!(rt; "two seats")
    };
    assert_eq!(rt;
        (market.queues(), market.own(&one), market.own(&other)),
        (2, 0, 1)
    );
    let (posted, before, taken, left) = posted_and_found(&rt, &market, &mut one);
    assert!(rt; posted && before.is_none());
    assert_eq!(rt; taken.map(|t| t.node), Some(3));
    assert_eq!(rt; left.map(|t| t.node), Some(5));
    let (stolen, rest) = found_by_another(&rt, &market, &mut one, &mut other);
    assert_eq!(rt; stolen.map(|t| (t.node, t.lo, t.hi)), Some((2047, 7, 7)));
    assert!(rt; rest.is_none());
    Ok(())
}
