// A roll's answers, its refusals at their edges, and who is ahead in a tie.
use book::bid::{Bid, slots};
use book::ranking::{PriceSize, PriceTime, Ranking};
use book::roll::Roll;
use book::traits::{Book, PricedBook};
use fault::Fault;
use std::alloc::Global;
use std::process::Abort;
use std::test::Fail;

const TOKEN: [u8; 14] = *b"TOKEN-00000001";

fn bid(rt: &impl Abort, number: u64, token: [u8; 14], units: u32, limit: u32) -> Bid {
    let made = Bid::new(number, token, *b"BRKA", units, limit);
    assert!(rt; made.found);
    made.bid
}

fn roll(heap: Global, count: usize) -> Result<Roll, Fail> {
    Ok(Roll::new(slots(heap, count)?))
}

#[test]
fn no_bid_out_of_range(rt: HostRuntime) {
    for (units, limit, there) in [
        (0, 1, false),
        (1, 0, false),
        (1, 1, true),
        (999_999, 19_999_999, true),
        (1_000_000, 1, false),
        (1, 20_000_000, false),
        (u32::MAX, u32::MAX, false),
    ] {
        assert_eq!(rt; Bid::new(1, TOKEN, *b"BRKA", units, limit).found, there);
    }
    let made = Bid::new(7, TOKEN, *b"BRKA", 30, 1000);
    assert_eq!(rt; made.bid.number, 7);
    assert_eq!(rt; made.bid.token, TOKEN);
    assert_eq!(rt; made.bid.firm, *b"BRKA");
    assert_eq!(rt; made.bid.units, 30);
    assert_eq!(rt; made.bid.limit, 1000);
}

#[test]
fn adding_in_order_until_full(rt: HostRuntime) -> Result<(), Fail> {
    let mut roll = roll(rt.alloc(), 2)?;
    assert_eq!(rt; roll.count(), 0);
    assert_eq!(rt; roll.capacity(), 2);
    assert_eq!(rt; roll.top(), 19_999_999);
    assert_eq!(rt; roll.add(bid(&rt, 4, TOKEN, 30, 19_999_999)).err(), None);
    let refused = Some(Fault::NotAboveLast { last: 4 });
    assert_eq!(rt; roll.add(bid(&rt, 3, TOKEN, 30, 1000)).err(), refused);
    assert_eq!(rt; roll.add(bid(&rt, 4, TOKEN, 30, 1000)).err(), refused);
    assert_eq!(rt; roll.add(bid(&rt, 5, TOKEN, 30, 1000)).err(), None);
    assert_eq!(rt;
        roll.add(bid(&rt, 5, TOKEN, 30, 1000)).err(),
        Some(Fault::NotAboveLast { last: 5 })
    );
    assert_eq!(rt;
        roll.add(bid(&rt, 6, TOKEN, 30, 1000)).err(),
        Some(Fault::BookFull { capacity: 2 })
    );
    assert_eq!(rt; roll.count(), 2);
    Ok(())
}

#[test]
fn removing_the_middle_one(rt: HostRuntime) -> Result<(), Fail> {
    let mut roll = roll(rt.alloc(), 3)?;
    roll.add(bid(&rt, 3, TOKEN, 1, 1000))?;
    roll.add(bid(&rt, 5, TOKEN, 2, 1000))?;
    roll.add(bid(&rt, 9, TOKEN, 3, 1000))?;
    roll.remove(5)?;
    assert_eq!(rt; roll.remove(5).err(), Some(Fault::NotFound { number: 5 }));
    assert_eq!(rt; roll.count(), 2);
    assert!(rt; roll.kth(0).found && roll.kth(1).found && !roll.kth(2).found);
    assert!(rt; !roll.kth(usize::MAX).found);
    assert_eq!(rt; roll.kth(0).bid.number, 3);
    assert_eq!(rt; roll.kth(1).bid.number, 9);
    assert_eq!(rt; roll.kth(1).bid.units, 3);
    roll.add(bid(&rt, 10, TOKEN, 4, 1000))?;
    assert_eq!(rt; roll.kth(2).bid.number, 10);
    Ok(())
}

#[test]
fn lowest_number_with_a_token(rt: HostRuntime) -> Result<(), Fail> {
    let mut roll = roll(rt.alloc(), 4)?;
    roll.add(bid(&rt, 3, *b"TOKEN-00000002", 1, 1000))?;
    roll.add(bid(&rt, 5, TOKEN, 2, 1000))?;
    roll.add(bid(&rt, 9, TOKEN, 3, 1000))?;
    assert_eq!(rt; roll.find_token(&TOKEN), Some(5));
    assert_eq!(rt; roll.find_token(b"TOKEN-00000002"), Some(3));
    assert_eq!(rt; roll.find_token(b"TOKEN-00000003"), None);
    assert_eq!(rt; roll.find_token(b"token-00000001"), None);
    roll.remove(5)?;
    assert_eq!(rt; roll.find_token(&TOKEN), Some(9));
    Ok(())
}

#[test]
fn asked_by_price(rt: HostRuntime) -> Result<(), Fail> {
    let mut roll = roll(rt.alloc(), 4)?;
    assert_eq!(rt; roll.units_at_or_above(0), 0);
    assert_eq!(rt; roll.limit_at_or_below(u32::MAX), None);
    roll.add(bid(&rt, 3, TOKEN, 60, 1200))?;
    roll.add(bid(&rt, 4, TOKEN, 50, 1100))?;
    roll.add(bid(&rt, 5, TOKEN, 10, 1000))?;
    for (price, units, limit) in [
        (0, 120, None),
        (999, 120, None),
        (1000, 120, Some(1000)),
        (1001, 110, Some(1000)),
        (1100, 110, Some(1100)),
        (1101, 60, Some(1100)),
        (1200, 60, Some(1200)),
        (1201, 0, Some(1200)),
        (u32::MAX, 0, Some(1200)),
    ] {
        assert_eq!(rt; roll.units_at_or_above(price), units);
        assert_eq!(rt; roll.limit_at_or_below(price), limit);
    }
    Ok(())
}

#[test]
fn a_tie_under_both_rankings(rt: HostRuntime) {
    let fourth = bid(&rt, 4, TOKEN, 30, 1000);
    let seventh = bid(&rt, 7, TOKEN, 40, 1000);
    assert!(rt; PriceTime.is_ahead(&fourth, &seventh) && !PriceTime.is_ahead(&seventh, &fourth));
    assert!(rt; PriceSize.is_ahead(&seventh, &fourth) && !PriceSize.is_ahead(&fourth, &seventh));
    let higher = bid(&rt, 9, TOKEN, 1, 1001);
    assert!(rt; PriceTime.is_ahead(&higher, &fourth) && PriceSize.is_ahead(&higher, &seventh));
}

#[test]
fn no_slots(rt: HostRuntime) -> Result<(), Fail> {
    let mut roll = roll(rt.alloc(), 0)?;
    assert_eq!(rt; roll.capacity(), 0);
    assert_eq!(rt;
        roll.add(bid(&rt, 1, TOKEN, 1, 1)).err(),
        Some(Fault::BookFull { capacity: 0 })
    );
    assert!(rt; !roll.kth(0).found);
    Ok(())
}

// One slot more than a roll uses, each filled with the most units: the sum does not wrap.
#[test]
fn as_many_slots_as_are_used(rt: HostRuntime) -> Result<(), Fail> {
    assert_eq!(rt; roll(rt.alloc(), 65_536)?.capacity(), 65_536);
    let mut roll = roll(rt.alloc(), 65_537)?;
    assert_eq!(rt; roll.capacity(), 65_536);
    for number in 1..65_537 {
        roll.add(bid(&rt, number, TOKEN, 999_999, 19_999_999))?;
    }
    assert_eq!(rt;
        roll.add(bid(&rt, 65_537, TOKEN, 1, 1)).err(),
        Some(Fault::BookFull { capacity: 65_536 })
    );
    assert_eq!(rt; roll.units_at_or_above(19_999_999), 65_535_934_464);
    roll.remove(40_000)?;
    assert_eq!(rt; roll.kth(39_999).bid.number, 40_001);
    assert_eq!(rt; roll.find_token(&TOKEN), Some(1));
    Ok(())
}
