// A bid, the record by which a bid or none is answered, and slots to keep bids in.
ghost use Rattle.std.specs.Prelude.{◌≡◌, ◌≤◌, IfOk, vec_len};

use std::alloc::{AllocError, Global};

// The most units of a bid.
pub const MAX_UNITS: u32 = 999_999;

// The highest price, in cents.
pub const MAX_PRICE: u32 = 19_999_999;

// An order to buy. No bid has units or a limit out of range: the type says so.
#[derive(Clone, Copy, Debug, PartialEq, Eq)]
pub struct Bid {
    // the number of the message that entered it
    pub number: u64,
    // names the order
    pub token: [u8; 14],
    // names the broker
    pub firm: [u8; 4],
    pub units: u32,
    // the highest price at which it buys, in cents
    pub limit: u32,
    ghost fit: { (1 ≤ units) × (units ≤ 999999) × (1 ≤ limit) × (limit ≤ 19999999) },
}

impl Bid {
    ghost use Rattle.book.specs.Bids.{fields_in, bid_of, bid_with};

    // The bid of these fields, or none where its units or its limit are out of range.
    pub fn new(number: u64, token: [u8; 14], firm: [u8; 4], units: u32, limit: u32) -> Found
        ensures { fields_in (bid_of result) ≡ bid_with number token firm units limit }
    {
        if units < 1 || units > MAX_UNITS || limit < 1 || limit > MAX_PRICE {
            return Found::none();
        }
        Found::some(Bid {
            number,
            token,
            firm,
            units,
            limit,
        })
    }
}

// A bid, or none where the flag is down; what `bid` then holds is free, so there is no `==`. A record and not an
// `Option<Bid>`: a rule of the project.
#[derive(Clone, Copy, Debug)]
pub struct Found {
    pub found: bool,
    pub bid: Bid,
}

impl Found {
    ghost use Rattle.book.specs.Bids.{bid_of};

    pub fn some(bid: Bid) -> Found
        ensures { bid_of result ≡ Some bid }
    {
        Found { found: true, bid }
    }

    pub fn none() -> Found
        ensures { bid_of result ≡ None }
    {
        Found {
            found: false,
            bid: blank(),
        }
    }
}

// An option as the record that answers it.
impl From<Option<Bid>> for Found {
    ghost use Rattle.book.specs.Bids.{bid_of};

    ghost from_gives = { λ bid found. bid_of found ≡ bid };

    fn from(bid: Option<Bid>) -> Found {
        match bid {
            Some(bid) => Found::some(bid),
            None => Found::none(),
        }
    }
}

// What stands where no bid does.
fn blank() -> Bid {
    Bid {
        number: 0,
        token: [0; 14],
        firm: [0; 4],
        units: 1,
        limit: 1,
    }
}

// A run of so many slots for a book to keep its bids in.
pub fn slots(heap: Global, count: usize) -> Result<Vec<Bid>, AllocError>
    ensures { IfOk result (λ v. vec_len v ≡ count) }
{
    vec![in heap; blank(); count]
}
