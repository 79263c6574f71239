// A book that keeps its bids in a run of slots.
ghost use Rattle.std.specs.Prelude.{◌≡◌, ◌<◌, ◌≤◌, min, false, not, [], ◌∷◌, length, slice_index_or, vec_len, vec_capacity, MatchOption};
ghost use Rattle.std.specs.List.{HoldsAt};
ghost use Rattle.std.specs.Str.{bytes_eq};
ghost use Rattle.std.proofs.Common.{lit≤};
ghost use Rattle.fault.specs.declared.Fault.TheVariants.{NotAboveLast};
ghost use Rattle.fault.specs.Checks.{checked};
ghost use Rattle.book.specs.Books.{Ascend, has_number, above_all, last_number, add_answer};

use crate::bid::{Bid, Found, MAX_PRICE};
use crate::traits::{Book, PricedBook};
use fault::Fault;

// A roll uses no more slots than these, so the units of all its bids add up in 64 bits.
pub const MAX_SLOTS: usize = 65_536;

// The live bids, in order of number, in memory that was handed in: there is always a slot for each bid up to the capacity.
// The capacity is a limit and no length: fewer slots than the memory has, where more than 65,536 were handed in.
#[derive(Drop)]
pub struct Roll {
    bids: Vec<Bid>,
    capacity: usize,
    ghost reserved: { capacity ≤ vec_capacity bids },
    ghost few: { capacity ≤ 65536 },
    ghost ascend: { Ascend bids.items },
    ghost count: { length bids.items ≤ capacity },
}

impl Roll {
    ghost use Rattle.book.specs.Rolls.{bids_in, capacity_in};

    // An empty roll over the slots, whatever they held.
    pub fn new(mut slots: Vec<Bid>) -> Roll
        ensures empty { bids_in result ≡ [] }
        ensures capacity { capacity_in result ≡ min (vec_len slots) 65536 }
    {
        let capacity = slots.len().min(MAX_SLOTS);
        slots.clear();
        Roll {
            bids: slots,
            capacity,
        }
    }

    // Whether a number is above every live bid's: above the last one's, where there is one.
    fn check_number(&self, number: u64) -> Result<(), Fault>
        ensures { result ≡ checked ((not (above_all number self.now.bids.items), NotAboveLast (last_number self.now.bids.items)) ∷ []) tt }
    {
        match self.bids.last() {
            Some(last) if number <= last.number => {
                Err(Fault::NotAboveLast { last: last.number })
            }
            _ => Ok(()),
        }
    }

    // Whether a bid may be added under a top.
    fn check_add(&self, top: u32, bid: &Bid) -> Result<(), Fault>
        ensures { result ≡ add_answer self.now.bids.items self.now.capacity top bid.now }
    {
        if top < bid.limit {
            return Err(Fault::AboveTop { top });
        }
        self.check_number(bid.number)?;
        let count = self.count();
        if self.capacity <= count {
            return Err(Fault::BookFull {
                capacity: self.capacity,
            });
        }
        Ok(())
    }

    // The place of the bid with a number.
    fn place(&self, number: u64) -> Option<usize>
        ensures { MatchOption result (has_number number self.now.bids.items ≡ false)
            (λ k. (k < length self.now.bids.items) × HoldsAt (λ b. b.number ≡ number) self.now.bids.items k) }
    {
        self.bids
            .binary_search_by(|bid| bid.number.cmp(&number))
            .ok()
    }
}

impl Book for Roll {
    ghost bids = { λ s. s.bids.items };

    ghost capacity = { λ s. s.capacity };

    ghost top = { λ _. 19999999 };

    // No bid has a limit above the highest price.
    ghost sound = { λ s. record { ascend = s.ascend; limits = λ k d _. (slice_index_or s.bids.items k d).fit.3; count = s.count; highest = lit≤ tt } };

    fn add(&mut self, bid: Bid) -> Result<(), Fault> {
        self.check_add(self.top(), &bid)?;
        self.bids.push_reserved(bid);
        Ok(())
    }

    fn remove(&mut self, number: u64) -> Result<(), Fault> {
        let at = self.place(number).ok_or(Fault::NotFound { number })?;
        self.bids.remove(at);
        Ok(())
    }

    fn count(&self) -> usize {
        self.bids.len()
    }

    fn capacity(&self) -> usize {
        self.capacity
    }

    fn top(&self) -> u32 {
        MAX_PRICE
    }

    fn kth(&self, k: usize) -> Found {
        Found::from(self.bids.get(k).copied())
    }

    fn find_token(&self, token: &[u8; 14]) -> Option<u64> {
        self.bids
            .iter()
            .find(|bid| same_token(&bid.token, token))
            .map(|bid| bid.number)
    }
}

impl PricedBook for Roll {
    fn units_at_or_above(&self, price: u32) -> u64 {
        self.bids.iter().fold(0, |units, bid| {
            if bid.limit >= price {
                units + u64::from(bid.units)
            } else {
                units
            }
        })
    }

    fn limit_at_or_below(&self, price: u32) -> Option<u32> {
        self.bids
            .iter()
            .filter(|bid| bid.limit <= price)
            .map(|bid| bid.limit)
            .max()
    }
}

// Whether two tokens are the same. Written out byte by byte: a rule of the project. All 14 are compared, with no branch at
// each, so that a long prefix in common costs no more.
fn same_token(a: &[u8; 14], b: &[u8; 14]) -> bool
    ensures { result ≡ bytes_eq a.now b.now }
{
    a.iter().zip(b).fold(true, |same, (x, y)| same & (x == y))
}
