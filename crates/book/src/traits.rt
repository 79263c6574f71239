// What a book is. Contracts speak of its meaning alone, so that code above it is proved once for every book.
ghost use Rattle.std.specs.Prelude.{◌≡◌, ℕ, List, length};
ghost use Rattle.std.specs.List.{slice_get};
ghost use Rattle.book.specs.declared.bid.Bid.{Bid};
ghost use Rattle.book.specs.Bids.{bid_of};
ghost use Rattle.book.specs.Books.{Sound, add_answer, after_add, remove_answer, after_remove, number_with, units_from, limit_to};

use crate::bid::{Bid, Found};
use fault::Fault;

// A book means its live bids in order of number, a capacity and a top; the last two never change. A refusal and a question
// change nothing.
pub trait Book {
    // The live bids, in order of number.
    ghost bids: { Self → List Bid };

    // How many bids it holds at the most.
    ghost capacity: { Self → ℕ };

    // The highest limit that it takes.
    ghost top: { Self → ℕ };

    // Numbers ascend strictly, limits are within the top, the count is within the capacity, and the top is a price or 0.
    ghost sound: { (s : Self) → Sound (bids s) (capacity s) (top s) };

    // Puts a bid last. Refused, in this order: 16 with the top, where its limit is above it; 18 with the last number, where its
    // number is not above every live number; 17 with the capacity, exactly where the count equals it.
    fn add(&mut self, bid: Bid) -> Result<(), Fault>
        ensures answer { result ≡ add_answer (bids self.old) (capacity self.old) (top self.old) bid }
        ensures after { bids self.new ≡ after_add (bids self.old) bid result }
        ensures capacity { capacity self.new ≡ capacity self.old }
        ensures top { top self.new ≡ top self.old };

    // Takes out the bid with that number. Refused by 19 with the number where there is none.
    fn remove(&mut self, number: u64) -> Result<(), Fault>
        ensures answer { result ≡ remove_answer (bids self.old) number }
        ensures after { bids self.new ≡ after_remove (bids self.old) number result }
        ensures capacity { capacity self.new ≡ capacity self.old }
        ensures top { top self.new ≡ top self.old };

    fn count(&self) -> usize
        ensures { result ≡ length (bids self.now) };

    fn capacity(&self) -> usize
        ensures { result ≡ capacity self.now };

    fn top(&self) -> u32
        ensures { result ≡ top self.now };

    // The k-th live bid, k from 0, or none.
    fn kth(&self, k: usize) -> Found
        ensures { bid_of result ≡ slice_get (bids self.now) k };

    // The lowest number of a live bid with that token, or none.
    fn find_token(&self, token: &[u8; 14]) -> Option<u64>
        ensures { result ≡ number_with token.now (bids self.now) };
}

// A book that also answers by price, for every price.
pub trait PricedBook: Book {
    // The units of all live bids with a limit at or above the price.
    fn units_at_or_above(&self, price: u32) -> u64
        ensures { result ≡ units_from price (Self.Book.bids self.now) };

    // The highest limit of a live bid at or below the price, or none.
    fn limit_at_or_below(&self, price: u32) -> Option<u32>
        ensures { result ≡ limit_to price (Self.Book.bids self.now) };
}
