// Which of two bids is ahead.
ghost use Rattle.std.specs.Prelude.{◌≡◌, ◌<◌, Bool, true, not, ◌≢◌};
ghost use Rattle.book.specs.declared.bid.Bid.{Bid};
ghost use Rattle.book.specs.Rankings.{price_time, price_size};
ghost use Rattle.std.proofs.Common.{rules};

use crate::bid::Bid;

// A total order on bids with different numbers, by limit first. Of a bid and itself, or of two bids with one number, it may
// say anything.
pub trait Ranking {
    ghost ahead: { Self → Bid → Bid → Bool };

    fn is_ahead(&self, a: &Bid, b: &Bid) -> bool
        ensures { result ≡ ahead self.now a.now b.now };

    // Of two bids exactly one is ahead.
    ghost one: { (s : Self) (a b : Bid) → (a.number ≢ b.number) → ahead s b a ≡ not (ahead s a b) };

    // A bid ahead of one that is ahead of a third is ahead of the third.
    ghost chain: { (s : Self) (a b c : Bid) → (a.number ≢ b.number) → (b.number ≢ c.number) → (a.number ≢ c.number) → ahead s a b ≡ true → ahead s b c ≡ true → ahead s a c ≡ true };

    // The higher limit is ahead.
    ghost higher: { (s : Self) (a b : Bid) → (a.number ≢ b.number) → b.limit < a.limit → ahead s a b ≡ true };
}

// The higher limit first; at equal limits the lower number.
#[derive(Clone, Copy)]
pub struct PriceTime;

impl Ranking for PriceTime {
    ghost ahead = { λ _ a b. price_time a b };

    ghost one = { Prim.search rules };

    ghost chain = { Prim.search rules };

    ghost higher = { Prim.search rules };

    fn is_ahead(&self, a: &Bid, b: &Bid) -> bool {
        b.limit.cmp(&a.limit).then(a.number.cmp(&b.number)).is_lt()
    }
}

// The higher limit first; at equal limits more units; at equal units the lower number.
#[derive(Clone, Copy)]
pub struct PriceSize;

impl Ranking for PriceSize {
    ghost ahead = { λ _ a b. price_size a b };

    ghost one = { Prim.search rules };

    ghost chain = { Prim.search rules };

    ghost higher = { Prim.search rules };

    fn is_ahead(&self, a: &Bid, b: &Bid) -> bool {
        b.limit
            .cmp(&a.limit)
            .then(b.units.cmp(&a.units))
            .then(a.number.cmp(&b.number))
            .is_lt()
    }
}
