// Bids, rankings, what a book means, and the roll, a book that keeps its bids in a run of slots.
#![tactic(auto)]

pub mod bid;
pub mod laws;
pub mod ranking;
pub mod roll;
pub mod traits;
