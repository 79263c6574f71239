// What code that knows only the traits may use of every book.
ghost use Rattle.book.specs.Books.{Sound};
ghost use Rattle.book.specs.Laws.{Answers};

use crate::traits::Book;

// Every book is sound at all times, and its answers mean what they say of its live bids. It does nothing; a call of it
// brings these facts into a proof.
pub fn recall_laws<B: Book>(book: &B)
    ensures sound { Sound (B.Book.bids book.now) (B.Book.capacity book.now) (B.Book.top book.now) }
    ensures answers { Answers (B.Book.bids book.now) }
{}
