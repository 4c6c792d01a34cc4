// Where the orders stand without which a round has no pair.
ghost use Rattle.std.specs.Prelude.{◌≡◌, length, Decides};
ghost use Rattle.book.specs.Places.{orders};
ghost use Rattle.matching.specs.Spans.{Covers, In, Spanned};

use crate::round::Round;
use book::places::Book;

// The places from `from` on and before `to`. A `Range` is not `Copy`, and this one stands in a struct that is.
#[derive(Clone, Copy)]
pub(crate) struct Span {
    pub(crate) from: usize,
    pub(crate) to: usize,
}

impl Span {
    // All places of the book.
    pub(crate) fn all(book: &Book) -> Span
        ensures { (result.from ≡ 0) × (result.to ≡ length (orders book.now)) }
    {
        Span {
            from: 0,
            to: book.len(),
        }
    }

    // From the first place of an order's number to its last: one place in a book that holds no number twice, and none where no order has it.
    fn of(book: &Book, number: u32) -> Span
        ensures { Covers number (orders book.now) (length (orders book.now)) result }
    {
        let n = book.len();
        let mut span = Span { from: n, to: 0 };
        for at in 0..n {
            if book.order(at).is_some_and(|order| order.number == number) {
                span = Span {
                    from: span.from.min(at),
                    to: at + 1,
                };
            }
        }
        span
    }

    // Whether a place is in it.
    pub(crate) fn holds(self, at: usize) -> bool
        ensures { Decides result (In self at) }
    {
        self.from <= at && at < self.to
    }
}

impl Round {
    // Where one of the two orders of each pair stands: the incoming order in a regular round, any in a batch.
    pub(crate) fn span(self, book: &Book) -> Span
        ensures { Spanned self (orders book.now) result }
    {
        match self {
            Round::Regular { incoming, .. } => Span::of(book, incoming),
            Round::Batch { .. } => Span::all(book),
        }
    }
}
