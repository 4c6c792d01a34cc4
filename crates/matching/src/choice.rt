// The pair that a round trades.
ghost use Rattle.std.specs.Prelude.{◌≡◌, ℕ, ◌≤◌, length, MatchOption};
ghost use Rattle.book.specs.Places.{orders};
ghost use Rattle.routes.specs.Grids.{Leads};
ghost use Rattle.matching.specs.Pairs.{InRound, Chosen};
ghost use Rattle.matching.specs.Bests.{Best, Higher, OneSide, Paired, Pairs, Passes, Ready};
ghost use Rattle.matching.specs.Spans.{In};

use crate::pairs::Pairing;
use crate::round::Round;
use crate::spans::Span;
use crate::ways::Ways;
use book::places::Book;
use routes::Grid;

// A buy and a sell, by their places in the book.
#[derive(Clone, Copy, PartialEq, Eq)]
pub struct Pair {
    pub buy: usize,
    pub sell: usize,
}

// Which of the best place so far and the next one ranks above the other.
fn higher(book: &Book, best: Option<usize>, next: usize) -> usize
    ensures { Higher (orders book.now) best next result }
{
    match best {
        Some(at) if !book.better(next, at) => at,
        _ => next,
    }
}

// The highest-ranked of the places of a span that pass a test, all of which hold one side.
// A `for`: tried with `filter` and `reduce`, whose closures prove, and the proof of what they find did not close.
fn best<F: Fn(usize) -> bool>(book: &Book, span: Span, test: F) -> Option<usize>
    requires callable { F.IsAlwaysCallable test }
    requires one_side { OneSide (F.post test) (orders book.now) }
    requires room { span.to ≤ length (orders book.now) }
    ensures { Passes (F.post test) (orders book.now) span.from span.to result }
{
    let mut best = None;
    for at in span.from..span.to {
        if test(at) {
            best = Some(higher(book, best, at));
        }
    }
    best
}

impl Pairing<'_> {
    // Where the sells of pairs with the buy at `i` stand: anywhere if the buy is in the round's span, and else in that span.
    fn sells(&self, i: usize) -> Span
        requires { Ready self.now }
        ensures room { result.to ≤ length (orders self.now.book.now) }
        ensures whole { (j : ℕ) → Pairs self.now i j → In result j }
    {
        if self.span.holds(i) {
            Span::all(self.book)
        } else {
            self.span
        }
    }

    // The highest-ranked sell in a pair of the round with the buy at `i`, which is read once for all of them.
    fn best_sell(&self, i: usize) -> Option<usize>
        requires { Ready self.now }
        ensures { Best (Pairs self.now i) (orders self.now.book.now) result }
    {
        let buy = self.buy_at(i)?;
        best(self.book, self.sells(i), |j| self.pairs(&buy, j))
    }

    // The highest-ranked buy in any pair of the round.
    fn best_buy(&self) -> Option<usize>
        requires { Ready self.now }
        ensures { Best (Paired self.now) (orders self.now.book.now) result }
    {
        let all = Span::all(self.book);
        best(self.book, all, |i| self.best_sell(i).is_some())
    }
}

// The pair that the round trades: the highest-ranked buy in any pair of it, and the highest-ranked sell with that buy.
// A regular round finds the incoming order's place, tries each place with it and it with each place, and goes through the sells for the buy found:
// at most four times over the book's 128 places, where no number stands twice.
// A batch tries each buy with each place, at most 128 × 128 pairs, and goes through the sells for the buy found once more.
pub fn choose(book: &Book, grid: &Grid, round: Round) -> Option<Pair>
    ensures chosen { MatchOption result ((i j : ℕ) → InRound (Leads grid.now) round (orders book.now) i j → ⊥) (λ p. Chosen (Leads grid.now) round (orders book.now) p.buy p.sell) }
    ensures only { (i j : ℕ) → Chosen (Leads grid.now) round (orders book.now) i j → MatchOption result ⊥ (λ p. (p.buy ≡ i) × (p.sell ≡ j)) }
{
    let pairing = Pairing {
        book,
        ways: Ways::of(grid),
        round,
        span: round.span(book),
    };
    let buy = pairing.best_buy()?;
    let sell = pairing.best_sell(buy)?;
    Some(Pair { buy, sell })
}
