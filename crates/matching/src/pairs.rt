// Whether two orders may trade with each other in a round.
ghost use Rattle.std.specs.Prelude.{◌≡◌, ℕ, Decides, MatchOption, Some};
ghost use Rattle.book.specs.Places.{orders, nth};
ghost use Rattle.matching.specs.Orders.{Meeting, Concerns, Trading};
ghost use Rattle.matching.specs.Bests.{Pairs};
ghost use Rattle.matching.specs.Ways.{Leading};

use crate::round::Round;
use crate::spans::Span;
use crate::ways::Ways;
use book::places::Book;
use book::rows::{Order, Side};

// A round over a book, with the ways between the areas and the span of the round.
#[derive(Clone, Copy)]
pub(crate) struct Pairing<'b> {
    pub(crate) book: &'b Book,
    pub(crate) ways: Ways,
    pub(crate) round: Round,
    pub(crate) span: Span,
}

// Whether they are a buy and a sell of one contract whose limits meet.
// Two references: a struct of a buy and a sell would be made for one test of a pair and no more.
fn meeting(buy: &Order, sell: &Order) -> bool
    ensures { Decides result (Meeting buy.now sell.now) }
{
    buy.side == Side::Buy
        && sell.side == Side::Sell
        && buy.contract == sell.contract
        && sell.limit <= buy.limit
}

impl Round {
    // Whether the round may trade two orders of one contract.
    fn concerns(self, buy: &Order, sell: &Order) -> bool
        ensures { Decides result (Concerns self buy.now sell.now) }
    {
        match self {
            Round::Regular { contract, incoming } => {
                buy.contract == contract && (buy.number == incoming || sell.number == incoming)
            }
            Round::Batch { contract } => buy.contract == contract,
        }
    }
}

impl Pairing<'_> {
    // Whether two orders may trade with each other in the round.
    fn trading(&self, buy: &Order, sell: &Order) -> bool
        ensures { Decides result (Trading (Leading self.now.ways.to) self.now.round buy.now sell.now) }
    {
        meeting(buy, sell) && self.round.concerns(buy, sell) && self.ways.leads(sell.area, buy.area)
    }

    // The order at `i`, if it is a buy.
    pub(crate) fn buy_at(&self, i: usize) -> Option<Order>
        ensures { MatchOption result ((j : ℕ) → Pairs self.now i j → ⊥)
            (λ buy. nth (orders self.now.book.now) i ≡ Some buy) }
    {
        self.book.order(i).filter(|order| order.side == Side::Buy)
    }

    // Whether a buy and the order at `j` are a pair of the round, wherever the buy stands.
    pub(crate) fn pairs(&self, buy: &Order, j: usize) -> bool
        ensures { (i : ℕ) → nth (orders self.now.book.now) i ≡ Some buy.now → Decides result (Pairs self.now i j) }
    {
        match self.book.order(j) {
            Some(sell) => self.trading(buy, &sell),
            None => false,
        }
    }
}
