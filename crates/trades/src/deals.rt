// The next trade of a round.
ghost use Rattle.std.specs.Prelude.{◌≡◌, ℕ, ◌≤◌, min, MatchOption};
ghost use Rattle.book.specs.Places.{orders};
ghost use Rattle.routes.specs.Listed.{listed};
ghost use Rattle.matching.specs.Pairs.{InRound};
ghost use Rattle.flows.specs.Flows.{OpenIn};
ghost use Rattle.trades.specs.Deals.{traded_contract, price, Deals};

use crate::trade::{Deal, Trade};
use book::places::Book;
use book::rows::Order;
use capacity::register::Register;
use flows::{least_along, open_grid};
use matching::round::Round;
use matching::{Pair, choose};

fn contract_of(round: Round) -> u32
    ensures { result ≡ traded_contract round }
{
    match round {
        Round::Regular { contract, .. } => contract,
        Round::Batch { contract } => contract,
    }
}

// The other's limit in a regular round, the older one's in a batch.
fn price_of(round: Round, pair: Pair, buy: &Order, sell: &Order) -> i32
    ensures { result ≡ price round pair.buy pair.sell buy.now sell.now }
{
    let of_buy = match round {
        Round::Regular { incoming, .. } => buy.number != incoming,
        Round::Batch { .. } => pair.buy < pair.sell,
    };
    if of_buy { buy.limit } else { sell.limit }
}

// The trade that the round makes next, with its route; none where no pair of the round is left.
pub fn next_trade<R: Register>(book: &Book, register: &R, round: Round) -> Option<Deal>
    ensures { MatchOption result ((i j : ℕ) → InRound (OpenIn (R.Register.meaning register.now) (traded_contract round)) round (orders book.now) i j → ⊥) (λ d. Deals (R.Register.meaning register.now) (orders book.now) round d.trade (listed d.route)) }
{
    let contract = contract_of(round);
    let grid = open_grid(register, contract);
    let pair = choose(book, &grid, round)?;
    let buy = book.order(pair.buy)?;
    let sell = book.order(pair.sell)?;
    let route = grid.route(sell.area, buy.area)?;
    let most = buy.shown.min(sell.shown);
    let trade = Trade {
        contract,
        buy: buy.number,
        sell: sell.number,
        buyer: buy.area,
        seller: sell.area,
        price: price_of(round, pair, &buy, &sell),
        quantity: least_along(register, contract, &route, most),
        areas: route.areas().len(),
    };
    Some(Deal { trade, route })
}
