// A session: a register of capacity, a book of orders, and what is going on.
ghost use Rattle.book.specs.Places.{orders};
ghost use Rattle.book.specs.Orderly.{Orderly};

use book::places::Book;
use matching::round::Round;

#[derive(Drop)]
pub struct Session<R> {
    pub(crate) number: u32,
    // the round under way, none while quiet
    pub(crate) round: Option<Round>,
    pub(crate) closed: [bool; 24],
    pub(crate) book: Book,
    pub(crate) register: R,
    // every order lasts through all its slices, and no number stands twice
    ghost orderly: { ∥ Orderly (orders book) ∥₁ },
}
