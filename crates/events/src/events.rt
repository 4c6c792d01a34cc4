// What happens on a session: each call with its answer, and each step of a round with its own.
ghost use Rattle.std.specs.Prelude.{◌≡◌};
ghost use Rattle.events.specs.Events.{in_places};

use crate::calls::Call;
use routes::ROUTE_PLACES;
use session::faults::SessionFault;
use trades::Trade;

// How a call was answered: why it was refused, or, of a closing, how many orders went.
pub type Answer = Result<Option<usize>, SessionFault>;

// A trade of a step; the areas of its route are the first of the places. They are the places that the step was lent, so fixed, and
// the trade says how many areas there are: an event is Copy and asks for no memory.
#[derive(Clone, Copy)]
pub struct Traded {
    pub trade: Trade,
    pub route: [u32; ROUTE_PLACES],
}

impl Traded {
    // A trade along these areas, nought in the places past them. Tried as `array::from_fn`: it took a lemma and an answer, and this none.
    pub fn new(trade: &Trade, route: &[u32]) -> Traded
        ensures { result ≡ in_places (record { trade = trade.now; route = route.now }) }
    {
        let mut places = [0; ROUTE_PLACES];
        let n = route.len().min(ROUTE_PLACES);
        places[..n].copy_from_slice(&route[..n]);
        Traded {
            trade: *trade,
            route: places,
        }
    }
}

// How a step was answered: why it was refused, the trade that it made, or none as the round is done.
pub type StepAnswer = Result<Option<Traded>, SessionFault>;

// A call, or a step over so many places, made with a pass of some number.
#[derive(Clone, Copy)]
pub enum Event {
    Called {
        pass: u32,
        call: Call,
        answer: Answer,
    },
    Stepped {
        pass: u32,
        places: usize,
        answer: StepAnswer,
    },
}
