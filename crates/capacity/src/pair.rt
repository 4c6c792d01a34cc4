// Both directions of a connector in one contract.
ghost use Rattle.capacity.specs.Sides.{Small};

use crate::side::Side;

mod calls;

#[derive(Clone, Copy)]
pub struct Pair {
    pub there: Side,
    pub back: Side,
    pub ghost small_there: { Small there },
    pub ghost small_back: { Small back },
}
