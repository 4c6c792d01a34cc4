// A cell: one pair of contract and connector, with both its directions.
use capacity::direction::Direction;
use capacity::pair::Pair;

mod calls;

#[derive(Clone, Copy)]
pub struct Cell {
    pub direction: Direction,
    pub pair: Pair,
}
