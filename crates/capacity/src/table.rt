// The full table: figures for every contract and every direction of a map, in 24 times 256 places.
// A fixed array, since a register takes no heap.
ghost use Rattle.std.specs.Prelude.{ℕ, slice_index_or};
ghost use Rattle.capacity.specs.Sides.{no_side, Small};

use crate::map::links::Links;
use crate::side::Side;

mod calls;

#[derive(Drop)]
pub struct FullTable {
    links: Links,
    sides: [Side; 6144],
    ghost small: { ((i : ℕ) → Small (slice_index_or sides i no_side)) },
}
