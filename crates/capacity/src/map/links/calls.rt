// Reading which areas are joined, and joining two.
ghost use Rattle.std.specs.Prelude.{◌≡◌, ◌+◌, ◌<◌, ◌≤◌, false, ◌||◌, ◌≢◌};
ghost use Rattle.capacity.specs.Directions.{is_way};
ghost use Rattle.capacity.specs.Network.{connectors};
ghost use Rattle.capacity.specs.Shapes.{joins_of};
ghost use Rattle.capacity.specs.Tables.{on};

use crate::direction::Direction;
use crate::limits::{LAST_AREA, LAST_CONTRACT};
use crate::map::links::Links;

impl Links {
    pub(crate) fn none() -> Links
        ensures { joins_of result ≡ (λ a b. false) }
    {
        Links {
            joined: [false; 256],
            count: 0,
        }
    }

    pub(crate) fn joins(&self, from: u32, to: u32) -> bool
        ensures { result ≡ joins_of self.now from to }
    {
        let low = from.min(to);
        let high = from.max(to);
        low < high && high <= LAST_AREA && self.joined[(16 * low + high) as usize]
    }

    // Whether the contract exists and a connector joins the areas.
    pub(crate) fn serves(&self, direction: Direction) -> bool
        ensures { result ≡ on (joins_of self.now) direction.contract direction.from direction.to }
    {
        direction.contract <= LAST_CONTRACT && self.joins(direction.from, direction.to)
    }

    pub(crate) fn count(&self) -> u32
        ensures value { result ≡ connectors (joins_of self.now) }
        ensures few { result ≤ 32 }
    {
        self.count
    }

    // Areas in range are asked by three calls, each after another test of its caller: a type for them would be made anew in each.
    pub(crate) fn join(&mut self, from: u32, to: u32)
        requires { (from ≤ 15) × ((to ≤ 15) × (((from ≢ to)) × ((joins_of self.old from to ≡ false) × (connectors (joins_of self.old) < 32)))) }
        ensures after { joins_of self.new ≡ (λ a b. (is_way from to a b || is_way to from a b) || joins_of self.old a b) }
        ensures count { connectors (joins_of self.new) ≡ connectors (joins_of self.old) + 1 }
    {
        let low = from.min(to);
        let high = from.max(to);
        self.joined[(16 * low + high) as usize] = true;
        self.count += 1;
    }
}
