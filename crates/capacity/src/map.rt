// The map of connectors, with what is kept back on each: made once, before any register.
ghost use Rattle.std.specs.Prelude.{◌≡◌, ◌+◌, ◌≤◌};
ghost use Rattle.capacity.specs.Tests.{answered, resulting, said};
ghost use Rattle.capacity.specs.Faults.{map_told};
ghost use Rattle.capacity.specs.Meaning.{reserved};
ghost use Rattle.capacity.specs.Network.{no_network, connectors, connect_tests, connected};
ghost use Rattle.capacity.specs.Tables.{on, fresh};
ghost use Rattle.capacity.specs.Shapes.{joins_of, kept_of, network_of, table_of, layered};

use crate::direction::Direction;
use crate::faults::MapFault;
use crate::limits::{LAST_AREA, MOST_CONNECTORS, TOP_FIGURE};
use crate::map::links::Links;
use crate::map::wishes::Wishes;
use crate::reserve::Reserve;
use crate::table::FullTable;

pub(crate) mod links;
pub(crate) mod wishes;

#[derive(Drop)]
pub struct ConnectorMap {
    links: Links,
    wishes: Wishes,
}

impl ConnectorMap {
    // No area is joined to another.
    pub fn new() -> ConnectorMap
        ensures { network_of result ≡ no_network }
    {
        ConnectorMap {
            links: Links::none(),
            wishes: Wishes::none(),
        }
    }

    // Joins two areas and keeps back `held` in the direction given, `held_back` in the other.
    // Areas with no contract are asked for by maps and grids: a struct for two numbers is no plainer.
    pub fn connect(&mut self, from: u32, to: u32, held: u32, held_back: u32) -> Result<(), MapFault>
        ensures answer { said map_told result ≡ answered (connect_tests (network_of self.old) from to held held_back) }
        ensures after { network_of self.new ≡ resulting (connect_tests (network_of self.old) from to held held_back) (network_of self.old) (connected (network_of self.old) from to held held_back) }
        ensures count { connectors (network_of self.new).joins ≡ resulting (connect_tests (network_of self.old) from to held held_back) (connectors (network_of self.old).joins) (connectors (network_of self.old).joins + 1) }
    {
        if held > TOP_FIGURE || held_back > TOP_FIGURE {
            return Err(MapFault::Kept { from, to });
        }
        if from > LAST_AREA || to > LAST_AREA || from == to {
            return Err(MapFault::Connector { from, to });
        }
        if self.joins(from, to) || self.count() >= MOST_CONNECTORS {
            return Err(MapFault::Connector { from, to });
        }
        self.links.join(from, to);
        self.wishes.keep(to, from, held_back);
        self.wishes.keep(from, to, held);
        Ok(())
    }

    // Whether a connector joins the two areas.
    pub fn joins(&self, from: u32, to: u32) -> bool
        ensures { result ≡ (network_of self.now).joins from to }
    {
        self.links.joins(from, to)
    }

    // Whether the contract exists and a connector joins the areas.
    pub fn serves(&self, direction: Direction) -> bool
        ensures { result ≡ on (network_of self.now).joins direction.contract direction.from direction.to }
    {
        self.links.serves(direction)
    }

    // How many connectors there are, never above 32.
    pub fn count(&self) -> u32
        ensures value { result ≡ connectors (network_of self.now).joins }
        ensures few { result ≤ 32 }
    {
        self.links.count()
    }

    pub(crate) fn links(&self) -> Links
        ensures { joins_of result ≡ (network_of self.now).joins }
    {
        self.links
    }

    pub(crate) fn wishes(&self) -> Wishes
        ensures { kept_of result ≡ (network_of self.now).kept }
    {
        self.wishes
    }

    // A layer that keeps back what the map says, over a full table with all at nought.
    pub fn into_register(self) -> Reserve<FullTable>
        ensures { layered table_of result ≡ reserved (fresh (network_of self).joins) (network_of self).kept }
    {
        Reserve::new(FullTable::new(&self), &self)
    }
}
