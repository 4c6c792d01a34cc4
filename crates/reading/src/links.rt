// The M lines: a connector of the map, with what is held back on it.
ghost use Rattle.reading.specs.Reading.{ahead};
ghost use Rattle.reading.specs.Fields.{InLine, ReadTo};
ghost use Rattle.reading.specs.Making.{MakesOfCounts, link_fields, link};

use crate::faults::WordFault;
use crate::fields::{COUNT, POWER};
use crate::reader::Reader;

#[derive(Clone, Copy)]
pub struct Link {
    pub from: u32,
    pub to: u32,
    pub held: u32,
    pub held_back: u32,
}

impl<'a> Reader<'a> {
    // The words that are left of the line as a connector.
    pub fn link(&mut self) -> Result<Link, WordFault>
        ensures link { MakesOfCounts self.old.words link_fields link (ahead self.old) result }
        ensures reads { ReadTo 4 self.old result self.new }
        ensures stays { InLine self.old self.new }
    {
        let counts = self.counts([COUNT, COUNT, POWER, POWER])?;
        let [from, to, held, held_back] = counts;
        Ok(Link {
            from,
            to,
            held,
            held_back,
        })
    }
}
