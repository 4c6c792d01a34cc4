// The reserve layer: a register that keeps more back than the one below it, and is as that one in all else.
ghost use Rattle.std.specs.Prelude.{◌≡◌, ◌+◌, min};
ghost use Rattle.capacity.specs.Meaning.{reserved};
ghost use Rattle.capacity.specs.Shapes.{network_of, kept_of, layered};
ghost use Rattle.capacity.specs.Soundness.{layered_sound};
ghost use Rattle.capacity.specs.Memory.{BelowLeaves, below_chains};

use crate::checks::check_take;
use crate::direction::Direction;
use crate::faults::RegisterFault;
use crate::figures::Figures;
use crate::limits::TOP_FIGURE;
use crate::map::ConnectorMap;
use crate::map::wishes::Wishes;
use crate::register::Register;

#[derive(Drop)]
pub struct Reserve<R> {
    below: R,
    wishes: Wishes,
}

impl<R: Register> Reserve<R> {
    // Keeps back what the map says, alike in all contracts.
    pub fn new(below: R, map: &ConnectorMap) -> Reserve<R>
        ensures keeps { layered R.Register.meaning result ≡ reserved (R.Register.meaning below) (network_of map.now).kept }
        ensures stands { result.below ≡ below }
        ensures kept { kept_of result.wishes ≡ (network_of map.now).kept }
    {
        Reserve {
            below,
            wishes: map.wishes(),
        }
    }

    // Lends the register below, for reading.
    pub fn below(&self) -> &R
        ensures { result.now ≡ self.now.below }
    {
        &self.below
    }

    // Ends the layer, and gives the register below back.
    pub fn into_below(self) -> R
        ensures { result ≡ self.below }
    {
        let Reserve { below, wishes: _ } = self;
        below
    }
}

impl<R> Reserve<R> {
    // What is held where the register below holds `held`.
    fn raised(&self, held: u32, direction: Direction) -> u32
        ensures { result ≡ min (held + kept_of self.now.wishes direction.from direction.to) 99999 }
    {
        held.saturating_add(self.wishes.kept(direction.from, direction.to))
            .min(TOP_FIGURE)
    }
}

impl<R: Register> Register for Reserve<R> {
    ghost meaning = { layered R.Register.meaning };

    ghost sound = { layered_sound R.Register.meaning R.Register.sound };

    ghost leaves = { BelowLeaves R.Register.leaves };

    ghost chains = { below_chains R.Register.leaves R.Register.chains };

    fn atc(&self, direction: Direction) -> Option<i32> {
        let atc = self.below.atc(direction)?;
        let held = self.below.held(direction)?;
        let more = self.raised(held, direction) - held;
        // `as`, since `more` is at most 99,999: `try_from` would add a refusal that cannot be.
        Some(atc - more as i32)
    }

    fn held(&self, direction: Direction) -> Option<u32> {
        let held = self.below.held(direction)?;
        Some(self.raised(held, direction))
    }

    fn take(&mut self, direction: Direction, quantity: u32) -> Result<(), RegisterFault> {
        let flow = self.atc(direction);
        check_take(direction, quantity, flow)?;
        self.below.take(direction, quantity)
    }

    fn notice(&mut self, direction: Direction, figures: Figures) -> Result<(), RegisterFault> {
        self.below.notice(direction, figures)
    }
}
