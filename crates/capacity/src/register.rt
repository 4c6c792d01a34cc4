// What every capacity register owes, whatever its shape: its meaning, that this is sound, and four calls.
ghost use Rattle.std.specs.Prelude.{◌≡◌};
ghost use Rattle.capacity.specs.Tests.{answered, resulting, said};
ghost use Rattle.capacity.specs.Faults.{told};
ghost use Rattle.capacity.specs.Meaning.{Capacity, atc, taken, noticed, Sound};
ghost use Rattle.capacity.specs.Answers.{asked, take_tests, notice_tests};
ghost use Rattle.capacity.specs.Memory.{Chains};

use crate::direction::Direction;
use crate::faults::RegisterFault;
use crate::figures::Figures;

pub trait Register {
    ghost meaning: { Self → Capacity };

    ghost sound: { (r : Self) → Sound (meaning r) };

    // What calls leave of the memory that it stands in, from the one value to the other.
    ghost leaves: { Self → Self → Type 0 };

    // That this holds of no call at all, and of one after another.
    ghost chains: { Chains leaves };

    // What can still flow; none if the contract is above 23 or no connector joins the areas.
    fn atc(&self, direction: Direction) -> Option<i32>
        ensures { result ≡ asked (meaning self.now) direction.contract direction.from direction.to (atc (meaning self.now) direction.contract direction.from direction.to) };

    // What is held back; none in the same cases.
    fn held(&self, direction: Direction) -> Option<u32>
        ensures { result ≡ asked (meaning self.now) direction.contract direction.from direction.to ((meaning self.now).held direction.contract direction.from direction.to) };

    // Raises the net use in one direction.
    fn take(&mut self, direction: Direction, quantity: u32) -> Result<(), RegisterFault>
        ensures answer { said told result ≡ answered (take_tests (meaning self.old) direction.contract direction.from direction.to quantity) }
        ensures after { meaning self.new ≡ resulting (take_tests (meaning self.old) direction.contract direction.from direction.to quantity) (meaning self.old) (taken (meaning self.old) direction.contract direction.from direction.to quantity) }
        ensures memory { leaves self.old self.new };

    // Replaces the four figures of one connector in one contract, and notes the pair.
    fn notice(&mut self, direction: Direction, figures: Figures) -> Result<(), RegisterFault>
        ensures answer { said told result ≡ answered (notice_tests (meaning self.old) direction.contract direction.from direction.to figures) }
        ensures after { meaning self.new ≡ resulting (notice_tests (meaning self.old) direction.contract direction.from direction.to figures) (meaning self.old) (noticed (meaning self.old) direction.contract direction.from direction.to figures) }
        ensures memory { leaves self.old self.new };
}
