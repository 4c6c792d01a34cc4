// What can flow in a pair, and what a take and a notice make of it.
ghost use Rattle.std.specs.Prelude.{◌≡◌, cond, pos, ◌-ℤ◌};
ghost use Rattle.capacity.specs.Sides.{no_side};
ghost use Rattle.capacity.specs.Pairs.{flow, there_after, back_after, figured};
ghost use Rattle.capacity.specs.Answers.{large};

use crate::figures::Figures;
use crate::pair::Pair;
use crate::side::Side;

impl Pair {
    // Nothing can flow and nothing was taken.
    pub fn none() -> Pair
        ensures { (result.there ≡ no_side) × (result.back ≡ no_side) }
    {
        Pair {
            there: Side::NONE,
            back: Side::NONE,
        }
    }

    // The same pair, seen from the other area.
    pub fn turned(self) -> Pair
        ensures { (result.there ≡ self.back) × (result.back ≡ self.there) }
    {
        Pair {
            there: self.back,
            back: self.there,
        }
    }

    // What was taken there beyond what was taken back, below nought where more was taken back.
    fn net(self) -> i64
        ensures { result ≡ pos self.there.used -ℤ pos self.back.used }
    {
        i64::from(self.there.used) - i64::from(self.back.used)
    }

    // What can still flow there with `held` held back, below nought where more was taken than there now is.
    // In 64 bits, so that any `held` may be asked for.
    pub fn atc(self, held: u32) -> i64
        ensures { result ≡ flow self.there self.back held }
    {
        let ntc = i64::from(self.there.ntc);
        let aac = i64::from(self.there.aac);
        let aac_back = i64::from(self.back.aac);
        ntc - aac + aac_back - i64::from(held) - self.net()
    }

    // After a take there, which first frees what was taken back; as it was if less can flow.
    pub fn taken(self, quantity: u32) -> Pair
        ensures there { result.there ≡ there_after self.there self.back quantity }
        ensures back { result.back ≡ back_after self.there self.back quantity }
    {
        if self.atc(0) < i64::from(quantity) {
            return self;
        }
        let Pair { there, back } = self;
        let freed = back.used.min(quantity);
        Pair {
            there: Side {
                used: there.used + (quantity - freed),
                ..there
            },
            back: Side {
                used: back.used - freed,
                ..back
            },
        }
    }

    // After a notice; as it was if a figure is above 99,999.
    pub fn noticed(self, figures: Figures) -> Pair
        ensures there { result.there ≡ cond (large figures) self.there (figured self.there figures.ntc figures.aac) }
        ensures back { result.back ≡ cond (large figures) self.back (figured self.back figures.ntc_back figures.aac_back) }
    {
        if figures.large() {
            return self;
        }
        let Pair { there, back } = self;
        Pair {
            there: Side {
                ntc: figures.ntc,
                aac: figures.aac,
                ..there
            },
            back: Side {
                ntc: figures.ntc_back,
                aac: figures.aac_back,
                ..back
            },
        }
    }
}
