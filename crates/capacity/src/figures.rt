// What a notice says of one connector in one contract.
ghost use Rattle.std.specs.Prelude.{◌≡◌};
ghost use Rattle.capacity.specs.Answers.{large};

use crate::limits::TOP_FIGURE;

// NTC is what the line can carry, AAC what was allocated before; `back` is the other direction.
#[derive(Clone, Copy)]
pub struct Figures {
    pub ntc: u32,
    pub ntc_back: u32,
    pub aac: u32,
    pub aac_back: u32,
}

impl Figures {
    // Whether one of them is above 99,999.
    pub fn large(self) -> bool
        ensures { result ≡ large self }
    {
        self.ntc > TOP_FIGURE
            || self.ntc_back > TOP_FIGURE
            || self.aac > TOP_FIGURE
            || self.aac_back > TOP_FIGURE
    }
}
