// What is kept back in each direction, at 16 times its first area plus its second.
ghost use Rattle.std.specs.Prelude.{◌≡◌, ◌≤◌, if◌then◌else◌};
ghost use Rattle.capacity.specs.Directions.{is_way};
ghost use Rattle.capacity.specs.Shapes.{kept_of};

use crate::limits::LAST_AREA;

// A plain table: a figure of it may be any number, since what is held is cut off at 99,999 wherever it is worked out.
#[derive(Drop, Clone, Copy)]
pub struct Wishes {
    figures: [u32; 256],
}

impl Wishes {
    pub(crate) fn none() -> Wishes
        ensures { kept_of result ≡ (λ a b. 0) }
    {
        Wishes { figures: [0; 256] }
    }

    pub(crate) fn keep(&mut self, from: u32, to: u32, figure: u32)
        requires { (from ≤ 15) × (to ≤ 15) }
        ensures { kept_of self.new ≡ (λ a b. (if is_way from to a b then figure else kept_of self.old a b)) }
    {
        self.figures[(16 * from + to) as usize] = figure;
    }

    pub(crate) fn kept(&self, from: u32, to: u32) -> u32
        ensures { result ≡ kept_of self.now from to }
    {
        if from <= LAST_AREA && to <= LAST_AREA {
            self.figures[(16 * from + to) as usize]
        } else {
            0
        }
    }
}
