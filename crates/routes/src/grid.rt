// Which directions between areas are open.
ghost use Rattle.routes.specs.Grids.{opens, shut, turned};
ghost use Rattle.std.specs.Prelude.{◌≡◌};

// How many areas there are: the areas are 0 to 15.
pub const AREAS: u32 = 16;

// A flag for each direction, by the area it leads from and then by the one it leads to.
#[derive(Clone, Copy)]
pub struct Grid {
    flags: [bool; 256],
}

impl Grid {
    // A grid with every direction shut.
    pub fn new() -> Grid
        ensures { opens result ≡ shut }
    {
        Grid {
            flags: [false; 256],
        }
    }

    // Opens or shuts one direction; a number that is no area changes nothing.
    // Two numbers: areas with no contract are asked for by grids and maps, and a struct for them is no plainer.
    pub fn set(&mut self, from: u32, to: u32, value: bool)
        ensures { opens self.new ≡ turned (opens self.old) from to value }
    {
        if from < AREAS && to < AREAS {
            self.flags[(AREAS * from + to) as usize] = value;
        }
    }

    // Whether a direction is open; none is from or to a number that is no area.
    pub fn is_open(&self, from: u32, to: u32) -> bool
        ensures { result ≡ opens self.now from to }
    {
        from < AREAS && to < AREAS && self.flags[(AREAS * from + to) as usize]
    }
}
