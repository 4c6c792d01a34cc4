// Which directions of a contract are open, asked of a register.
ghost use Rattle.std.specs.Prelude.{◌≡◌, ℕ, ◌<◌, ◌≢◌};
ghost use Rattle.flows.specs.Flows.{flow, open_in, OpenIn};
ghost use Rattle.flows.specs.Same.{SamePaths};
ghost use Rattle.routes.specs.Grids.{opens, Leads};

use capacity::direction::Direction;
use capacity::register::Register;
use routes::{AREAS, Grid};

// The least ATC of a direction that is open.
const LEAST_ATC: i32 = 1;

// What can still flow in a direction, 0 where its areas are not joined or the ATC is below nought.
pub(crate) fn flow_between<R: Register>(register: &R, direction: Direction) -> u32
    ensures { result ≡ flow (R.Register.meaning register.now) direction.contract direction.from direction.to }
{
    register
        .atc(direction)
        .map_or(0, |atc| u32::try_from(atc).unwrap_or(0))
}

// No area is joined to itself, so that is not asked.
fn is_open<R: Register>(register: &R, direction: Direction) -> bool
    ensures { result ≡ open_in (R.Register.meaning register.now) direction.contract direction.from direction.to }
{
    direction.from != direction.to && register.atc(direction).is_some_and(|atc| atc >= LEAST_ATC)
}

// Sets the directions that lead from one area.
fn open_from<R: Register>(register: &R, contract: u32, from: u32, grid: &mut Grid)
    requires { from < 16 }
    ensures here { (b : ℕ) → b < 16 → opens grid.new from b ≡ open_in (R.Register.meaning register.now) contract from b }
    ensures others { (a b : ℕ) → (a ≢ from) → opens grid.new a b ≡ opens grid.old a b }
{
    for to in 0..AREAS {
        let open = is_open(register, Direction { contract, from, to });
        grid.set(from, to, open);
    }
}

// The directions of a contract that are open: 240 questions to the register.
pub fn open_grid<R: Register>(register: &R, contract: u32) -> Grid
    ensures directions { opens result ≡ open_in (R.Register.meaning register.now) contract }
    ensures paths { SamePaths (Leads result) (OpenIn (R.Register.meaning register.now) contract) }
{
    let mut grid = Grid::new();
    for from in 0..AREAS {
        open_from(register, contract, from, &mut grid);
    }
    grid
}
