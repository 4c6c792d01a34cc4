// The route between two areas.
ghost use Rattle.std.specs.Prelude.{◌≡◌, ℕ, ◌<◌, ◌≤◌, Bool, List, MatchOption};
ghost use Rattle.routes.specs.Example.{Example};
ghost use Rattle.routes.specs.Grids.{Leads};
ghost use Rattle.routes.specs.Laws.{Alike};
ghost use Rattle.routes.specs.Levels.{AllLevels};
ghost use Rattle.routes.specs.Listed.{listed};
ghost use Rattle.routes.specs.Paths.{Path, IsRoute};

use crate::grid::{AREAS, Grid};
use crate::levels::Levelled;
use crate::route::Route;
use crate::sizes::NO_PATH;

impl<'a> Levelled<'a> {
    // The route by the levels: a level lower each time, through the lowest area; none from where no path leads.
    fn route(&self, from: u32) -> Option<Route>
        requires { AllLevels (Leads self.now.grid.now) self.now.to self.now.levels.sizes }
        ensures { MatchOption result ((xs : List ℕ) → Path (Leads self.now.grid.now) from self.now.to xs → ⊥) (λ w. IsRoute (Leads self.now.grid.now) from self.now.to (listed w)) }
    {
        if self.levels.of(from) == NO_PATH {
            return None;
        }
        let mut route = Route::begin(from);
        let mut at = from;
        while at != self.to {
            let next = self.lowest(at, self.levels.of(at) - 1).unwrap();
            route.push(next);
            at = next;
        }
        Some(route)
    }
}

impl Grid {
    // The route from one area to another, none exactly where no path leads.
    // After the levels at most fifteen areas more are sought, each with at most sixteen tests.
    // From no area no path leads, and none is sought.
    pub fn route(&self, from: u32, to: u32) -> Option<Route>
        ensures answer { MatchOption result ((xs : List ℕ) → Path (Leads self.now) from to xs → ⊥) (λ w. IsRoute (Leads self.now) from to (listed w)) }
        ensures only { (xs : List ℕ) → IsRoute (Leads self.now) from to xs → MatchOption result ⊥ (λ w. listed w ≡ xs) }
        ensures alike { (f g : ℕ → ℕ → Bool) → Alike f g }
        ensures example { Example }
    {
        if from >= AREAS {
            return None;
        }
        Levelled::towards(self, to)?.route(from)
    }
}
