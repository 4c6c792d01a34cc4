// A route written into the first places of a buffer.
ghost use Rattle.std.specs.Prelude.{◌≡◌, ◌<◌, ◌≤◌, ◌++◌, length, drop};
ghost use Rattle.routes.specs.Listed.{listed};

use routes::Route;

// Fills the first places with the areas of the route, and leaves the others; too few places stay as they are.
pub fn write_route(places: &mut [u32], route: &Route)
    ensures filled { length (listed route.now) ≤ length places.old → places.new ≡ listed route.now ++ drop (length (listed route.now)) places.old }
    ensures too_few { length places.old < length (listed route.now) → places.new ≡ places.old }
{
    let areas = route.areas();
    let n = areas.len();
    // No `get_mut`, since a proof then knows nothing of what the places hold.
    if n <= places.len() {
        places[..n].copy_from_slice(areas);
    }
}
