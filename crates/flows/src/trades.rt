// What a route can carry in a contract, and a trade along it.
ghost use Rattle.std.specs.Prelude.{◌≡◌, ℕ, ◌≤◌, pos};
ghost use Rattle.flows.specs.Flows.{OpenIn, least_flow, least, asked_along, Carries};
ghost use Rattle.flows.specs.Traded.{Traded};
ghost use Rattle.routes.specs.Listed.{listed};
ghost use Rattle.routes.specs.Paths.{Path};

use crate::directions::flow_between;
use capacity::direction::Direction;
use capacity::register::Register;
use routes::Route;

// The least of a quantity and of what can flow from area to area of the route.
pub fn least_along<R: Register>(register: &R, contract: u32, route: &Route, most: u32) -> u32
    ensures value { result ≡ least_flow (R.Register.meaning register.now) contract most (listed route.now) }
    ensures open_route { (x y : ℕ) → Path (OpenIn (R.Register.meaning register.now) contract) x y (listed route.now) → pos result ≡ least (R.Register.meaning register.now) contract (pos most) (listed route.now) }
    ensures carries { (x y : ℕ) → Path (OpenIn (R.Register.meaning register.now) contract) x y (listed route.now) → 1 ≤ most → most ≤ 99999 → Carries (R.Register.meaning register.now) contract x y most result (listed route.now) }
{
    let hops = route.areas().array_windows::<2>();
    hops.fold(most, |least, &[from, to]| {
        least.min(flow_between(register, Direction { contract, from, to }))
    })
}

// Takes a quantity on each connector of a route, in order; a take that is refused changes nothing.
pub fn carry<R: Register>(register: &mut R, contract: u32, route: &Route, quantity: u32)
    ensures after { R.Register.meaning register.new ≡ asked_along (R.Register.meaning register.old) contract quantity (listed route.now) }
    ensures traded { (x y n : ℕ) → Carries (R.Register.meaning register.old) contract x y n quantity (listed route.now) → Traded (R.Register.meaning register.old) (R.Register.meaning register.new) contract x y quantity (listed route.now) }
    ensures memory { R.Register.leaves register.old register.new }
{
    for &[from, to] in route.areas().array_windows::<2>() {
        let _ = register.take(Direction { contract, from, to }, quantity);
    }
}
