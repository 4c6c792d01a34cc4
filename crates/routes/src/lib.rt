// Paths and routes among sixteen areas, over a grid of open directions.
#![tactic(auto)]

mod grid;
mod levels;
mod route;
mod sizes;
mod trace;

pub use grid::{AREAS, Grid};
pub use route::{ROUTE_PLACES, Route};
pub use sizes::Sizes;

#[cfg(test)]
mod tests {
    use super::*;
    use std::test::Fail;

    // Opens both directions between two areas.
    fn join(grid: &mut Grid, a: u32, b: u32) {
        grid.set(a, b, true);
        grid.set(b, a, true);
    }

    #[test]
    fn lower_of_two_ways(rt: HostRuntime) -> Result<(), Fail> {
        let mut grid = Grid::new();
        join(&mut grid, 0, 1);
        join(&mut grid, 1, 3);
        join(&mut grid, 0, 2);
        join(&mut grid, 2, 3);
        grid.set(3, 3, true);
        let route = grid.route(0, 3).ok_or("no path")?;
        assert_eq!(rt; route.areas(), [0, 1, 3].as_slice());
        grid.set(0, 1, false);
        assert_eq!(rt; grid.sizes_to(3).of(0), 3);
        assert_eq!(rt; grid.sizes_to(3).of(4), 0);
        assert!(rt; grid.route(4, 4).is_some());
        assert!(rt; grid.route(16, 16).is_none());
        Ok(())
    }

    #[test]
    fn all_in_a_line(rt: HostRuntime) {
        let mut grid = Grid::new();
        for a in 0..15 {
            grid.set(a, a + 1, true);
        }
        assert_eq!(rt; grid.sizes_to(15).of(0), 16);
        assert_eq!(rt; grid.sizes_to(0).of(15), 0);
        assert!(rt; grid.route(0, 15).is_some());
        assert!(rt; grid.route(15, 0).is_none());
    }
}
