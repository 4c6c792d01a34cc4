// The cell register: a map, the cells that it was lent, and how many of them are in use.
use crate::cell::Cell;
use capacity::map::ConnectorMap;

mod calls;

#[derive(Drop)]
pub struct CellRegister<'a> {
    pub(crate) map: &'a ConnectorMap,
    // Lent memory with a count, not a `Vec`: a register takes no heap.
    pub(crate) cells: &'a mut [Cell],
    pub(crate) count: usize,
}
