// A worked example: marks of three numbers, ranked by the first, then the second, then the third.
ghost use Rattle.ranking.specs.Marks.{mark_before, marks_ordered};

use crate::order::Ranked;

// Its order is that of its fields, from the first on.
#[derive(Clone, Copy, PartialEq, Eq, PartialOrd, Ord)]
pub struct Mark {
    pub first: i32,
    pub second: u32,
    pub third: u32,
}

impl Ranked for Mark {
    ghost precedes = { mark_before };

    fn before(&self, other: &Mark) -> bool {
        self < other
    }

    ghost ordered = { marks_ordered };
}
