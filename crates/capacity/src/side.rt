// One direction of a connector in one contract: its figures, and what was taken beyond what was taken back.
#[derive(Clone, Copy)]
pub struct Side {
    pub ntc: u32,
    pub aac: u32,
    pub used: u32,
}

impl Side {
    pub const NONE: Side = Side {
        ntc: 0,
        aac: 0,
        used: 0,
    };
}
