// A worked example: tickets, ranked by their numbers. They are moved from hand to hand, and never copied or let go.
ghost use Rattle.ranking.specs.Tickets.{ticket_before, tickets_ordered};

use crate::order::Ranked;

pub struct Ticket {
    pub number: u32,
}

impl Ranked for Ticket {
    ghost precedes = { ticket_before };

    fn before(&self, other: &Ticket) -> bool {
        self.number < other.number
    }

    ghost ordered = { tickets_ordered };
}
