// Marks and tickets put into lines, as it runs.
use crate::example::Mark;
use crate::faults::{RankingFault, Refused};
use crate::list::RankedList;
use crate::tickets::Ticket;
use std::test::Fail;

fn mark(first: i32, second: u32, third: u32) -> Mark {
    Mark {
        first,
        second,
        third,
    }
}

#[test]
fn ranks_until_full(rt: HostRuntime) -> Result<(), Fail> {
    let mut lines = [mark(9, 9, 9); 3];
    let mut list = RankedList::over(&mut lines);
    assert!(rt; list.put(mark(4, 1, 0)).is_ok());
    assert!(rt; list.put(mark(-4, 7, 0)).is_ok());
    assert!(rt; list.line(2).is_none());
    assert!(rt; list.put(mark(4, 0, 5)).is_ok());
    assert!(rt; list.put(mark(0, 0, 0)).is_err());
    assert_eq!(rt; list.len(), 3);
    let middle = list.line(1).ok_or("gone")?;
    assert_eq!(rt; (middle.first, middle.second, middle.third), (4, 0, 5));
    Ok(())
}

// The number of a ticket that a list hands out: one whose line it took, or one that it refuses, by this number.
fn handed(put: Result<Ticket, Refused<Ticket>>) -> (Option<u32>, u32) {
    match put {
        Ok(Ticket { number }) => (None, number),
        Err(
            Refused {
                fault,
                element: Ticket { number },
            },
        ) => (Some(fault.number()), number),
    }
}

// The last ticket finds both lines in use and comes back. The lines held 8 and 9 before.
#[test]
fn hands_tickets_on(rt: HostRuntime) {
    let mut lines = [Ticket { number: 8 }, Ticket { number: 9 }];
    let mut list = RankedList::over(&mut lines);
    let first = handed(list.put(Ticket { number: 5 }));
    let second = handed(list.put(Ticket { number: 2 }));
    let third = handed(list.put(Ticket { number: 1 }));
    let best = list.line(0).map(|ticket| ticket.number);
    let [one, two] = lines;
    let Ticket { number: one } = one;
    let Ticket { number: two } = two;
    assert_eq!(rt;
        (first, second, third),
        ((None, 8), (None, 9), (Some(15), 1))
    );
    assert_eq!(rt; (best, one, two), (Some(2), 2, 5));
}
