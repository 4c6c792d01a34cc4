// The events of a session as they happen, noted in one list.
ghost use Rattle.std.specs.Prelude.{◌≡◌, [], Some};
ghost use Rattle.player.specs.Logs.{told, Adds};

use crate::sinks::EventSink;
use events::events::Event;
use std::alloc::{AllocError, Global};

// A round must be run to its end even where the memory does not suffice for its events: then the log keeps that, and no event more.
#[derive(Drop)]
pub(crate) struct EventLog {
    pub(crate) events: Result<Vec<Event>, AllocError>,
}

impl EventLog {
    pub(crate) fn new(heap: Global) -> EventLog
        ensures { told result ≡ Some [] }
    {
        EventLog {
            events: Ok(Vec::new(heap)),
        }
    }
}

impl EventSink for EventLog {
    ghost hears = { Adds };

    fn hear(&mut self, event: &Event) {
        if let Ok(events) = &mut self.events {
            if let Err(failed) = events.push(*event) {
                self.events = Err(failed.into());
            }
        }
    }
}
