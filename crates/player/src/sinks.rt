// What a caller does with the events of a session.
ghost use Rattle.events.specs.declared.events.Event.{Event as AnEvent};

use events::events::Event;

pub trait EventSink {
    // what hearing an event makes of the sink; one that can fail says so here
    ghost hears: { Self → AnEvent → Self → Type 0 };

    // Hears an event, as it happens.
    fn hear(&mut self, event: &Event)
        ensures { hears self.old event.now self.new };
}
