// The log of a run.
ghost use Rattle.std.specs.Prelude.{◌≡◌};

use kr_board::Event;
use std::marker::{Model, PhantomData};

/// The events of the workers of one run, in order. Only the call that shared the run's span makes one, so that who holds it has the
/// log of that run and of no other. Contracts see the events.
#[derive(Drop)]
pub struct Log<N> {
    events: Vec<Event>,
    run: PhantomData<N>,
}

impl<N> Model for Log<N> {
    ghost use Rattle.std.specs.Prelude.{List};
    ghost use Rattle.kr_core.specs.declared.event.Event.{Event as EventOf};

    ghost Value = { List EventOf };

    ghost view = { λ log. log.events.items };
}

impl<N> Log<N> {
    /// These events, of a board of the run.
    pub(crate) fn new(events: Vec<Event>) -> Log<N>
        ensures { result ≡ events.items }
    {
        Log {
            events,
            run: PhantomData,
        }
    }

    pub fn events(&self) -> &[Event]
        ensures { result.now ≡ self.now }
    {
        self.events.as_slice()
    }

    pub fn into_events(self) -> Vec<Event>
        ensures { result.items ≡ self }
    {
        self.events
    }
}
