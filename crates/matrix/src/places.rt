// Where an event stands in a set.
ghost use Rattle.std.specs.Prelude.{◌≡◌, ◌<◌, ◌≤◌, MatchOption};
ghost use Rattle.chart.specs.Content.{message_of};
ghost use Rattle.chart.specs.Shown.{happening};
ghost use Rattle.matrix.specs.Places.{place_of, message_limit, event_limit};

use chart::drafting::MESSAGE_LIMIT;
use chart::pieces::Event;

// The place of one of the events that a chart can have. It cannot hold any other number, so no call has to test it.
#[derive(Clone, Copy)]
pub struct Place {
    number: u16,
    ghost small: { number < event_limit },
}

impl Place {
    // None if no chart has so many messages: there is no more to tell, so no TryFrom with an error type of its own.
    pub fn of(event: Event) -> Option<Place>
        ensures { MatchOption result (message_limit ≤ message_of (happening event)) (λ p. p.number ≡ place_of (happening event)) }
    {
        let message = event.message().0;
        if message as usize >= MESSAGE_LIMIT {
            return None;
        }
        let number = match event {
            Event::Out(_) => 2 * message,
            Event::In(_) => 2 * message + 1,
        };
        Some(Place { number })
    }

    pub(crate) fn new(number: u16) -> Place
        requires { number < event_limit }
        ensures { result.number ≡ number }
    {
        Place { number }
    }

    pub(crate) fn index(self) -> usize
        ensures { result ≡ self.number }
    {
        self.number as usize
    }
}
