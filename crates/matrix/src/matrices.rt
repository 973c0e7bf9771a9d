// Which events come before which.
ghost use Rattle.std.specs.Prelude.{◌≡◌, ℕ, ◌<◌, false, if◌then◌else◌, nat_eq};
ghost use Rattle.matrix.specs.Places.{event_limit};
ghost use Rattle.matrix.specs.Models.{has, row_of, precedes};

use super::places::Place;
use super::sets::EventSet;
use chart::drafting::EVENT_LIMIT;

// A bit for each two events: a row for each event, with the events that come before it. An array of bit rows of fixed length,
// so that no call allocates.
#[derive(Drop)]
pub struct OrderMatrix {
    rows: [EventSet; EVENT_LIMIT],
}

impl OrderMatrix {
    pub fn blank() -> OrderMatrix
        ensures { (x y : ℕ) → precedes result x y ≡ false }
    {
        let row = EventSet::empty();
        OrderMatrix {
            rows: [row; EVENT_LIMIT],
        }
    }

    pub fn clear(&mut self)
        ensures { (x y : ℕ) → precedes self.new x y ≡ false }
    {
        self.rows.fill(EventSet::empty());
    }

    // The events before this one.
    pub fn row(&self, place: Place) -> &EventSet
        ensures { result.now ≡ row_of self.now place.number }
    {
        &self.rows[place.index()]
    }

    pub fn put_row(&mut self, place: Place, row: EventSet)
        ensures { (x y : ℕ) → precedes self.new x y ≡ (if nat_eq y place.number then has row x else precedes self.old x y) }
    {
        self.rows[place.index()] = row;
    }

    pub fn holds(&self, before: Place, after: Place) -> bool
        ensures { result ≡ precedes self.now before.number after.number }
    {
        self.rows[after.index()].contains(before)
    }

    // The events after this one.
    pub fn column(&self, place: Place) -> EventSet
        ensures { (y : ℕ) → y < event_limit → has result y ≡ precedes self.now place.number y }
    {
        let mut column = EventSet::empty();
        for (i, row) in self.rows.iter().enumerate() {
            if row.contains(place) {
                column.insert(Place::new(i as u16));
            }
        }
        column
    }
}
