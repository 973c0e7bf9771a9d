// How much a delivery can be asked to carry: each message that a chart can have.
use chart::drafting;

// As the length of a table with a place for each message.
pub const MESSAGE_PLACES: usize = drafting::MESSAGE_LIMIT;

// A parcel's message number is below this, and so no more parcels can wait at once.
pub const MESSAGE_LIMIT: u16 = MESSAGE_PLACES as u16;
