// The relay, by itself: its invariant.
ghost use Rattle.std.specs.Prelude.{◌≡◌, ◌≤◌, length};
ghost use Rattle.delivery.specs.Waiting.{message_limit};

use crate::group::Group;
use delivery::limits::MESSAGE_PLACES;
use delivery::parcel::Tag;
use delivery::station::Station;

// The numbers that a relay may have.
pub const LEAST_RELAY: u16 = 16;

pub const GREATEST_RELAY: u16 = 31;

// A layer through which a group of instances sends as one: below, the relay stands as the sender of all their parcels.
#[derive(Drop)]
pub struct Relay<D> {
    pub(crate) below: D,
    pub(crate) group: Group,
    pub(crate) station: Station,
    // the tag that each message was last put with, since below only the shown tag waits; a fixed table, so that making a layer takes no memory
    pub(crate) given: [Tag; MESSAGE_PLACES],
    ghost low: { 16 ≤ station.number },
    ghost high: { station.number ≤ 31 },
    ghost places: { length given ≡ message_limit },
}
