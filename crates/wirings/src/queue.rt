// The queue that every bottom is, by itself: its invariant.
ghost use Rattle.std.specs.Prelude.{◌≡◌, ◌≤◌, true, vec_len, vec_capacity};
ghost use Rattle.delivery.specs.Waiting.{message_limit, distinct};

use delivery::parcel::Parcel;

// Parcels waiting under a hold rule, in memory that was reserved when the queue was made.
#[derive(Drop)]
pub struct Queue<R> {
    pub(crate) rule: R,
    pub(crate) capacity: u16,
    pub(crate) parcels: Vec<Parcel>,
    ghost some: { 1 ≤ capacity },
    ghost few: { capacity ≤ message_limit },
    ghost reserved: { capacity ≤ vec_capacity parcels },
    ghost fits: { vec_len parcels ≤ capacity },
    ghost once: { distinct parcels.items ≡ true },
}
