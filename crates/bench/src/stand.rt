// A bench, by itself: what always holds of it, whatever delivery it stands over.
ghost use Rattle.std.specs.Prelude.{◌≤◌, vec_len, vec_capacity};

pub mod asking;
pub mod firing;
pub mod opening;
pub mod playing;

use crate::record::Record;
use crate::schedule::Script;

// A record of fired events over a delivery, and the play that may be open. All memory is reserved at the opening.
// That it is sound (`Sound` of the specs) is no ghost field: one that speaks of the delivery's meaning would ask `D: Delivery` of
// whoever names a bench.
#[derive(Drop)]
pub struct Bench<D> {
    delivery: D,
    log: Record,
    play: Script,
    ghost play_room: { vec_len log.layout.places ≤ vec_capacity play.entries },
}
