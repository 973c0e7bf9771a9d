// The bound, by itself: its invariant.
ghost use Rattle.std.specs.Prelude.{◌≤◌};
ghost use Rattle.delivery.specs.Waiting.{message_limit};

// A layer that lets at most so many parcels wait.
#[derive(Drop)]
pub struct Bound<D> {
    pub(crate) below: D,
    pub(crate) limit: u16,
    ghost some: { 1 ≤ limit },
    ghost few: { limit ≤ message_limit },
}
