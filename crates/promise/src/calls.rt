// Calls on a bench, as a list that can be handed in, and what they answered.
use bench::refusal::Refusal;
use chart::numbers::EventId;

// A call on a bench. A slip is told by its place in a pool; slips of other benches may be there too.
#[derive(Clone, Copy)]
pub enum Call<'a> {
    Fire(EventId),
    Clear,
    // an accepted begin adds its slip at the end of the pool
    Begin(&'a [u8]),
    Advance(usize),
    // the slip leaves the pool, whatever the answer is
    Close(usize),
}

#[derive(Drop)]
pub enum Answer {
    Fired(Result<(), Refusal>),
    Cleared(Result<(), Refusal>),
    Begun(Result<(), Refusal>),
    Advanced(Result<(), Refusal>),
    Closed(Result<usize, Refusal>),
    // the pool has no slip at that place, so that nothing was called
    NoSlip,
}
