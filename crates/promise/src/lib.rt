// A chart and a wiring rehearsed: any calls on a bench over them, then their report and a schedule, and the promise that
// these three agree.
#![tactic(auto)]

pub mod calls;
mod performing;
pub mod rehearsing;

pub use calls::{Answer, Call};
pub use rehearsing::{Rehearsal, Unopened, rehearse};
