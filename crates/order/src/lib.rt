// The order that a wiring enforces among a chart's events, and the pairs of events that it lets come the other way round.
#![tactic(auto)]

pub mod judging;
pub mod tags;

pub use judging::{judged, theory_stands};
pub use tags::tag_of;
