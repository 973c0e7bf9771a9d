// A bench: a chart's events are fired on it one by one, or by a schedule, over a delivery that it owns.
#![tactic(auto)]

mod handing;
mod layout;
mod record;
pub mod refusal;
pub mod schedule;
pub mod stand;

pub use refusal::{Firing, Obstacle, Refusal};
pub use schedule::Entry;
pub use stand::Bench;
pub use stand::playing::Slip;
