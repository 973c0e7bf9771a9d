// In which order to fire the events of a chart so that a reversible pair comes the other way round, as bytes.
#![tactic(auto)]

mod firings;
mod passes;
pub mod refusals;
pub mod scheduling;

pub use refusals::ScheduleRefusal;
pub use scheduling::schedule;
