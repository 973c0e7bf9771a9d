// In which order to fire the events of a chart so that a reversible pair comes the other way round.
#![tactic(auto)]

pub mod standing;

pub use standing::schedules_stand;
