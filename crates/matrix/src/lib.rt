// Sets of a chart's events, and the matrix that holds which event comes before which.
#![tactic(auto)]

pub mod matrices;
pub mod places;
pub mod sets;

pub use matrices::OrderMatrix;
pub use places::Place;
pub use sets::EventSet;
