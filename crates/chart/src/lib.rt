// Charts: their numbers, their names, and what always holds of an accepted one.
#![tactic(auto)]

pub mod charting;
pub mod drafting;
mod lookup;
pub mod names;
pub mod numbers;
pub mod pieces;
pub mod repeats;
pub mod words;
