// Chart texts: from bytes to a chart, or to a refusal with its number and place.
#![tactic(auto)]

pub mod lines;
pub mod reading;
pub mod refusals;
pub mod steps;
pub mod tokens;
