// What the programs at a console share: where a chart text comes from, lines and columns, a chart as a table, and
// failures in words.
#![tactic(auto)]

pub mod failures;
pub mod positions;
pub mod reading;
pub mod source;
pub mod table;
