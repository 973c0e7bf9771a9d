// The reversible pairs of a chart over a delivery: computed, reported, listed, and as values for programs.
#![tactic(auto)]

pub mod filling;
mod judging;
pub mod listing;
pub mod outlook;
pub mod races;
pub mod records;
pub mod refusals;
pub mod reporting;
mod setting;
mod survey;
mod walking;
pub mod writing;

pub use filling::fill;
pub use listing::listing_line;
pub use outlook::{Outlook, judge};
pub use races::Race;
pub use refusals::{JudgeRefusal, ListingRefusal, ReportRefusal};
pub use reporting::report;
