// The bottoms of piles of deliveries: one queue over any hold rule, and the four wirings made of it.
#![tactic(auto)]

pub mod bottoms;
pub mod hold_rule;
pub mod queue;
mod search;
pub mod waiting;

pub use bottoms::{Bag, Mailbox, Meeting, PairedLine};
pub use queue::Queue;
