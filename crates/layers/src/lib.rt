// Layers that stand over any delivery, hold it by value and give it back when taken apart.
#![tactic(auto)]

pub mod bound;
pub mod bounded;
mod deeper;
pub mod group;
pub mod relay;
pub mod relayed;
pub mod unbuilt;

pub use bound::Bound;
pub use group::Group;
pub use relay::Relay;
pub use unbuilt::Unbuilt;
