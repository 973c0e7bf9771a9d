// What a delivery means: which parcels wait, which may be taken, and why a call comes back.
#![tactic(auto)]

pub mod limits;
pub mod meaning;
pub mod parcel;
pub mod refusal;
pub mod station;

pub use meaning::Delivery;
pub use parcel::{Parcel, Tag};
pub use refusal::{Accepted, PutRefusal, TakeRefusal};
pub use station::{NoStation, Station};
