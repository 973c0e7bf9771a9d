// The four wirings. They differ in hold rule and capacity alone.
use crate::hold_rule::{NoHold, SamePair, SameReceiver};
use crate::queue::Queue;

// Parcels arrive in any order.
pub type Bag = Queue<NoHold>;

// Parcels of one sender to one receiver arrive in the order sent.
pub type PairedLine = Queue<SamePair>;

// Parcels to one receiver arrive in the order sent, whoever sent them.
pub type Mailbox = Queue<SameReceiver>;

// Rendezvous: a bag that is made to accept the next parcel only when the last has been taken (`Meeting::one_at_a_time`).
pub type Meeting = Queue<NoHold>;
