// What a delivery answers to a put and a take. A layer is counted from the top of a pile of deliveries, 0, downward,
// and 255 stands for every layer from there on.
use chart::numbers::MessageId;

// An accepted put. It has nothing to tell yet; a struct, so that it can come to tell something with no other change.
#[derive(Clone, Copy, PartialEq, Eq, Debug)]
pub struct Accepted;

#[derive(Clone, Copy, PartialEq, Eq, Debug)]
pub enum PutRefusal {
    // the message number is beyond what a delivery carries
    Far { layer: u8 },
    // the message waits already
    Double { layer: u8 },
    // as many parcels wait as may
    Full { layer: u8 },
}

#[derive(Clone, Copy, PartialEq, Eq, Debug)]
pub enum TakeRefusal {
    // the message does not wait
    Absent { layer: u8 },
    // a parcel accepted earlier holds it; the first such is named
    Held { by: MessageId, layer: u8 },
}
