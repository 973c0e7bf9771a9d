// What is delivered.
use crate::station::Station;
use chart::numbers::MessageId;

// What a wiring sees of a message: who sends it and who receives it.
#[derive(Clone, Copy, PartialEq, Eq, Debug)]
pub struct Tag {
    pub sender: Station,
    pub receiver: Station,
}

// A message on its way.
#[derive(Clone, Copy, PartialEq, Eq, Debug)]
pub struct Parcel {
    pub message: MessageId,
    pub tag: Tag,
}
