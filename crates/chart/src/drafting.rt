// A chart that is being drawn, and what always holds of it.
ghost use Rattle.std.specs.Prelude.{◌≡◌, ◌<◌, ◌≤◌, true, is_some, vec_len, vec_capacity};

pub mod consulting;
pub mod finishing;
pub mod growing;

use super::pieces::Parts;

pub const INSTANCE_LIMIT: usize = 16;

pub const MESSAGE_LIMIT: usize = 64;

pub const EVENT_LIMIT: usize = 2 * MESSAGE_LIMIT;

// A chart as far as it is drawn: some messages may not be received yet. Its memory is reserved when it is made.
#[derive(Drop)]
pub struct Draft {
    parts: Parts,
    ghost instance_room: { 16 ≤ vec_capacity parts.instances },
    ghost message_room: { 64 ≤ vec_capacity parts.messages },
    ghost event_room: { 128 ≤ vec_capacity parts.events },
    ghost titled: { is_some parts.title ≡ true },
    ghost some_instance: { 0 < vec_len parts.instances },
}

// Why a name does not join the instances.
#[derive(Clone, Copy, PartialEq, Eq, Debug)]
pub enum InstanceRefusal {
    TooMany,
    NamedTwice,
}

// Why a message is not sent.
#[derive(Clone, Copy, PartialEq, Eq, Debug)]
pub enum SendRefusal {
    NamedTwice,
    TooMany,
    NoSender,
    NoReceiver,
    ToItself,
}

// Why a message is not received.
#[derive(Clone, Copy, PartialEq, Eq, Debug)]
pub enum ReceiveRefusal {
    NotSent,
    Again,
}
