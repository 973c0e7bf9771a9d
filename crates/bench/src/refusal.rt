// Why a call on a bench comes back. Where several refusals apply, the one with the smallest number is told.
ghost use Rattle.std.specs.Prelude.{◌≡◌};
ghost use Rattle.bench.specs.Refusals.{obstacle_number, refusal_number, obstacle_of_put, obstacle_of_take};

use chart::numbers::{EventId, InstanceId, MessageId};
use delivery::refusal::{PutRefusal, TakeRefusal};

// An event that was to be fired.
#[derive(Clone, Copy, PartialEq, Eq, Debug)]
pub struct Firing {
    pub event: EventId,
    pub instance: InstanceId,
    pub message: MessageId,
}

// What stands in the way of an event of the chart.
#[derive(Clone, Copy, PartialEq, Eq, Debug)]
pub enum Obstacle {
    InRecord,
    // an out event's instance lacks an event above it; the first such is named
    AboveMissing { first: EventId },
    // an in event's out event is not in the record
    OutMissing,
    Full { layer: u8 },
    // a message sent earlier holds it; the first such is named
    Held { holder: MessageId, layer: u8 },
}

#[derive(Clone, Copy, PartialEq, Eq, Debug)]
pub enum Refusal {
    PlayOpen,
    NotInChart { event: EventId },
    Unfired { firing: Firing, obstacle: Obstacle },
    RecordNotEmpty,
    // the first bad record of the schedule; 0 too for a schedule of a wrong length
    BadSchedule { place: usize },
    NoPlay,
    NoEventLeft,
}

// A bench never puts a message that is far or waits already; a delivery that says so has no room for it either.
impl From<PutRefusal> for Obstacle {
    ghost from_gives = { λ refusal obstacle. obstacle ≡ obstacle_of_put refusal };

    fn from(refusal: PutRefusal) -> Obstacle {
        match refusal {
            PutRefusal::Far { layer } | PutRefusal::Double { layer } | PutRefusal::Full { layer } =>
                { Obstacle::Full { layer } }
        }
    }
}

// A bench only takes a message that waits.
impl From<TakeRefusal> for Obstacle {
    ghost from_gives = { λ refusal obstacle. obstacle ≡ obstacle_of_take refusal };

    fn from(refusal: TakeRefusal) -> Obstacle {
        match refusal {
            TakeRefusal::Absent { .. } => Obstacle::OutMissing,
            TakeRefusal::Held { by, layer } => Obstacle::Held { holder: by, layer },
        }
    }
}

impl Obstacle {
    // By hand here and below: the project gives each refusal its number.
    pub fn number(self) -> u8
        ensures { result ≡ obstacle_number self }
    {
        match self {
            Obstacle::InRecord => 20,
            Obstacle::AboveMissing { .. } => 21,
            Obstacle::OutMissing => 22,
            Obstacle::Full { .. } => 23,
            Obstacle::Held { .. } => 24,
        }
    }
}

impl Refusal {
    pub fn number(self) -> u8
        ensures { result ≡ refusal_number self }
    {
        match self {
            Refusal::PlayOpen => 18,
            Refusal::NotInChart { .. } => 19,
            Refusal::Unfired { obstacle, .. } => obstacle.number(),
            Refusal::RecordNotEmpty => 25,
            Refusal::BadSchedule { .. } => 26,
            Refusal::NoPlay => 27,
            Refusal::NoEventLeft => 28,
        }
    }
}
