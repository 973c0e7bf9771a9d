// Why a schedule comes back.
ghost use Rattle.std.specs.Prelude.{◌≡◌};
ghost use Rattle.scheduling.specs.Refusals.{schedule_number, unjudged};

use analysis::refusals::JudgeRefusal;

#[derive(Clone, Copy, PartialEq, Eq, Debug)]
pub enum ScheduleRefusal {
    // 14: the two events are no pair.
    NotPair,
    // 15: they are, and always come as drawn.
    NotReversible,
    // 16: the buffer has no room for a record of each event.
    TooShort,
}

impl ScheduleRefusal {
    // By hand: the project gives each refusal its number.
    pub fn number(self) -> u8
        ensures { result ≡ schedule_number self }
    {
        match self {
            ScheduleRefusal::NotPair => 14,
            ScheduleRefusal::NotReversible => 15,
            ScheduleRefusal::TooShort => 16,
        }
    }
}

impl From<JudgeRefusal> for ScheduleRefusal {
    ghost from_gives = { λ refusal result. result ≡ unjudged refusal };

    fn from(refusal: JudgeRefusal) -> ScheduleRefusal {
        match refusal {
            JudgeRefusal::NotPair => ScheduleRefusal::NotPair,
            JudgeRefusal::Fixed => ScheduleRefusal::NotReversible,
        }
    }
}
