// Layers over bottoms and over one another.
use crate::step::{Step, play};
use chart::numbers::{InstanceId, MessageId};
use delivery::meaning::Delivery;
use delivery::refusal::{PutRefusal, TakeRefusal};
use layers::bound::Bound;
use layers::group::Group;
use layers::relay::Relay;
use std::test::*;
use wirings::bottoms::{Bag, Meeting, PairedLine};

pub(crate) fn bound<D: Delivery + Drop>(below: D, number: u16) -> Result<Bound<D>, Fail> {
    Bound::new(below, number).map_err(|_| Fail::new("no bound"))
}

fn group(one: u16, other: u16) -> Result<Group, Fail> {
    Group::NONE
        .with(InstanceId(one))
        .and_then(|first| first.with(InstanceId(other)))
        .ok_or_else(|| Fail::new("no such instance"))
}

// A relay of the two given instances.
fn relay<D: Delivery + Drop>(
    below: D,
    one: u16,
    other: u16,
    number: u16,
) -> Result<Relay<D>, Fail> {
    Relay::new(below, group(one, other)?, number).map_err(|_| Fail::new("no relay"))
}

#[test]
fn bound_stops_at_its_number(rt: HostRuntime) -> Result<(), Fail> {
    let mut pile = bound(PairedLine::new(rt.alloc())?, 2)?;
    assert_eq!(rt; pile.capacity(), 2);
    play(
        &rt,
        &mut pile,
        &[
            Step::Put(0, 0, 1),
            Step::Put(1, 0, 1),
            Step::Refused(2, 0, 1, PutRefusal::Full { layer: 0 }),
            Step::Refused(0, 0, 1, PutRefusal::Double { layer: 1 }),
            Step::Refused(64, 0, 1, PutRefusal::Far { layer: 1 }),
            Step::Stays(
                1,
                TakeRefusal::Held {
                    by: MessageId(0),
                    layer: 1,
                },
            ),
            Step::Stays(2, TakeRefusal::Absent { layer: 1 }),
            Step::Count(2),
            Step::Take(0, 0, 1),
            Step::Put(2, 0, 1),
        ],
    )
}

#[test]
fn uppermost_bound_at_its_limit_is_named(rt: HostRuntime) -> Result<(), Fail> {
    let mut inner = bound(bound(Bag::new(rt.alloc())?, 1)?, 2)?;
    play(
        &rt,
        &mut inner,
        &[
            Step::Put(0, 0, 1),
            Step::Refused(1, 0, 1, PutRefusal::Full { layer: 1 }),
        ],
    )?;
    let mut outer = bound(bound(Bag::new(rt.alloc())?, 2)?, 1)?;
    play(
        &rt,
        &mut outer,
        &[
            Step::Put(0, 0, 1),
            Step::Refused(1, 0, 1, PutRefusal::Full { layer: 0 }),
        ],
    )?;
    let mut both = bound(bound(Bag::new(rt.alloc())?, 1)?, 1)?;
    play(
        &rt,
        &mut both,
        &[
            Step::Put(0, 0, 1),
            Step::Refused(1, 0, 1, PutRefusal::Full { layer: 0 }),
        ],
    )?;
    let mut bottom = bound(Meeting::one_at_a_time(rt.alloc())?, 3)?;
    assert_eq!(rt; bottom.capacity(), 1);
    play(
        &rt,
        &mut bottom,
        &[
            Step::Put(0, 0, 1),
            Step::Refused(1, 0, 1, PutRefusal::Full { layer: 1 }),
        ],
    )
}

#[test]
fn relay_sends_for_its_group(rt: HostRuntime) -> Result<(), Fail> {
    let mut pile = relay(PairedLine::new(rt.alloc())?, 0, 2, 16)?;
    assert_eq!(rt; pile.capacity(), 64);
    play(
        &rt,
        &mut pile,
        &[
            Step::Put(0, 0, 1),
            Step::Put(1, 2, 1),
            Step::Put(2, 3, 1),
            Step::Put(3, 16, 1),
            Step::Stays(
                1,
                TakeRefusal::Held {
                    by: MessageId(0),
                    layer: 1,
                },
            ),
            Step::Stays(
                3,
                TakeRefusal::Held {
                    by: MessageId(0),
                    layer: 1,
                },
            ),
            Step::Take(2, 3, 1),
            Step::Refused(1, 3, 1, PutRefusal::Double { layer: 1 }),
            Step::Take(0, 0, 1),
            Step::Take(1, 2, 1),
            Step::Waits(3, true),
        ],
    )
}

// Twin: two messages of one instance to another.
#[test]
fn relay_over_meeting_is_full_at_layer_one(rt: HostRuntime) -> Result<(), Fail> {
    let mut pile = relay(Meeting::one_at_a_time(rt.alloc())?, 0, 1, 31)?;
    play(
        &rt,
        &mut pile,
        &[
            Step::Put(0, 0, 1),
            Step::Refused(1, 0, 1, PutRefusal::Full { layer: 1 }),
        ],
    )
}

#[test]
fn chained_relays_show_one_after_the_other(rt: HostRuntime) -> Result<(), Fail> {
    let mut alike = relay(relay(PairedLine::new(rt.alloc())?, 2, 2, 16)?, 0, 0, 16)?;
    play(
        &rt,
        &mut alike,
        &[
            Step::Put(0, 0, 1),
            Step::Put(1, 2, 1),
            Step::Stays(
                1,
                TakeRefusal::Held {
                    by: MessageId(0),
                    layer: 2,
                },
            ),
            Step::Take(0, 0, 1),
            Step::Take(1, 2, 1),
        ],
    )?;
    let mut apart = relay(relay(PairedLine::new(rt.alloc())?, 2, 2, 17)?, 0, 0, 16)?;
    play(
        &rt,
        &mut apart,
        &[
            Step::Put(0, 0, 1),
            Step::Put(1, 2, 1),
            Step::Take(1, 2, 1),
            Step::Take(0, 0, 1),
        ],
    )
}

#[test]
fn tall_pile_names_bound_or_bottom(rt: HostRuntime) -> Result<(), Fail> {
    let lower = bound(relay(PairedLine::new(rt.alloc())?, 2, 3, 17)?, 2)?;
    let mut pile = relay(lower, 0, 1, 16)?;
    play(
        &rt,
        &mut pile,
        &[
            Step::Put(0, 0, 5),
            Step::Put(1, 1, 5),
            Step::Refused(2, 2, 5, PutRefusal::Full { layer: 1 }),
            Step::Refused(1, 2, 5, PutRefusal::Double { layer: 3 }),
            Step::Refused(65_535, 2, 5, PutRefusal::Far { layer: 3 }),
            Step::Stays(
                1,
                TakeRefusal::Held {
                    by: MessageId(0),
                    layer: 3,
                },
            ),
            Step::Stays(9, TakeRefusal::Absent { layer: 3 }),
            Step::Take(0, 0, 5),
            Step::Put(2, 2, 5),
            Step::Take(2, 2, 5),
            Step::Take(1, 1, 5),
        ],
    )
}
