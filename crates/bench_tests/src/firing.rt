// Single firings.
use crate::making::{STEP, TWIN, Try, bench_over, fired_is, fires, fires_to, unfired};
use bench::refusal::{Obstacle, Refusal};
use bench::stand::Bench;
use chart::numbers::{EventId, MessageId};
use delivery::meaning::Delivery;
use layers::group::Group;
use layers::relay::Relay;
use std::process::Abort;
use std::test::Fail;
use wirings::bottoms::{Bag, Meeting, PairedLine};

#[test]
fn a_fresh_bench_says_what_is_missing(rt: HostRuntime) -> Result<(), Fail> {
    let bench = bench_over(&rt, STEP, Bag::new(rt.alloc())?)?;
    let first = Obstacle::AboveMissing { first: EventId(1) };
    fires_to(
        &rt,
        bench,
        &[
            Try(4, Err(unfired(4, 1, 2, first))),
            Try(5, Err(unfired(5, 0, 2, Obstacle::OutMissing))),
            Try(8, Err(Refusal::NotInChart { event: EventId(8) })),
        ],
        &[],
        0,
    )
}

#[test]
fn an_event_is_fired_once(rt: HostRuntime) -> Result<(), Fail> {
    let bench = bench_over(&rt, STEP, Bag::new(rt.alloc())?)?;
    fires_to(
        &rt,
        bench,
        &[
            Try(0, Ok(())),
            Try(0, Err(unfired(0, 0, 0, Obstacle::InRecord))),
            Try(1, Ok(())),
            Try(1, Err(unfired(1, 1, 0, Obstacle::InRecord))),
        ],
        &[0, 1],
        0,
    )
}

#[test]
fn a_full_delivery_is_named_by_its_layer(rt: HostRuntime) -> Result<(), Fail> {
    let made = Relay::new(Meeting::one_at_a_time(rt.alloc())?, Group::NONE, 16);
    let relay = made.map_err(|_| Fail::new("no relay"))?;
    let bench = bench_over(&rt, TWIN, relay)?;
    fires_to(
        &rt,
        bench,
        &[
            Try(0, Ok(())),
            Try(1, Err(unfired(1, 0, 1, Obstacle::Full { layer: 1 }))),
            Try(2, Ok(())),
            Try(1, Ok(())),
        ],
        &[0, 2, 1],
        1,
    )
}

#[test]
fn a_held_message_names_its_holder(rt: HostRuntime) -> Result<(), Fail> {
    let bench = bench_over(&rt, TWIN, PairedLine::new(rt.alloc())?)?;
    let held = Obstacle::Held {
        holder: MessageId(0),
        layer: 0,
    };
    fires_to(
        &rt,
        bench,
        &[
            Try(0, Ok(())),
            Try(1, Ok(())),
            Try(3, Err(unfired(3, 1, 1, held))),
        ],
        &[0, 1],
        2,
    )
}

fn starts_anew<D: Delivery>(rt: &impl Abort, bench: &mut Bench<D>) -> Result<(), Fail> {
    let overtaking = [Try(0, Ok(())), Try(1, Ok(())), Try(3, Ok(()))];
    fires(rt, bench, &overtaking)?;
    assert_eq!(rt; bench.clear(), Ok(()));
    assert!(rt; fired_is(bench, &[]) && bench.delivery().count() == 0);
    fires(rt, bench, &overtaking)?;
    assert!(rt; fired_is(bench, &[0, 1, 3]));
    Ok(())
}

#[test]
fn a_cleared_bench_starts_anew(rt: HostRuntime) -> Result<(), Fail> {
    let mut bench = bench_over(&rt, TWIN, Bag::new(rt.alloc())?)?;
    starts_anew(&rt, &mut bench)?;
    assert_eq!(rt; bench.into_delivery().count(), 1);
    Ok(())
}
