// Making layers and taking them apart.
use crate::step::{Step, play};
use delivery::meaning::Delivery;
use layers::bound::Bound;
use layers::group::Group;
use layers::relay::Relay;
use layers::unbuilt::Unbuilt;
use std::process::Abort;
use std::test::*;
use wirings::bottoms::Bag;

// A bag in which one parcel waits.
fn used_bag(rt: &(impl Abort + AllocGlobal)) -> Result<Bag, Fail> {
    let mut bag = Bag::new(rt.alloc())?;
    play(rt, &mut bag, &[Step::Put(7, 0, 1)])?;
    Ok(bag)
}

// The bag that comes back with a refusal of this number, which tells what was asked for.
fn not_made<L: Drop>(
    rt: &impl Abort,
    made: Result<L, Unbuilt<Bag>>,
    refusal_number: u8,
    asked: u16,
) -> Result<Bag, Fail> {
    let Err(refusal) = made else {
        return Err(Fail::new("a layer was made"));
    };
    assert_eq!(rt; refusal.refusal_number(), refusal_number);
    let (Unbuilt::BoundNumber { number, below } | Unbuilt::RelayNumber { number, below }) = refusal;
    assert_eq!(rt; number, asked);
    Ok(below)
}

fn no_bound(rt: &impl Abort, bag: Bag, number: u16) -> Result<Bag, Fail> {
    not_made(rt, Bound::new(bag, number), 11, number)
}

fn no_relay(rt: &impl Abort, bag: Bag, number: u16) -> Result<Bag, Fail> {
    not_made(rt, Relay::new(bag, Group([true; 16]), number), 12, number)
}

fn bounded(rt: &impl Abort, bag: Bag, number: u16) -> Result<Bag, Fail> {
    let bound = Bound::new(bag, number).map_err(|_| Fail::new("no bound was made"))?;
    assert_eq!(rt; bound.capacity(), number);
    Ok(bound.into_below())
}

fn relayed(bag: Bag, number: u16) -> Result<Bag, Fail> {
    Relay::new(bag, Group([true; 16]), number)
        .map(Relay::into_below)
        .map_err(|_| Fail::new("no relay was made"))
}

#[test]
fn bounds_outside_are_refused(rt: HostRuntime) -> Result<(), Fail> {
    let bag = no_bound(&rt, used_bag(&rt)?, 0)?;
    let bag = no_bound(&rt, bag, 65)?;
    let bag = no_bound(&rt, bag, 65_535)?;
    let bag = bounded(&rt, bag, 1)?;
    let bag = bounded(&rt, bag, 64)?;
    assert_eq!(rt; bag.count(), 1);
    Ok(())
}

#[test]
fn relays_outside_are_refused(rt: HostRuntime) -> Result<(), Fail> {
    let bag = no_relay(&rt, used_bag(&rt)?, 15)?;
    let bag = no_relay(&rt, bag, 32)?;
    let bag = no_relay(&rt, bag, 128)?;
    let bag = relayed(bag, 16)?;
    let bag = relayed(bag, 31)?;
    assert_eq!(rt; bag.count(), 1);
    Ok(())
}
