// Plays. A slip may not be let go, so a play is closed before its answers are checked.
use crate::making::{EMPTY, TWIN, begun, bench_over, fired_is, plays, unfired, why_not};
use bench::refusal::{Obstacle, Refusal};
use bench::stand::Bench;
use chart::numbers::{EventId, MessageId};
use delivery::meaning::Delivery;
use std::process::Abort;
use std::test::Fail;
use wirings::bottoms::{Bag, PairedLine};

const DRAWN: &[u8] = &[0, 0, 1, 1, 2, 0, 3, 1];

const OVERTAKING: &[u8] = &[0, 0, 1, 1, 3, 1, 2, 0];

fn two_plays<D: Delivery>(rt: &impl Abort, bench: &mut Bench<D>) -> Result<(), Fail> {
    plays(rt, bench, DRAWN, &[Ok(()), Ok(())], 2)?;
    assert!(rt; fired_is(bench, &[0, 1]));
    assert_eq!(rt; why_not(bench, DRAWN), Some(Refusal::RecordNotEmpty));
    assert_eq!(rt; bench.clear(), Ok(()));
    let to_the_end = [Ok(()), Ok(()), Ok(()), Ok(()), Err(Refusal::NoEventLeft)];
    plays(rt, bench, OVERTAKING, &to_the_end, 4)?;
    assert!(rt; fired_is(bench, &[0, 1, 3, 2]));
    Ok(())
}

#[test]
fn a_play_is_closed_half_way_and_another_begun(rt: HostRuntime) -> Result<(), Fail> {
    two_plays(&rt, &mut bench_over(&rt, TWIN, Bag::new(rt.alloc())?)?)
}

fn keeps_out<D: Delivery>(rt: &impl Abort, bench: &mut Bench<D>) -> Result<(), Fail> {
    let slip = begun(bench, DRAWN)?;
    let fired = bench.fire(EventId(0));
    let cleared = bench.clear();
    let again = why_not(bench, DRAWN);
    let closed = bench.close(slip);
    assert_eq!(rt; fired, Err(Refusal::PlayOpen));
    assert_eq!(rt; cleared, Err(Refusal::PlayOpen));
    assert_eq!(rt; again, Some(Refusal::PlayOpen));
    assert_eq!(rt; closed, Ok(0));
    Ok(())
}

#[test]
fn an_open_play_keeps_others_out(rt: HostRuntime) -> Result<(), Fail> {
    keeps_out(&rt, &mut bench_over(&rt, TWIN, Bag::new(rt.alloc())?)?)
}

fn stays<D: Delivery>(rt: &impl Abort, bench: &mut Bench<D>) -> Result<(), Fail> {
    let obstacle = Obstacle::Held {
        holder: MessageId(0),
        layer: 0,
    };
    let held = Err(unfired(3, 1, 1, obstacle));
    plays(rt, bench, OVERTAKING, &[Ok(()), Ok(()), held, held], 2)?;
    assert!(rt; fired_is(bench, &[0, 1]));
    Ok(())
}

#[test]
fn a_refused_event_stays_the_next(rt: HostRuntime) -> Result<(), Fail> {
    stays(
        &rt,
        &mut bench_over(&rt, TWIN, PairedLine::new(rt.alloc())?)?,
    )
}

// A schedule, and its first bad record.
#[derive(Clone, Copy)]
struct Bad<'a>(&'a [u8], usize);

const BAD: &[Bad] = &[
    Bad(&[], 0),
    Bad(&[0, 0, 1, 1, 2, 0], 0),
    Bad(&[0, 0, 1, 1, 2, 0, 3], 0),
    // no such event, another message, a repeat
    Bad(&[0, 0, 4, 0, 2, 0, 3, 1], 1),
    Bad(&[0, 0, 1, 1, 2, 1, 3, 1], 2),
    Bad(&[0, 0, 1, 1, 2, 0, 1, 1], 3),
    // a repeat before a misfit, a misfit that is repeated
    Bad(&[0, 0, 0, 0, 9, 9, 3, 1], 1),
    Bad(&[0, 1, 0, 1, 2, 0, 3, 1], 0),
];

fn all_bad<D: Delivery>(rt: &impl Abort, bench: &mut Bench<D>) {
    for Bad(schedule, place) in BAD {
        let refusal = Refusal::BadSchedule { place: *place };
        assert_eq!(rt; why_not(bench, schedule), Some(refusal));
    }
    assert_eq!(rt; why_not(bench, DRAWN), None);
}

#[test]
fn bad_schedules_name_their_first_bad_record(rt: HostRuntime) -> Result<(), Fail> {
    all_bad(&rt, &mut bench_over(&rt, TWIN, Bag::new(rt.alloc())?)?);
    Ok(())
}

fn exchange<D: Delivery, E: Delivery>(
    rt: &impl Abort,
    one: &mut Bench<D>,
    other: &mut Bench<E>,
) -> Result<(), Fail> {
    let first = begun(one, DRAWN)?;
    let nothing = other.advance(&first);
    let Ok(second) = other.begin(DRAWN) else {
        let _ = one.close(first);
        return Err(Fail::new("the second play does not begin"));
    };
    let crossed = one.advance(&second);
    let back = other.advance(&first);
    let closed = one.close(second);
    let again = one.close(first);
    assert_eq!(rt; nothing, Err(Refusal::NoPlay));
    assert!(rt; crossed.is_ok() && back.is_ok());
    assert_eq!(rt; closed, Ok(1));
    assert_eq!(rt; again, Err(Refusal::NoPlay));
    assert_eq!(rt; other.progress(), Some(1));
    Ok(())
}

#[test]
fn slips_serve_at_any_bench(rt: HostRuntime) -> Result<(), Fail> {
    let mut one = bench_over(&rt, TWIN, Bag::new(rt.alloc())?)?;
    exchange(
        &rt,
        &mut one,
        &mut bench_over(&rt, TWIN, PairedLine::new(rt.alloc())?)?,
    )
}

fn plays_nothing<D: Delivery>(rt: &impl Abort, bench: &mut Bench<D>) -> Result<(), Fail> {
    let too_long = Refusal::BadSchedule { place: 0 };
    assert_eq!(rt; why_not(bench, &[0, 0]), Some(too_long));
    plays(rt, bench, &[], &[Err(Refusal::NoEventLeft)], 0)
}

#[test]
fn an_empty_chart_has_an_empty_play(rt: HostRuntime) -> Result<(), Fail> {
    plays_nothing(&rt, &mut bench_over(&rt, EMPTY, Bag::new(rt.alloc())?)?)
}
