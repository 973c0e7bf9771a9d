// Charts to work by, and benches over them. The texts stand beside the tests that count their events, though other crates draw
// two of these charts too.
use bench::refusal::{Firing, Obstacle, Refusal};
use bench::stand::Bench;
use bench::stand::playing::Slip;
use chart::charting::Chart;
use chart::numbers::{EventId, InstanceId, MessageId};
use delivery::meaning::Delivery;
use reader::reading::read;
use std::process::Abort;
use std::test::Fail;

// A test rig: pc sets a generator and reads a meter, and both answer.
pub(crate) const STEP: &[u8] = b"msc step; inst pc, gen, met;
pc: out set to gen; gen: in set from pc; pc: out read to met; met: in read from pc;
gen: out lvl to pc; pc: in lvl from gen; met: out val to pc; pc: in val from met; endmsc;";

// p sends two messages to q.
pub(crate) const TWIN: &[u8] = b"msc twin; inst p, q;
p: out m0 to q; p: out m1 to q; q: in m0 from p; q: in m1 from p; endmsc;";

pub(crate) const EMPTY: &[u8] = b"msc a; inst p; endmsc;";

pub(crate) fn bench_over<D: Delivery + Drop>(
    rt: &HostRuntime,
    text: &[u8],
    delivery: D,
) -> Result<Bench<D>, Fail> {
    let mut chart = Chart::blank(rt.alloc());
    read(&mut chart, text).map_err(|_| Fail::new("the chart is not read"))?;
    Bench::open(rt.alloc(), &chart, delivery).map_err(|_| Fail::new("no memory for a bench"))
}

// A firing, and the answer that it must get.
#[derive(Clone, Copy)]
pub(crate) struct Try(pub u16, pub Result<(), Refusal>);

// Fires events one after another.
pub(crate) fn fires<D: Delivery>(
    rt: &impl Abort,
    bench: &mut Bench<D>,
    tries: &[Try],
) -> Result<(), Fail> {
    for Try(event, answer) in tries {
        assert_eq!(rt; bench.fire(EventId(*event)), *answer);
    }
    Ok(())
}

// Fires events on a bench of their own, which then has this record and so many messages waiting.
pub(crate) fn fires_to<D: Delivery + Drop>(
    rt: &impl Abort,
    mut bench: Bench<D>,
    tries: &[Try],
    fired: &[u16],
    waiting: usize,
) -> Result<(), Fail> {
    let answered = fires(rt, &mut bench, tries);
    let record_stands = fired_is(&bench, fired);
    let count = bench.waiting_count();
    answered?;
    assert!(rt; record_stands);
    assert_eq!(rt; count, waiting);
    Ok(())
}

// Whether each answer of a play's advances is as wanted.
fn all_answered<D: Delivery>(
    bench: &mut Bench<D>,
    slip: &Slip,
    wanted: &[Result<(), Refusal>],
) -> bool {
    wanted.iter().all(|answer| bench.advance(slip) == *answer)
}

// Plays a schedule: so many advances with these answers, then the close with that count.
pub(crate) fn plays<D: Delivery>(
    rt: &impl Abort,
    bench: &mut Bench<D>,
    schedule: &[u8],
    wanted: &[Result<(), Refusal>],
    count: usize,
) -> Result<(), Fail> {
    let slip = begun(bench, schedule)?;
    let answered = all_answered(bench, &slip, wanted);
    let place = bench.progress();
    let closed = bench.close(slip);
    assert!(rt; answered);
    assert_eq!(rt; place, Some(count));
    assert_eq!(rt; closed, Ok(count));
    Ok(())
}

// Begins a play that must begin.
pub(crate) fn begun<D: Delivery>(bench: &mut Bench<D>, schedule: &[u8]) -> Result<Slip, Fail> {
    bench
        .begin(schedule)
        .map_err(|_| Fail::new("the play does not begin"))
}

// Why a play does not begin; one that does is closed again.
pub(crate) fn why_not<D: Delivery>(bench: &mut Bench<D>, schedule: &[u8]) -> Option<Refusal> {
    bench.begin(schedule).map(|slip| bench.close(slip)).err()
}

// The refusal of an event, of which instance and message are given.
pub(crate) fn unfired(event: u16, instance: u16, message: u16, obstacle: Obstacle) -> Refusal {
    Refusal::Unfired {
        firing: Firing {
            event: EventId(event),
            instance: InstanceId(instance),
            message: MessageId(message),
        },
        obstacle,
    }
}

pub(crate) fn fired_is<D>(bench: &Bench<D>, numbers: &[u16]) -> bool {
    bench
        .fired()
        .iter()
        .map(|event| event.0)
        .eq(numbers.iter().copied())
}
