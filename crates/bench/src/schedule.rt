// Schedules: an order in which a chart's events are to be fired, as bytes.
ghost use Rattle.std.specs.Prelude.{◌≡◌, ◌≤◌, length, map, slice_get, is_some, true, false, None, IfOk, MatchResult, vec_len, vec_capacity};
ghost use Rattle.bench.specs.Layouts.{OnCopy};
ghost use Rattle.bench.specs.Schedules.{same_event, entry_of, Cut, Walked, Read};
ghost use Rattle.bench.specs.declared.refusal.Refusal.TheVariants.{PlayOpen};

use crate::layout::Layout;
use crate::refusal::Refusal;
use chart::numbers::{EventId, MessageId};
use chart::repeats::{Same, first_repeat};
use std::alloc::{AllocError, Global};

// Bytes of one record.
const ENTRY_LEN: usize = 2;

// One record of a schedule: an event, and the message that it belongs to.
#[derive(Clone, Copy, PartialEq, Eq, Debug)]
pub struct Entry {
    pub event: EventId,
    pub message: MessageId,
}

impl From<[u8; ENTRY_LEN]> for Entry {
    ghost from_gives = { λ bytes entry. entry ≡ entry_of bytes };

    fn from([event, message]: [u8; ENTRY_LEN]) -> Entry {
        Entry {
            event: EventId(u16::from(event)),
            message: MessageId(u16::from(message)),
        }
    }
}

// Two records are told apart by their events.
impl Same for Entry {
    ghost same = { same_event };

    fn is_same(&self, other: &Entry) -> bool {
        self.event == other.event
    }
}

// The records of a schedule, if there are so many of them and nothing more.
pub(crate) fn records_of(schedule: &[u8], count: usize) -> Option<&[[u8; ENTRY_LEN]]>
    ensures { Cut schedule.now count result }
{
    let (records, rest) = schedule.as_chunks();
    (rest.is_empty() && records.len() == count).then_some(records)
}

// What a play goes by: a schedule, and how many of its events were fired. It keeps its memory while no play is open, so that
// none has to ask for some.
#[derive(Drop)]
pub(crate) struct Script {
    pub entries: Vec<Entry>,
    // none while no play is open
    pub done: Option<usize>,
}

impl Script {
    pub(crate) fn with_room(heap: Global, count: usize) -> Result<Script, AllocError>
        ensures room { IfOk result (λ s. vec_capacity s.entries ≡ count) }
        ensures closed { IfOk result (λ s. s.done ≡ None) }
    {
        Ok(Script {
            entries: Vec::with_capacity(heap, count)?,
            done: None,
        })
    }

    // Some calls are refused while a play is open.
    pub(crate) fn must_be_closed(&self) -> Result<(), Refusal>
        ensures { MatchResult result (λ done. is_some self.now.done ≡ false) (λ refusal. (is_some self.now.done ≡ true) × (refusal ≡ PlayOpen)) }
    {
        if self.done.is_some() {
            return Err(Refusal::PlayOpen);
        }
        Ok(())
    }

    // The record at a place, if the schedule has one there.
    pub(crate) fn entry(&self, place: usize) -> Option<Entry>
        ensures { result ≡ slice_get self.now.entries.items place }
    {
        self.entries.get(place).copied()
    }

    // Copies the records up to the first that does not name an event of the chart with its message; that one is named.
    fn walk(&mut self, layout: &Layout, records: &[[u8; ENTRY_LEN]]) -> Option<usize>
        requires empty { vec_len self.old.entries ≡ 0 }
        requires room { length records.now ≤ vec_capacity self.old.entries }
        ensures room { vec_capacity self.new.entries ≡ vec_capacity self.old.entries }
        ensures done { self.new.done ≡ self.old.done }
        ensures walks { OnCopy layout.now (λ c. Walked c (map entry_of records.now) result self.new.entries.items) }
    {
        // The format asks for it: records one by one, each with its number, up to the first bad one.
        for (place, record) in records.iter().enumerate() {
            let entry = Entry::from(*record);
            if !layout.belongs_to(entry.event, entry.message) {
                return Some(place);
            }
            self.entries.push_reserved(entry);
        }
        None
    }

    // Copies a schedule, and names its first bad record.
    pub(crate) fn load(&mut self, layout: &Layout, records: &[[u8; ENTRY_LEN]]) -> Option<usize>
        requires { length records.now ≤ vec_capacity self.old.entries }
        ensures room { vec_capacity self.new.entries ≡ vec_capacity self.old.entries }
        ensures done { self.new.done ≡ self.old.done }
        ensures reads { OnCopy layout.now (λ c. Read c (map entry_of records.now) result self.new.entries.items) }
    {
        self.entries.clear();
        let unfit = self.walk(layout, records);
        first_repeat(&self.entries).or(unfit)
    }
}
