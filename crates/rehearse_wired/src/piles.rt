// Piles of deliveries, as they are asked for.
use super::misuse::{Failure, Misuse};
use super::wiring::{Bottom, Wiring};
use chart::charting::Chart;
use chart::numbers::{EventId, InstanceId};
use console::table::{print_chart, shown};
use delivery::meaning::Delivery;
use layers::bound::Bound;
use layers::group::Group;
use layers::relay::Relay;
use std::alloc::AllocError;
use wirings::bottoms::{Bag, Mailbox, Meeting, PairedLine};

// A chart, and what is asked of it.
#[derive(Clone, Copy)]
pub(crate) struct Rehearsal<'a> {
    pub rt: &'a HostRuntime,
    pub chart: &'a Chart,
    pub wiring: &'a Wiring,
    pub events: &'a [EventId],
}

impl Rehearsal<'_> {
    // The group with the instance of this name too, if there is such an instance.
    fn joined(&self, group: Group, member: &[u8]) -> Option<Group> {
        let mut names = self.chart.instances().iter();
        let place = names.position(|name| name.text() == member)?;
        group.with(InstanceId(u16::try_from(place).ok()?))
    }

    fn unknown(&self, name: &str) -> Result<Misuse, AllocError> {
        let heap = self.rt.alloc();
        let known: Vec<&str> = self.chart.instances().iter().map(shown).collect(heap)?;
        Ok(Misuse::UnknownMember(String::from_str(heap, name)?, known.join(heap, ", ")?))
    }

    fn group_of(&self, members: &str) -> Result<Group, Failure> {
        let mut group = Group::NONE;
        // No `try_fold`: its closure would allocate the error too, and say no less.
        for member in members.split(',') {
            let Some(larger) = self.joined(group, member.as_bytes()) else {
                return Err(Failure::Misused(self.unknown(member)?));
            };
            group = larger;
        }
        Ok(group)
    }

    fn print_on<D: Delivery + Drop>(&self, mut delivery: D) -> Result<(), Failure> {
        print_chart(self.rt, self.chart)?;
        println!(self.rt; "\nwiring: {}", self.wiring)?;
        self.print_sending(&mut delivery)?;
        self.print_listing(&delivery)?;
        self.fire_all(delivery)
    }

    fn print_relayed<D: Delivery + Drop>(&self, below: D) -> Result<(), Failure> {
        let Some(relay) = &self.wiring.relay else {
            return self.print_on(below);
        };
        let group = self.group_of(relay.members.as_str())?;
        self.print_on(Relay::new(below, group, relay.number).map_err(Misuse::from)?)
    }

    fn print_bounded<D: Delivery + Drop>(&self, bottom: D) -> Result<(), Failure> {
        let Some(number) = self.wiring.bound else {
            return self.print_relayed(bottom);
        };
        self.print_relayed(Bound::new(bottom, number).map_err(Misuse::from)?)
    }

    // The pile is made before anything is printed, so that a refusal stands alone.
    pub(crate) fn print(&self) -> Result<(), Failure> {
        let heap = self.rt.alloc();
        match self.wiring.bottom {
            Bottom::Bag => self.print_bounded(Bag::new(heap)?),
            Bottom::PairedLine => self.print_bounded(PairedLine::new(heap)?),
            Bottom::Mailbox => self.print_bounded(Mailbox::new(heap)?),
            Bottom::Meeting => self.print_bounded(Meeting::one_at_a_time(heap)?),
        }
    }
}
